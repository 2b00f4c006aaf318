// Fields that are kept as their bytes.
ghost use Rattle.std.specs.Prelude.{◌≡◌, true};
ghost use Rattle.run.specs.Runs.{all};
ghost use Rattle.field.specs.Byte.{is_of};
ghost use Rattle.field.specs.Verbatim.{is_text, is_blank, is_text_or_blank, is_digits_or_blank, is_hex, is_code};
ghost use Rattle.field.specs.declared.Class.TheVariants.{Printable};

use crate::Class;

pub fn is_of(class: Class, b: u8) -> bool
    ensures { result ≡ is_of class b }
{
    match class {
        Class::Printable => (32 <= b) & (b <= 126),
        Class::Space => b == 32,
        Class::Digit => (48 <= b) & (b <= 57),
        Class::Hex => (48 <= b) & (b <= 57) | (65 <= b) & (b <= 70),
    }
}

// One pass with no early exit, so that it is vectorised.
pub fn all_of(s: &[u8], class: Class) -> bool
    ensures { result ≡ all (is_of class) s.now }
{
    s.iter().fold(true, |good, b| good & is_of(class, *b))
}

// A text whose bytes are known to be printable: only its first byte is left to test.
pub fn text_in(s: &[u8]) -> bool
    requires { all (is_of Printable) s.now ≡ true }
    ensures { result ≡ is_text s.now }
{
    s.len() != 0 && s[0] != 32
}

pub fn text(s: &[u8]) -> bool
    ensures { result ≡ is_text s.now }
{
    all_of(s, Class::Printable) && text_in(s)
}

pub fn blank(s: &[u8]) -> bool
    ensures { result ≡ is_blank s.now }
{
    all_of(s, Class::Space)
}

// As `text_in` beside `text`.
pub fn text_or_blank_in(s: &[u8]) -> bool
    requires { all (is_of Printable) s.now ≡ true }
    ensures { result ≡ is_text_or_blank s.now }
{
    text_in(s) || blank(s)
}

pub fn text_or_blank(s: &[u8]) -> bool
    ensures { result ≡ is_text_or_blank s.now }
{
    text(s) || blank(s)
}

pub fn digits_or_blank(s: &[u8]) -> bool
    ensures { result ≡ is_digits_or_blank s.now }
{
    all_of(s, Class::Digit) || blank(s)
}

pub fn hex(s: &[u8]) -> bool
    ensures { result ≡ is_hex s.now }
{
    all_of(s, Class::Hex)
}

pub fn code(s: &[u8], codes: &[u8]) -> bool
    ensures { result ≡ is_code codes.now s.now }
{
    s.len() == 1 && run::member(s[0], codes)
}
