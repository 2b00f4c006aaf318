// Fields that are read as a number. A u64 holds 19 digits, so no such field is wider.
ghost use Rattle.std.specs.Prelude.{◌≤◌, ◌≡◌, length, position};
ghost use Rattle.field.specs.Number.{digits_after, digits};
ghost use Rattle.field.specs.Number.{number as number_number, spaced as number_spaced, within as number_within, price as number_price};
ghost use Rattle.field.specs.Byte.{other_than_space};

use crate::{Class, verbatim};

// Where the first byte stands that is no space.
fn skip_spaces(s: &[u8]) -> Option<usize>
    ensures { result ≡ position other_than_space s.now }
{
    s.iter().position(|b| *b != 32)
}

// No early exit, so that the bytes are tested side by side. A byte that is no digit counts for what its lower half says: the sum fits all the same.
fn digits_only(s: &[u8]) -> Option<u64>
    requires { length s.now ≤ 19 }
    ensures { result ≡ digits_after 0 s.now }
{
    let mut v: u64 = 0;
    let mut good = true;
    for b in s {
        good = good & verbatim::is_of(Class::Digit, *b);
        v = v * 10 + (*b % 16) as u64;
    }
    if good { Some(v) } else { None }
}

// The rule of a number that space fill pads: every number field today, and the whole part of a price.
pub fn spaced(s: &[u8]) -> Option<u64>
    requires { length s.now ≤ 19 }
    ensures { result ≡ number_spaced s.now }
{
    let at = skip_spaces(s)?;
    if s[at] == 48 {
        return if at + 1 == s.len() { Some(0) } else { None };
    }
    // Where nothing is filled the compiler knows how many digits there are.
    if at == 0 {
        digits_only(s)
    } else {
        digits_only(&s[at..])
    }
}

fn within(n: Option<u64>, least: u64, most: u64) -> Option<u64>
    ensures { result ≡ number_within least most n }
{
    n.filter(|v| (least <= *v) & (*v <= most))
}

pub fn number(s: &[u8], least: u64, most: u64) -> Option<u64>
    requires { length s.now ≤ 19 }
    ensures { result ≡ number_number least most s.now }
{
    within(spaced(s), least, most)
}

// As many digits as the field is wide.
pub fn exactly(s: &[u8], least: u64, most: u64) -> Option<u64>
    requires { length s.now ≤ 19 }
    ensures { result ≡ digits least most s.now }
{
    within(digits_only(s), least, most)
}

// Ten-thousandths of a dollar.
pub fn price(s: &[u8]) -> Option<u64>
    requires { length s.now ≤ 19 }
    ensures { result ≡ number_price s.now }
{
    let (dollars, rest) = s.split_at_checked(s.len().checked_sub(4)?)?;
    Some(spaced(dollars)? * 10000 + digits_only(rest)?)
}
