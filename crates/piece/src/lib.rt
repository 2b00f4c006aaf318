// The pieces of a text, one after another. What a piece says is not known here.
#![tactic(auto)]

ghost use Rattle.std.specs.Prelude.{◌+◌, ◌≤◌, ◌<◌, ◌≡◌, IfSome, true, length, nat_eq, take, drop};
ghost use Rattle.std.specs.List.{position_from};
ghost use Rattle.run.specs.Runs.{all};
ghost use Rattle.field.specs.Byte.{is_of};
ghost use Rattle.field.specs.declared.Class.TheVariants.{Printable};
ghost use Rattle.piece.specs.Pieces.{piece_length};
ghost use Rattle.piece.specs.Promises.{CutAt, Nexts, Plain};

use field::{Class, verbatim};

pub const LF: u8 = 10;

// Most pieces are lines, and this is the length of a line.
const LINE: usize = 140;

// What a line has before its CR LF.
const FIELDS: usize = 138;

// Where a piece ends, and whether it is known to be plain: of the length of a line, all its bytes but the last two printable. A piece
// that is not said to be plain may be so.
#[derive(Clone, Copy)]
pub struct Span {
    pub end: usize,
    pub plain: bool,
}

// In two runs, which share six bytes: 16 divides the length of each, so that no byte is looked at alone.
fn fields_printable(text: &[u8], at: usize) -> bool
    requires { at + 138 ≤ length text.now }
    ensures { result ≡ true → all (is_of Printable) (take 138 (drop at text.now)) ≡ true }
{
    verbatim::all_of(&text[at..at + 128], Class::Printable)
        & verbatim::all_of(&text[at + 122..at + FIELDS], Class::Printable)
}

// A printable byte is no LF, so that one pass tells where the piece ends and that its fields are printable.
fn is_plain(text: &[u8], at: usize) -> bool
    requires { at ≤ length text.now }
    ensures { result ≡ true → Plain (drop at text.now) }
{
    if text.len() - at < LINE {
        return false;
    }
    if text[at + 138] == LF {
        return false;
    }
    if text[at + 139] != LF {
        return false;
    }
    fields_printable(text, at)
}

fn first_lf(s: &[u8]) -> Option<usize>
    ensures first { result ≡ position_from (λ b. nat_eq b 10) 0 s.now }
    ensures inside { IfSome result (λ i. i < length s.now) }
{
    s.iter().position(|b| *b == LF)
}

fn end_by_bytes(text: &[u8], at: usize) -> usize
    requires { at ≤ length text.now }
    ensures { result ≡ at + piece_length (drop at text.now) }
{
    match first_lf(&text[at..]) {
        Some(i) => at + i + 1,
        None => text.len(),
    }
}

// The piece that starts at a place.
pub fn cut(text: &[u8], at: usize) -> Span
    requires { at ≤ length text.now }
    ensures { CutAt text.now at result }
{
    if is_plain(text, at) {
        let end = at + LINE;
        return Span { end, plain: true };
    }
    let end = end_by_bytes(text, at);
    Span { end, plain: false }
}

// The place behind the piece that starts at a place.
pub fn end(text: &[u8], at: usize) -> usize
    requires { at ≤ length text.now }
    ensures { result ≡ at + piece_length (drop at text.now) }
{
    cut(text, at).end
}

// The place behind the next piece of a text, or that nothing is left. Any text, any place.
pub fn next(text: &[u8], at: usize) -> Option<usize>
    ensures { Nexts text.now at result }
{
    if text.len() <= at {
        return None;
    }
    Some(end(text, at))
}
