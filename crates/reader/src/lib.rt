// A reader over lent text. Four functions over it are thin, and `count` and `nth` stand above them with plain parameters, for callers.
#![tactic(auto)]

ghost use Rattle.std.specs.Prelude.{◌≡◌, length};
ghost use Rattle.piece.specs.Pieces.{pieces};
ghost use Rattle.piece.specs.Promises.{Nexts};
ghost use Rattle.reader.specs.Handed.{VeryBytes};
ghost use Rattle.reader.specs.Numbering.{Numbered};
ghost use Rattle.reader.specs.Reading.{over_text, past_piece};

mod cutter;

#[derive(Clone, Copy)]
pub struct Reader<'a> {
    text: &'a [u8],
    at: usize,
}

// A reader over a text, at its first place.
pub fn over<'a>(text: &'a [u8]) -> Reader<'a>
    ensures { result ≡ over_text text.entry }
{
    Reader { text, at: 0 }
}

// The next piece, by the place behind it, or that nothing is left.
pub fn next<'a>(r: Reader<'a>) -> Option<usize>
    ensures { Nexts r.entry.text.now r.entry.at result }
{
    piece::next(r.text, r.at)
}

// The bytes of the next piece, in the lent text itself; empty where nothing is left.
pub fn bytes<'a>(r: Reader<'a>) -> &'a [u8]
    ensures { VeryBytes r.entry.text r.entry.at result }
{
    cutter::cut(r.text, r.at)
}

// The reader past the next piece; the same reader where nothing is left.
pub fn past<'a>(r: Reader<'a>) -> Reader<'a>
    ensures { result ≡ past_piece r.entry }
{
    Reader {
        text: r.text,
        at: cutter::behind(r.text, r.at),
    }
}

// How many pieces a text has.
pub fn count(text: &[u8]) -> usize
    ensures { result ≡ length (pieces text.now) }
{
    let mut r = over(text);
    let mut n = 0;
    while next(r).is_some() {
        r = past(r);
        n += 1;
    }
    n
}

// The piece with a number, counted from 0, in the lent text itself; empty where the text has no such piece.
pub fn nth<'a>(text: &'a [u8], n: usize) -> &'a [u8]
    ensures { Numbered text.entry n result }
{
    let mut r = over(text);
    for _ in 0..n {
        if next(r).is_none() {
            break;
        }
        r = past(r);
    }
    bytes(r)
}
