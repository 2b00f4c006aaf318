// What the trial program prints, piece by piece.
#![tactic(auto)]

use std::fmt;
use std::fmt::{Display, Formatter, Write};
use std::io::Print;

pub mod show;

// Prints a format. What cannot be written is let go: it shows where the output is compared.
#[macro_export]
macro_rules! say {
    ($rt:expr; $($format:tt)+) => {{
        let _ = print!($rt; $($format)+);
    }};
}

// Bytes that need not be text, and words with no number in them, which need no format.
pub fn text(rt: &impl Print, s: &[u8]) {
    let _ = rt.write_all(s);
}

// All of a buffer, in brackets.
pub fn bytes(rt: &impl Print, s: &[u8]) {
    text(rt, b" [");
    text(rt, s);
    text(rt, b"]");
}

// What an entry answers, from the one number that says it: done, or refused R, with field F after a 3.
#[derive(Drop)]
pub struct Answer(pub u32);

impl Display for Answer {
    fn fmt<W: Write>(&self, f: &mut Formatter<W>) -> fmt::Result {
        if self.0 == 0 {
            return write!(f, "done");
        }
        write!(f, "refused {}", self.0 % 256)?;
        if self.0 < 256 {
            return Ok(());
        }
        write!(f, " field {}", self.0 / 256)
    }
}

// Numbers, a space before each.
#[derive(Drop)]
pub struct Spaced<'a, T>(pub &'a [T]);

impl<T: Display> Display for Spaced<'_, T> {
    fn fmt<W: Write>(&self, f: &mut Formatter<W>) -> fmt::Result {
        for n in self.0 {
            write!(f, " {n}")?;
        }
        Ok(())
    }
}

// A refusal, and the numbers that were lent as it left them.
pub fn left(rt: &impl Print, code: u32, lent: &[u64]) {
    say!(rt; " {} left{}", Answer(code), Spaced(lent));
}

// The one number that was lent, behind its word where the entry is done.
pub fn number(rt: &impl Print, word: &[u8], code: u32, n: u64) {
    if code == 0 {
        text(rt, word);
        say!(rt; "{n}");
        return;
    }
    left(rt, code, &[n]);
}

// A buffer that was lent: how long it is, the answer, and all its bytes.
pub fn filled(rt: &impl Print, word: &[u8], code: u32, s: &[u8]) {
    text(rt, word);
    say!(rt; "{} {}", s.len(), Answer(code));
    bytes(rt, s);
}

pub fn sum(rt: &impl Print, s: &[u8]) {
    say!(rt; " sum {}", adler(s));
}

// Adler-32. Both halves are cut back at each byte, so that no run is too long for them.
fn adler(s: &[u8]) -> u64 {
    let mut a = 1;
    let mut b = 0;
    for x in s {
        a = (a + *x as u64) % 65521;
        b = (b + a) % 65521;
    }
    b * 65536 + a
}
