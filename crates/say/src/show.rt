// Values as text of fixed widths: a record's fields, a strike, a time.
use crate::say;
use std::fmt;
use std::fmt::Write;
use std::io::Print;
use std::ops::Range;

// What is said of a record, gathered, so that it goes out in one write: a write for each field took most of the time of a case.
#[derive(Drop)]
struct Gathered {
    text: [u8; 512],
    long: usize,
}

impl Write for Gathered {
    fn write_str(&mut self, s: &str) -> fmt::Result {
        self.put(s.as_bytes());
        Ok(())
    }
}

impl Gathered {
    // As much as there is room for.
    fn put(&mut self, s: &[u8]) {
        if let Some(room) = self.text.get_mut(self.long..) {
            let n = s.len().min(room.len());
            room[..n].copy_from_slice(&s[..n]);
            self.long += n;
        }
    }

    // The bytes of the n-th field, as they stand; blank, where the record does not reach so far.
    fn field(&mut self, n: u8, b: &[u8], at: Range<usize>) {
        let wide = at.len();
        let _ = write!(self, " {n}[");
        match b.get(at) {
            Some(bytes) => self.put(bytes),
            None => {
                let _ = write!(self, "{:wide$}", "");
            }
        }
        self.put(b"]");
    }

    // The number of the n-th field, as wide as the field, zeros or spaces in front.
    fn number(&mut self, n: u8, b: &[u8], at: Range<usize>, wide: usize, zeros: bool) {
        let _ = match number(b, at) {
            Some(v) if zeros => write!(self, " {n}[{v:0wide$}]"),
            Some(v) => write!(self, " {n}[{v:wide$}]"),
            None => write!(self, " {n}[{:wide$}]", ""),
        };
    }
}

// The number that these bytes of a record hold.
fn number(b: &[u8], at: Range<usize>) -> Option<u64> {
    let bytes = b.get(at)?;
    if bytes.len() <= 8 {
        Some(cell::get(bytes, 0, bytes.len()))
    } else {
        None
    }
}

// A record from its bytes: every field in brackets, at its full width.
pub fn record(rt: &impl Print, b: &[u8]) {
    let mut said = Gathered {
        text: [0; 512],
        long: 0,
    };
    said.put(b" record");
    event_fields(&mut said, b);
    order_fields(&mut said, b);
    option_fields(&mut said, b);
    id_fields(&mut said, b);
    if let Some(text) = said.text.get(..said.long) {
        crate::text(rt, text);
    }
}

// Fields 1 to 9.
fn event_fields(said: &mut Gathered, b: &[u8]) {
    said.number(1, b, 0..8, 8, false);
    said.field(2, b, 8..9);
    said.field(3, b, 9..13);
    said.field(4, b, 13..14);
    said.field(5, b, 14..15);
    said.field(6, b, 15..16);
    said.field(7, b, 16..20);
    said.field(8, b, 20..25);
    said.field(9, b, 25..30);
}

// Fields 10 to 15.
fn order_fields(said: &mut Gathered, b: &[u8]) {
    said.field(10, b, 30..36);
    said.field(11, b, 36..56);
    said.field(12, b, 56..76);
    said.field(13, b, 76..85);
    said.field(14, b, 85..86);
    said.number(15, b, 86..92, 6, false);
}

// Fields 16 to 22.
fn option_fields(said: &mut Gathered, b: &[u8]) {
    said.field(16, b, 92..98);
    said.field(17, b, 98..99);
    said.number(18, b, 99..101, 2, true);
    said.number(19, b, 101..103, 2, true);
    said.field(20, b, 103..104);
    said.number(21, b, 104..110, 6, true);
    said.number(22, b, 110..118, 10, false);
}

// Fields 23 and 24, blank where the type has none.
fn id_fields(said: &mut Gathered, b: &[u8]) {
    let ids: &[u8] = if b.len() == layout::FIELDS && layout::is_trade(b[8]) {
        b
    } else {
        b""
    };
    said.number(23, ids, 120..128, 9, false);
    said.number(24, ids, 129..137, 9, false);
}

// A strike's letter and its six digits.
pub fn strike(rt: &impl Print, denominator: u64, strike: u64) {
    let letter = char::from((denominator % 256) as u8);
    say!(rt; "strike form {letter} {strike:06}");
}

pub fn time(rt: &impl Print, hours: u64, minutes: u64, seconds: u64, milliseconds: u64) {
    say!(rt; " {hours:02}:{minutes:02}:{seconds:02}.{milliseconds:03}");
}
