// The hold, which keeps the front of a piece that straddles two chunks; and booking a piece where it stands, or from the hold.
ghost use Rattle.std.specs.Prelude.{◌≤◌, ◌≡◌, true, ◌++◌, length};
ghost use Rattle.layout.specs.Line.{printable};
ghost use Rattle.book.specs.Bytes.{book_answer, book_bytes};
ghost use Rattle.row.specs.Writes.{Wrote};
ghost use Rattle.feed.specs.Printed.{report as printed_report};
ghost use Rattle.feed.specs.Steps.{kept_of, longest, next_line, nothing_held};
ghost use Rattle.lookup.specs.Lent.{SameLent};

use crate::report;
use lookup::Day;
use std::marker::Model;

// One byte more than a line, so that a piece that is too long is seen to be.
const HOLD: usize = 141;

// The front of the piece to come, as much of it as was seen and shows whether it is too long, and the number of that piece.
#[derive(Drop)]
pub struct Hold {
    bytes: [u8; HOLD],
    held: usize,
    line: u64,
}

impl Model for Hold {
    ghost use Rattle.std.specs.Prelude.{◌≤◌};
    ghost use Rattle.feed.specs.Steps.{Held, held_in, hold_length};

    ghost Value = { Held };

    ghost view = { λ h. record { piece = held_in h.bytes h.held; line = h.line } };

    ghost invariant = { λ h. h.held ≤ hold_length };
}

impl Hold {
    // Before any of the piece of that number is seen.
    pub fn at(line: u64) -> Hold
        ensures { result ≡ nothing_held line }
    {
        Hold {
            bytes: [0; HOLD],
            held: 0,
            line,
        }
    }

    // A part of a piece behind what is held of it.
    pub fn keep(&mut self, part: &[u8])
        ensures piece { self.new.piece ≡ kept_of (self.old.piece ++ part.now) }
        ensures line { self.new.line ≡ self.old.line }
    {
        let n = part.len().min(HOLD - self.held);
        run::store(&mut self.bytes, self.held, &part[..n]);
        self.held += n;
    }

    // The piece behind the one that is booked.
    fn next(&mut self)
        ensures { self.new ≡ nothing_held (next_line self.old.line) }
    {
        self.held = 0;
        self.line = self.line.saturating_add(1);
    }

    pub fn piece(&self) -> &[u8]
        ensures { result.now ≡ self.now.piece }
    {
        &self.bytes[..self.held]
    }

    pub fn line(&self) -> u64
        ensures { result ≡ self.now.line }
    {
        self.line
    }
}

fn book_piece(day: &mut Day<'_>, piece: &[u8], plain: bool, line: u64, out: &mut [u8]) -> usize
    requires longest_in_bounds { longest ≤ length out.old }
    requires piece_value { plain ≡ true → printable piece.now ≡ true }
    ensures wrote { Wrote (printed_report line (book_answer day.old.table.now piece.now)) out.old out.new result }
    ensures t_after { day.new.table.now ≡ book_bytes day.old.table.now piece.now }
    ensures same { SameLent day.old day.new }
{
    match book::book_sound(day, piece, plain) {
        Ok(()) => 0,
        Err(x) => report::refused(line, x, out),
    }
}

pub fn book_held(day: &mut Day<'_>, hold: &Hold, out: &mut [u8]) -> usize
    requires longest_in_bounds { longest ≤ length out.old }
    ensures wrote { Wrote (printed_report hold.now.line (book_answer day.old.table.now hold.now.piece)) out.old out.new result }
    ensures t_after { day.new.table.now ≡ book_bytes day.old.table.now hold.now.piece }
    ensures same { SameLent day.old day.new }
{
    // Nobody has looked through what is held as one piece.
    book_piece(day, hold.piece(), false, hold.line(), out)
}

// The part of a chunk that ends a piece. Where nothing is held it is the piece.
pub fn book_part(
    day: &mut Day<'_>,
    hold: &mut Hold,
    part: &[u8],
    plain: bool,
    out: &mut [u8],
) -> usize
    requires longest_in_bounds { longest ≤ length out.old }
    requires part_value { plain ≡ true → printable part.now ≡ true }
    ensures wrote { Wrote (printed_report hold.old.line (book_answer day.old.table.now (hold.old.piece ++ part.now))) out.old out.new result }
    ensures t_after { day.new.table.now ≡ book_bytes day.old.table.now (hold.old.piece ++ part.now) }
    ensures same { SameLent day.old day.new }
    ensures hold_after { hold.new ≡ nothing_held (next_line hold.old.line) }
{
    let said = if hold.piece().is_empty() {
        book_piece(day, part, plain, hold.line(), out)
    } else {
        hold.keep(part);
        book_held(day, hold, out)
    };
    hold.next();
    said
}
