// The sheet program without its system calls: text to pieces to booked lines and refusal lines, and at the end the sheet.
#![tactic(auto)]

ghost use Rattle.std.specs.Prelude.{◌≤◌, ◌≡◌, true, length};
ghost use Rattle.table.specs.Tables.{limit_of};
ghost use Rattle.row.specs.Writes.{Wrote};
ghost use Rattle.sheet.specs.Promises.{text_of};
ghost use Rattle.sheet.specs.Texts.{longest_sheet};
ghost use Rattle.feed.specs.Steps.{Fits, between_of, finished, last_said, last_table, longest, room_at_end, step_from};
ghost use Rattle.lookup.specs.Lent.{SameLent};

mod hold;
mod report;

pub use hold::Hold;
use lookup::Day;

// The longest refusal line.
const LONGEST: usize = 46;

// How much of the chunk was used and how much was written.
#[derive(Clone, Copy)]
pub struct Fed {
    pub used: usize,
    pub wrote: usize,
}

// The pieces of a chunk, one after another. It stops where the output might have no room for a refusal line, so that nothing is lost.
pub fn step(chunk: &[u8], day: &mut Day<'_>, hold: &mut Hold, out: &mut [u8]) -> Fed
    ensures fits { Fits (step_from (length out.old) (between_of hold.old day.old.table.now) chunk.now) out.old result day.new.table.now hold.new out.new }
    ensures long { length day.new.table.now ≡ length day.old.table.now }
    ensures same { SameLent day.old day.new }
{
    let mut used = 0;
    let mut wrote = 0;
    while used < chunk.len() {
        let cut = piece::cut(chunk, used);
        let end = cut.end;
        let part = &chunk[used..end];
        if chunk[end - 1] != piece::LF {
            hold.keep(part);
            return Fed { used: end, wrote };
        }
        if out.len() - wrote < LONGEST {
            return Fed { used, wrote };
        }
        wrote += hold::book_part(day, hold, part, cut.plain, &mut out[wrote..]);
        used = end;
    }
    Fed { used, wrote }
}

// What is held when the text ends is the last piece.
fn book_last(day: &mut Day<'_>, hold: &Hold, out: &mut [u8]) -> usize
    requires longest_in_bounds { longest ≤ length out.old }
    ensures wrote { Wrote (last_said (between_of hold.now day.old.table.now)) out.old out.new result }
    ensures t_after { day.new.table.now ≡ last_table (between_of hold.now day.old.table.now) }
    ensures same { SameLent day.old day.new }
{
    if hold.piece().is_empty() {
        return 0;
    }
    hold::book_held(day, hold, out)
}

// A buffer with room for the longest sheet is never refused.
fn sheet_of(day: &Day<'_>, out: &mut [u8]) -> usize
    requires { longest_sheet (limit_of (length day.now.table.now)) ≤ length out.old }
    ensures { Wrote (text_of day.now.table.now) out.old out.new result }
{
    sheet::write_sound(day.table, out).unwrap()
}

// The end of the text: the last piece, and behind it the sheet.
pub fn finish(day: &mut Day<'_>, hold: &Hold, out: &mut [u8]) -> usize
    requires t_in_bounds { room_at_end (limit_of (length day.old.table.now)) ≤ length out.old }
    ensures wrote { Wrote (finished (between_of hold.now day.old.table.now)) out.old out.new result }
    ensures t_after { day.new.table.now ≡ last_table (between_of hold.now day.old.table.now) }
    ensures same { SameLent day.old day.new }
{
    let said = book_last(day, hold, out);
    said + sheet_of(day, &mut out[said..])
}
