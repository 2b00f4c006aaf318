// The line of a quote row: quote ID EXECUTED BROKEN SOURCE.
ghost use Rattle.std.specs.Prelude.{◌≤◌, ◌≡◌, length};
ghost use Rattle.section.specs.Sections.{record_of};
ghost use Rattle.quote_slot.specs.QuoteSlots.{row_in, rows, RowInside};
ghost use Rattle.row.specs.Texts.{fills_text, line_text, quote_text};
ghost use Rattle.row.specs.Writes.{Put, Wrote};

use crate::{decimal, put_column};
use quote::ID;
use quote_slot::{ROW, offset};
use slot::offset::TOKEN;

// All before the Source. A function of its own, since the prover reads only so many facts of one.
#[tactic(auto, using(crate::proofs::Puts::fills_length))]
fn put_fills(out: &mut [u8], id: &[u8], executed: u64, broken: u64) -> usize
    requires { length (fills_text id.now executed broken) ≤ length out.old }
    ensures { Put (fills_text id.now executed broken) 0 out.old out.new result }
{
    run::store(out, 0, b"quote ");
    run::store(out, 6, id);
    let end = put_column(out, 6 + id.len(), executed);
    put_column(out, end, broken)
}

#[tactic(auto, using(crate::proofs::Puts::line_length))]
fn put_line(out: &mut [u8], id: &[u8], executed: u64, broken: u64, source: &[u8]) -> usize
    requires { length (line_text id.now executed broken source.now) ≤ length out.old }
    ensures { Wrote (line_text id.now executed broken source.now) out.old out.new result }
{
    let end = put_fills(out, id, executed, broken);
    run::store(out, end, b" ");
    run::store(out, end + 1, source);
    run::store(out, end + 1 + source.len(), b"\n");
    end + 2 + source.len()
}

#[tactic(auto, using(crate::proofs::Decimals::decimal_most))]
pub fn length(t: &[u8], base: usize, i: usize) -> usize
    requires { RowInside base i t.now }
    ensures { result ≡ length (quote_text (row_in (record_of (rows base) t.now i))) }
{
    let at = base + ROW * i;
    // The word, the id, the six Source bytes, the spaces before executed, broken and Source, the LF.
    32 + decimal::digits(cell::get(t, at + offset::EXECUTED, 4))
        + decimal::digits(cell::get(t, at + offset::BROKEN, 4))
}

// Id and Source are lent from the table as they stand there.
pub fn write(t: &[u8], base: usize, i: usize, out: &mut [u8]) -> usize
    requires row_inside { RowInside base i t.now }
    requires i_in_bounds { length (quote_text (row_in (record_of (rows base) t.now i))) ≤ length out.old }
    ensures { Wrote (quote_text (row_in (record_of (rows base) t.now i))) out.old out.new result }
{
    let at = base + ROW * i;
    put_line(
        out,
        &t[at + TOKEN..at + TOKEN + ID],
        cell::get(t, at + offset::EXECUTED, 4),
        cell::get(t, at + offset::BROKEN, 4),
        &t[at..at + TOKEN],
    )
}
