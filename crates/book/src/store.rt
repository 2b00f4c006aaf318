// Booking: a plan is carried out by whole slots, by what changes of an order, by quote rows, and by the header.
ghost use Rattle.std.specs.Prelude.{◌≡◌, true};
ghost use Rattle.layout.specs.Demand2.{LawfulRecord};
ghost use Rattle.layout.specs.Line.{line as line_line, end_of_day, printable};
ghost use Rattle.order.specs.Names.{key_of};
ghost use Rattle.day.specs.Machine.{new_order, place, with_price};
ghost use Rattle.table.specs.Changes.{changed_at};
ghost use Rattle.slot.specs.Places.{SlotInside, place_no};
ghost use Rattle.quote_slot.specs.QuoteSlots.{RowInside};
ghost use Rattle.table.specs.Tables.{base_in, sound, table_in};
ghost use Rattle.lookup.specs.Beside.{Beside};
ghost use Rattle.book.specs.Plans.{BooksSaid, RoomFor, after_plan, refigured, resummed};
ghost use Rattle.book.specs.Promises.{Books};
ghost use Rattle.lookup.specs.Lent.{SameLent};

use crate::{Plan, planning};
use layout::Record;
use line::Said;
use lookup::Day;
use order::{Figures, Order};
use quote::QuoteRow;
use refusal::Refusal;
use table::{damage, header};

// Any bytes for a table, any piece. On a refusal not one byte is changed.
pub fn book(t: &mut [u8], piece: &[u8]) -> Result<(), Refusal>
    ensures { Books t.old piece.now result t.new }
{
    if !damage::is_sound(t) {
        return Err(Refusal::Damaged);
    }
    // An index would cost more than the one or two scans of a single piece.
    let mut heads = [0u16; 0];
    let mut nexts = [0u16; 0];
    let mut day = Day {
        table: t,
        heads: &mut heads,
        nexts: &mut nexts,
    };
    book_sound(&mut day, piece, false)
}

// For a caller that holds the table sound by proof, and an index beside it or none: the same promise, and no damage check is paid.
pub fn book_sound(day: &mut Day<'_>, piece: &[u8], plain: bool) -> Result<(), Refusal>
    requires { plain ≡ true → printable piece.now ≡ true }
    ensures books { Books day.old.table.now piece.now result day.new.table.now }
    ensures same { SameLent day.old day.new }
{
    // Looked up before the line is read: the processor then does both at once.
    let own = planning::own(day, piece);
    match line::read_in(piece, plain)? {
        Said::EndOfDay => book_end(day.table),
        Said::Line(r) => {
            let plan = planning::plan(day, own, r)?;
            carry_out(day.table, day.heads, day.nexts, plan, r);
            Ok(())
        }
    }
}

#[tactic(auto, using(table::proofs::Sound::header_there))]
fn book_end(t: &mut [u8]) -> Result<(), Refusal>
    requires { sound t.old ≡ true }
    ensures { BooksSaid t.old end_of_day result t.new }
{
    if header::is_over(t) {
        return Err(Refusal::DayOver);
    }
    header::put_over(t);
    Ok(())
}

#[tactic(auto, using(crate::proofs::Booked::kept_beside))]
fn carry_out(t: &mut [u8], heads: &mut [u16], nexts: &mut [u16], plan: Plan, r: Record)
    requires room_for { RoomFor plan t.old }
    requires beside { Beside t.old heads.old nexts.old }
    requires t_value { sound t.old ≡ true }
    ensures t_after { t.new ≡ after_plan plan r t.old }
    ensures beside_2 { Beside t.new heads.new nexts.new }
{
    match plan {
        Plan::New => lookup::append(t, heads, nexts, new_order(r, r.contracts, 0)),
        Plan::Change(i, f) => refigure(t, i, f),
        Plan::Price(i, p) => reprice(t, i, p),
        Plan::Replace(i, f) => {
            refigure(t, i, f);
            lookup::append(t, heads, nexts, new_order(r, r.contracts, i as u64 + 1));
        }
        Plan::NewRow => table::append_row(t, QuoteRow::first(quote::quote_of(r), r.contracts)),
        Plan::Sums(i, executed, broken) => resum(t, i, executed, broken),
    }
}

// The order that a line makes, with the size that the line is granted.
fn new_order(r: Record, size: u64, elder: u64) -> Order
    ensures { result ≡ new_order r size elder }
{
    Order {
        key: order::key_of(r),
        side: r.side,
        series: order::series_of(r),
        price: r.price,
        elder,
        figures: Figures::fresh(size),
    }
}

fn refigure(t: &mut [u8], i: usize, f: Figures)
    requires { SlotInside i t.old }
    ensures { t.new ≡ refigured i f t.old }
{
    slot::store_figures(t, i, f);
}

fn reprice(t: &mut [u8], i: usize, p: u64)
    requires { SlotInside i t.old }
    ensures { t.new ≡ changed_at i (with_price p) t.old }
{
    slot::store_price(t, i, p);
}

// The quote stays as the row has it.
fn resum(t: &mut [u8], i: usize, executed: u64, broken: u64)
    requires { RowInside (base_in t.old) i t.old }
    ensures { t.new ≡ resummed i executed broken t.old }
{
    let row = QuoteRow {
        executed,
        broken,
        ..table::row_at(t, i)
    };
    table::store_row(t, i, row);
}
