// The plan for a line whose key is in no order (02, 1): an E or C of a quote is about its row, any other line is refused by 8. No byte is changed here.
ghost use Rattle.std.specs.Prelude.{◌≤◌, ◌≡◌, true, ◌&&◌};
ghost use Rattle.layout.specs.Demand2.{LawfulRecord};
ghost use Rattle.quote.specs.Quotes.{most_executed, names_quote};
ghost use Rattle.day.specs.Machine.{find, nobody, none, seen};
ghost use Rattle.day.specs.Quotes.{is_fill};
ghost use Rattle.day.specs.Refusals.{subject};
ghost use Rattle.table.specs.Tables.{sound, table_in};
ghost use Rattle.book.specs.Plans.{Older, Plans, plan_row};

use crate::{Plan, conditions};
use layout::Record;
use quote::{MOST_EXECUTED, QuoteRow};
use refusal::Refusal;
use table::header;

// Whether it is an E or C whose token names a quote.
fn is_of_quote(r: Record) -> bool
    ensures { result ≡ (is_fill r.event && names_quote r.token) }
{
    conditions::is_fill(r.event) & quote::names_quote(&r.token)
}

#[tactic(auto, using(table::proofs::Sound::header_there))]
pub fn plan_fill(t: &[u8], r: Record) -> Result<Plan, Refusal>
    requires t_value { sound t.now ≡ true }
    requires lawful_record { LawfulRecord r }
    requires older { Older t.now r }
    requires absent { find (subject r) (table_in t.now).orders ≡ nobody }
    ensures { Plans t.now r result }
{
    if !is_of_quote(r) {
        return Err(Refusal::UnknownKey);
    }
    let Some(i) = table::find_row(t, quote::quote_of(r)) else {
        return plan_first(header::row_count(t), r);
    };
    plan_row(i, table::row_at(t, i), r)
}

// Of a line whose quote has no row yet: the first E makes it, where there are not all already.
fn plan_first(n: usize, r: Record) -> Result<Plan, Refusal>
    ensures { result ≡ plan_row n 0 none r }
{
    if !conditions::is_execution(r.event) {
        return Err(Refusal::UnknownKey);
    }
    if quote::most_rows() <= n {
        return Err(Refusal::RowFull);
    }
    Ok(Plan::NewRow)
}

// Of a line about the quote row w at place i. What is left of the greatest executed is asked, so that there is no sum to grow.
fn plan_row(i: usize, w: QuoteRow, r: Record) -> Result<Plan, Refusal>
    requires executed_le_most_executed { w.executed ≤ most_executed }
    requires broken_le_executed { w.broken ≤ w.executed }
    requires event_value { is_fill r.event ≡ true }
    ensures { result ≡ plan_row 0 i (seen w) r }
{
    let n = r.contracts;
    if conditions::is_execution(r.event) {
        if MOST_EXECUTED - w.executed < n {
            return Err(Refusal::RowFull);
        }
        return Ok(Plan::Sums(i, w.executed + n, w.broken));
    }
    if w.executed - w.broken < n {
        return Err(Refusal::NotExecuted);
    }
    Ok(Plan::Sums(i, w.executed, w.broken + n))
}
