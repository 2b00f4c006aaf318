// A row read from its 49 bytes, by value.
ghost use Rattle.std.specs.Prelude.{◌≡◌, length};
ghost use Rattle.section.specs.Sections.{record_of};
ghost use Rattle.quote_slot.specs.QuoteSlots.{quote_in, row_in, row_width, rows as rows_section, RowInside};

use crate::{ROW, offset};
use quote::{Quote, QuoteRow};
use section::Section;

// The rows of a table, the first of them at base.
pub fn rows(base: usize) -> Section
    ensures { result ≡ rows_section base }
{
    Section {
        first: base,
        step: ROW,
        width: ROW,
    }
}

// b is the 49 bytes of a row.
fn quote_in(b: &[u8]) -> Quote
    requires { length b.now ≡ row_width }
    ensures { result ≡ quote_in b.now }
{
    Quote {
        key: slot::key_in(b),
        side: b[slot::offset::SIDE],
        series: slot::series_in(b),
    }
}

fn row_in(b: &[u8]) -> QuoteRow
    requires { length b.now ≡ row_width }
    ensures { result ≡ row_in b.now }
{
    QuoteRow {
        quote: quote_in(b),
        executed: cell::get(b, offset::EXECUTED, 4),
        broken: cell::get(b, offset::BROKEN, 4),
    }
}

pub fn row_at(t: &[u8], base: usize, i: usize) -> QuoteRow
    requires { RowInside base i t.now }
    ensures { result ≡ row_in (record_of (rows_section base) t.now i) }
{
    row_in(section::record(t, rows(base), i))
}
