// The quote rows of a lent table (02, 1). They stand behind its slots.
ghost use Rattle.std.specs.Prelude.{◌<◌, ◌≡◌, true};
ghost use Rattle.std.proofs.lemmas.List.Edits.{sets};
ghost use Rattle.quote.specs.Rows.{row_place};
ghost use Rattle.slot.specs.Places.{place_no};
ghost use Rattle.quote_slot.specs.QuoteSlots.{FitsQuote, RowInside, row_at, row_bytes, row_in};
ghost use Rattle.table.specs.Changes.{row_appended, row_of};
ghost use Rattle.table.specs.Tables.{base_in, row_count_in, sound, table_in};

use crate::header;
use quote::{Quote, QuoteRow};

pub fn row_at(t: &[u8], i: usize) -> QuoteRow
    requires { RowInside (base_in t.now) i t.now }
    ensures { result ≡ row_in (row_of t.now i) }
{
    quote_slot::row_at(t, header::base(t.len()), i)
}

// The row of a quote. 128 rows are few enough to look through.
pub fn find_row(t: &[u8], q: Quote) -> Option<usize>
    requires t_value { sound t.now ≡ true }
    requires fits_quote { FitsQuote q }
    ensures { place_no result ≡ row_place q (table_in t.now).quotes }
{
    quote_slot::find(t, header::base(t.len()), header::row_count(t), q)
}

pub fn store_row(t: &mut [u8], i: usize, w: QuoteRow)
    requires { RowInside (base_in t.old) i t.old }
    ensures { t.new ≡ sets t.old (row_at (base_in t.old) i) (row_bytes w) }
{
    let base = header::base(t.len());
    quote_slot::store(t, base, i, w);
}

// It is stored before the count says that it is there.
pub fn append_row(t: &mut [u8], w: QuoteRow)
    requires row_inside { RowInside (base_in t.old) (row_count_in t.old) t.old }
    requires t_bound { row_count_in t.old < 255 }
    ensures { t.new ≡ row_appended w t.old }
{
    let n = header::row_count(t);
    store_row(t, n, w);
    header::put_row_count(t, (n + 1) as u8);
}
