// A row written to its place.
ghost use Rattle.std.specs.Prelude.{◌+◌, ◌≤◌, ◌≡◌, length};
ghost use Rattle.std.proofs.lemmas.List.Edits.{sets};
ghost use Rattle.quote_slot.specs.QuoteSlots.{quote_bytes, quote_width, row_at, row_bytes, RowInside};

use crate::{ROW, offset};
use quote::{Quote, QuoteRow};

// A quote, at the front of a row.
pub(crate) fn put_quote(t: &mut [u8], at: usize, q: Quote)
    requires { at + quote_width ≤ length t.old }
    ensures { t.new ≡ sets t.old at (quote_bytes q) }
{
    slot::put_key(t, at, q.key);
    run::byte(t, at + slot::offset::SIDE, q.side);
    slot::put_series(t, at, q.series);
}

pub fn store(t: &mut [u8], base: usize, i: usize, w: QuoteRow)
    requires { RowInside base i t.old }
    ensures { t.new ≡ sets t.old (row_at base i) (row_bytes w) }
{
    let at = base + ROW * i;
    put_quote(t, at, w.quote);
    cell::put(t, at + offset::EXECUTED, 4, w.executed);
    cell::put(t, at + offset::BROKEN, 4, w.broken);
}
