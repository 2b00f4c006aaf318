// The row of a quote, and whether two rows have one.
ghost use Rattle.std.specs.Prelude.{◌≤◌, ◌≡◌, length};
ghost use Rattle.quote.specs.Rows.{row_place, unlike as rows_unlike};
ghost use Rattle.slot.specs.Places.{place_no};
ghost use Rattle.quote_slot.specs.QuoteSlots.{row_at, row_quotes, rows_in, FitsQuote};

use crate::write::put_quote;
use crate::{QUOTE, ROW};
use index::Index;
use quote::Quote;
use section::Section;

// An index of the most rows that a table has, four buckets a row.
const HEADS: usize = 512;

const NEXTS: usize = 128;

fn quotes(base: usize) -> Section
    ensures { result ≡ row_quotes base }
{
    Section {
        first: base,
        step: ROW,
        width: QUOTE,
    }
}

// The row of a quote among the first n.
pub fn find(t: &[u8], base: usize, n: usize, q: Quote) -> Option<usize>
    requires n_in_bounds { row_at base n ≤ length t.now }
    requires fits_quote { FitsQuote q }
    ensures { place_no result ≡ row_place q (rows_in base n t.now) }
{
    let mut sought = [0u8; QUOTE];
    put_quote(&mut sought, 0, q);
    index::scan(t, quotes(base), n, &sought)
}

// Whether no two of the first n rows have one quote. By an index of them: pair by pair it would cost the square of n.
pub fn unlike(t: &[u8], base: usize, n: usize) -> bool
    requires n_in_bounds { row_at base n ≤ length t.now }
    requires n_bound { n ≤ 128 }
    ensures { result ≡ rows_unlike (rows_in base n t.now) }
{
    let keys = quotes(base);
    let mut heads = [0u16; HEADS];
    let mut nexts = [0u16; NEXTS];
    index::build(t, keys, n, &mut heads, &mut nexts);
    let index = Index {
        t,
        keys,
        n,
        heads: &heads,
        nexts: &nexts,
    };
    index.distinct()
}
