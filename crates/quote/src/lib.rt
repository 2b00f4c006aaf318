// Quotes and the rows of their fills, by value (02, 1).
#![tactic(auto)]

ghost use Rattle.std.specs.Prelude.{◌≡◌};
ghost use Rattle.quote.specs.Quotes.{most_rows, new_row, quote_of};

mod sound;

use layout::Record;
use order::{Key, Series};
pub use sound::{names_quote, sound_row};

pub const MOST_ROWS: usize = 128;

// The characters of an id, at the front of the token.
pub const ID: usize = 16;

pub const MOST_EXECUTED: u64 = 4_294_967_295;

// A row stands for each of these. The token of the key holds the id, in its sixteen characters.
#[derive(Clone, Copy, PartialEq, Eq)]
pub struct Quote {
    pub key: Key,
    pub side: u8,
    pub series: Series,
}

#[derive(Clone, Copy)]
pub struct QuoteRow {
    pub quote: Quote,
    pub executed: u64,
    pub broken: u64,
}

// The constant by its definition, so that nothing else has to open it.
#[tactic(auto, unfolding(crate::specs::Quotes::most_rows))]
pub fn most_rows() -> usize
    ensures { result ≡ most_rows }
{
    MOST_ROWS
}

// The quote of an E or C that speaks of no order.
pub fn quote_of(r: Record) -> Quote
    ensures { result ≡ quote_of r }
{
    Quote {
        key: order::key_of(r),
        side: r.side,
        series: order::series_of(r),
    }
}

impl QuoteRow {
    // The first E of a quote makes its row.
    pub fn first(q: Quote, n: u64) -> Self
        ensures { result ≡ new_row q n }
    {
        QuoteRow {
            quote: q,
            executed: n,
            broken: 0,
        }
    }
}
