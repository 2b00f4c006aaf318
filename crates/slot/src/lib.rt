// An order at a slot of the lent table (docs/LAYOUT.md), and the earliest order with a key.
#![tactic(auto)]

mod finding;
pub mod offset;
mod read;
mod write;

pub use finding::{find, find_indexed, keys};
use order::{Figures, Series};
pub use read::{asked_at, elder_at, figures_in, key_in, order_at, series_in, slots};
pub use write::{put_key, put_series, store, store_figures, store_price};

// What stands before the first slot, a slot, and the key at the beginning of one: its Source, then its Token.
pub const HEADER: usize = 8;

pub const SLOT: usize = 80;

pub const KEY: usize = 26;

// Of an order, what the conditions and the figures of a line about it ask.
#[derive(Clone, Copy)]
pub struct Asked {
    pub side: u8,
    pub series: Series,
    pub figures: Figures,
}
