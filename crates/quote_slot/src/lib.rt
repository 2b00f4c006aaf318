// A quote row at its place in lent bytes (docs/LAYOUT.md), and the row of a quote. Where the first row begins is the caller's to say.
#![tactic(auto)]

mod finding;
pub mod offset;
mod read;
mod write;

pub use finding::{find, unlike};
pub use read::{row_at, rows};
pub use write::store;

// A row, and the quote at its beginning, laid out as the beginning of a slot.
pub const ROW: usize = 49;

pub const QUOTE: usize = 41;
