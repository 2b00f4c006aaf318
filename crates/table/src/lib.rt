// The lent table: its header, the empty table, one order more, its quote rows, the damage check, and what a host asks of it.
#![tactic(auto)]

mod asked;
pub mod damage;
pub mod elders;
mod empty;
mod flags;
pub mod header;
mod orders;
mod rows;

pub use asked::{copy_order, copy_row, look_up};
pub use empty::make_empty;
pub use orders::append;
pub use rows::{append_row, find_row, row_at, store_row};

// The most orders that a table holds, and its bytes. `header::limit` says which lengths have a meaning.
pub const LIMIT: u64 = 512;

pub const TABLE: usize = slot::HEADER
    + slot::SLOT * LIMIT as usize
    + quote_slot::ROW * quote::MOST_ROWS;
