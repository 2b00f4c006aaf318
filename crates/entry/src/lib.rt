// An order and a quote row at a place of a saved day (02, 2): read and written by value.
#![tactic(auto)]

mod read;
mod write;

pub use read::{order_at, row_at};
pub use write::{put_order, put_row};

// The bytes of a head but for its token, and the characters of a key's token. An id has fewer (quote::ID).
const HEAD: usize = 25;

const TOKEN: usize = 20;

// The numbers of an order and of a quote row.
const ORDER_NUMBERS: usize = 7;

const ROW_NUMBERS: usize = 2;

// The most bytes of a saved order and of a saved quote row, by their types.
pub const ORDER: usize = 115;

pub const ROW: usize = 61;
