// Booking a piece into a lent table: plan, then store.
#![tactic(auto)]

mod conditions;
mod fills;
mod planning;
mod store;

use order::Figures;
pub use store::{book, book_sound};

// What a line does to a table. Each line makes one, so it is small: what the record or a quote row says is taken from there.
#[derive(Clone, Copy)]
pub(crate) enum Plan {
    // One order more, of a line that has no elder.
    New,
    // The figures of the order at a place.
    Change(usize, Figures),
    // The price of the order at a place.
    Price(usize, u64),
    // The figures of the elder at a place, and one order more.
    Replace(usize, Figures),
    // One quote row more (02, 1).
    NewRow,
    // Executed and broken of the quote row at a place.
    Sums(usize, u64, u64),
}
