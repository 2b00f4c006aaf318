// Checking a record, and writing it as its line.
#![tactic(auto)]

mod lawful;
mod output;

pub use lawful::check;
pub use output::write;
