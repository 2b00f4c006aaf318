// Reading a piece; the value and the form of a strike; the time of day.
#![tactic(auto)]

mod fields;
mod strikes;
mod times;

pub use fields::{read, read_in};
use layout::Record;
pub use strikes::{strike_form, strike_value};
pub use times::clock;

// What a piece says that is not refused.
#[derive(Clone, Copy)]
pub enum Said {
    EndOfDay,
    Line(Record),
}
