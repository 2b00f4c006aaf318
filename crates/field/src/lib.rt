// One field of fixed width: its readers and its writers. Nothing here knows where a field stands in a line.
#![tactic(auto)]

pub mod digits;
pub mod put;
pub mod verbatim;

// What a byte may be.
#[derive(Clone, Copy)]
pub enum Class {
    Printable,
    Space,
    Digit,
    Hex,
}
