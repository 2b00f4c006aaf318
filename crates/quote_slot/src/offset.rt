// Where the fields of a row begin (docs/LAYOUT.md) that stand behind its quote.
pub const EXECUTED: usize = 41;

pub const BROKEN: usize = 45;
