// Where each field of a slot begins (docs/LAYOUT.md), behind the Source; from the rest on all bytes must be 0.
pub const TOKEN: usize = 6;

pub const SIDE: usize = 26;

pub const ROOT: usize = 27;

pub const MONTH: usize = 33;

pub const DATE: usize = 34;

pub const YEAR: usize = 35;

pub const DENOMINATOR: usize = 36;

pub const STRIKE: usize = 37;

pub const PRICE: usize = 41;

pub const ELDER: usize = 49;

pub const SIZE: usize = 51;

pub const EXECUTED: usize = 55;

pub const BROKEN: usize = 59;

pub const CANCELLED: usize = 63;

pub const PASSED: usize = 67;

pub const OPEN: usize = 71;

pub const REST: usize = 75;
