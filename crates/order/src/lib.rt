// An order and its figures, by value.
#![tactic(auto)]

ghost use Rattle.std.specs.Prelude.{◌≤◌, ◌-◌, ◌≡◌};
ghost use Rattle.order.specs.Figure.{Sound, fresh_by, executed_by, broken_by, cancelled_by, passed_on};
ghost use Rattle.order.specs.Names.{key_of, elder_key_of, series_of};

mod sound;

use layout::Record;
pub use sound::{lawful_series, sound_order};

// The six Source bytes and the twenty Token bytes.
#[derive(Clone, Copy, PartialEq, Eq)]
pub struct Key {
    pub source: [u8; 6],
    pub token: [u8; 20],
}

// Fields 16 to 21 of a line.
#[derive(Clone, Copy, PartialEq, Eq)]
pub struct Series {
    pub root: [u8; 6],
    pub month: u8,
    pub date: u64,
    pub year: u64,
    pub denominator: u8,
    pub strike: u64,
}

// Where the contracts of an order went. The figures of a damaged table need not be sound, so the type says nothing of it.
#[derive(Clone, Copy, Default)]
pub struct Figures {
    pub size: u64,
    pub executed: u64,
    pub broken: u64,
    pub cancelled: u64,
    pub passed: u64,
    pub open: u64,
}

#[derive(Clone, Copy)]
pub struct Order {
    pub key: Key,
    pub side: u8,
    pub series: Series,
    pub price: u64,
    // One more than the elder's place, or 0: the number that a table and a saved day hold.
    pub elder: u64,
    pub figures: Figures,
}

impl Figures {
    // A new order: all of it is open.
    pub fn fresh(n: u64) -> Self
        ensures { result ≡ fresh_by n }
    {
        Figures {
            size: n,
            open: n,
            ..Figures::default()
        }
    }

    pub fn execute(self, n: u64) -> Self
        requires sound { Sound self }
        requires n_bound { n ≤ self.«open» }
        ensures { result ≡ executed_by self n }
    {
        Figures {
            executed: self.executed + n,
            open: self.open - n,
            ..self
        }
    }

    // Executed stays, and nothing returns to open.
    pub fn mark_broken(self, n: u64) -> Self
        requires sound { Sound self }
        requires n_bound { n ≤ self.executed - self.broken }
        ensures { result ≡ broken_by self n }
    {
        Figures {
            broken: self.broken + n,
            ..self
        }
    }

    pub fn cancel(self, n: u64) -> Self
        requires sound { Sound self }
        requires n_bound { n ≤ self.«open» }
        ensures { result ≡ cancelled_by self n }
    {
        Figures {
            cancelled: self.cancelled + n,
            open: self.open - n,
            ..self
        }
    }

    // All that is open goes to the younger order.
    pub fn pass_on(self) -> Self
        requires { Sound self }
        ensures { result ≡ passed_on self }
    {
        Figures {
            passed: self.passed + self.open,
            open: 0,
            ..self
        }
    }
}

// The key of the order that a line names; of an A or U, the new one.
pub fn key_of(r: Record) -> Key
    ensures { result ≡ key_of r }
{
    let Record { source, token, .. } = r;
    Key { source, token }
}

// The key of the order that a U replaces: the same Source, and the Replaced Token.
pub fn elder_key_of(r: Record) -> Key
    ensures { result ≡ elder_key_of r }
{
    let Record {
        source,
        replaced,
        ..
    } = r;
    Key {
        source,
        token: replaced,
    }
}

pub fn series_of(r: Record) -> Series
    ensures { result ≡ series_of r }
{
    let Record {
        root,
        month,
        date,
        year,
        denominator,
        strike,
        ..
    } = r;
    Series {
        root,
        month,
        date,
        year,
        denominator,
        strike,
    }
}
