// What a line says, as code holds it. The written rules of a line stand in specs/, their laws in proofs/.
#![tactic(auto)]

mod rules;

pub use rules::{
    CAPACITIES, DENOMINATORS, FIELDS, FIRST_DATE, LAST_DATE, LAST_TIMESTAMP, LAST_YEAR,
    LEAST_CONTRACTS, LINE, MONTHS, MOST_CONTRACTS, MOST_ID, MOST_PRICE, MOST_STRIKE, POSITIONS,
    REPLACED, SIDES, SOURCE, TYPES, id, is_replace, is_trade, keep, lawful_strike, least_strike,
    liquidity, replaced, within,
};

// What only executions and breaks carry.
#[derive(Clone, Copy)]
pub struct Trade {
    pub liquidity: u8,
    pub match_id: u64,
    pub cross_id: u64,
}

#[derive(Clone, Copy)]
pub enum Event {
    // A
    Accepted,
    // E
    Executed(Trade),
    // X
    Cancelled,
    // C
    Broken(Trade),
    // U
    Replaced,
    // R
    Repriced,
}

// All 24 fields of a line. Numbers stand as numbers, everything else as its bytes.
#[derive(Clone, Copy)]
pub struct Record {
    pub timestamp: u64,
    pub event: Event,
    pub firm: [u8; 4],
    pub capacity: u8,
    pub position: u8,
    pub account: [u8; 4],
    pub member: [u8; 5],
    pub clearing: [u8; 5],
    pub source: [u8; 6],
    pub token: [u8; 20],
    pub replaced: [u8; 20],
    pub reference: [u8; 9],
    pub side: u8,
    pub contracts: u64,
    pub root: [u8; 6],
    pub month: u8,
    pub date: u64,
    pub year: u64,
    pub denominator: u8,
    pub strike: u64,
    pub price: u64,
}

// The numbers of a line, as far as its fields were read, the rest 0; or those of the bytes that a host gives.
#[derive(Clone, Copy, Default)]
pub struct Numbers {
    pub timestamp: u64,
    pub contracts: u64,
    pub date: u64,
    pub year: u64,
    pub strike: u64,
    pub price: u64,
    pub match_id: u64,
    pub cross_id: u64,
}

// A strike as a line has it.
#[derive(Clone, Copy)]
pub struct Strike {
    pub denominator: u8,
    pub digits: u64,
}

// A time of day.
#[derive(Clone, Copy)]
pub struct Clock {
    pub hours: u64,
    pub minutes: u64,
    pub seconds: u64,
    pub milliseconds: u64,
}
