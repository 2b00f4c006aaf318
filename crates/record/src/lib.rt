// A record and its event: made of the bytes and numbers of a line, and asked for its type and its trade. Reading, writing and the bytes for hosts all use it.
#![tactic(auto)]

mod build;
mod event;

pub use build::record_of;
pub use event::{trade_of, type_of};
