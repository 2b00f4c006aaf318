// The earliest record with a key, by an index beside the records: for each bucket the latest of its records, and for each record the one before it in its bucket.
// A lookup walks its chain if that is short, and scans if not: keys that all fall into one bucket cost the scan, and a few links to find that out.
#![tactic(auto)]

mod building;
mod chain;
mod differing;
mod entry;
mod scanning;
mod tag;

pub use building::build;
pub use chain::Index;
pub use entry::{append, enter};
pub use scanning::scan;
pub use tag::bucket;

// The buckets of an index of 512 keys, four for a key: by a number known here a bucket is found without a division.
pub const USUAL: usize = 2048;
