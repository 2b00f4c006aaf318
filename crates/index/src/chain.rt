// Lookup by key.
ghost use Rattle.std.specs.Prelude.{◌≡◌, length};
ghost use Rattle.index.specs.Searches.{earliest, place_no};
ghost use Rattle.index.specs.Tags.{bucket_of};
ghost use Rattle.index.specs.Indexes.{Indexed, Falls};

use crate::{scanning, tag};
use section::Section;

// The first n records of lent bytes, and the index of their keys.
#[derive(Clone, Copy)]
pub struct Index<'a> {
    pub t: &'a [u8],
    pub keys: Section,
    pub n: usize,
    pub heads: &'a [u16],
    pub nexts: &'a [u16],
    pub ghost indexed: { Indexed keys t.now n heads.now nexts.now },
}

// The longest chain that is walked. By a good tag hardly one is longer; where bad luck or malice made it so, a scan is the cheaper way to the earliest.
const LINKS: usize = 3;

// Whether a chain has more records than that. No record is looked at: what a long chain costs beside the scan is a few entries, and no comparison.
fn is_long(nexts: &[u16], first: usize) -> bool
    requires { Falls nexts.now first }
{
    let mut at = first;
    for _ in 0..LINKS {
        if at == 0 {
            return false;
        }
        at = nexts[at - 1] as usize;
    }
    0 < at
}

impl Index<'_> {
    // Down the chain of bucket b, the key's own. It goes from later records to earlier ones, so the last hit is the earliest.
    fn walk(&self, b: usize, key: &[u8]) -> Option<usize>
        requires key_len { length key.now ≡ self.now.keys.width }
        requires b_value { b ≡ bucket_of (length self.now.heads.now) key.now }
        ensures { place_no result ≡ earliest self.now.keys self.now.t.now self.now.n key.now }
    {
        let mut best = None;
        let mut at = self.heads[b] as usize;
        while 0 < at {
            let i = at - 1;
            if section::same(self.t, self.keys, i, key) {
                best = Some(i);
            }
            at = self.nexts[i] as usize;
        }
        best
    }

    // The earliest record with the key, by the key's bucket.
    pub fn find_in(&self, b: usize, key: &[u8]) -> Option<usize>
        requires key_len { length key.now ≡ self.now.keys.width }
        requires b_value { b ≡ bucket_of (length self.now.heads.now) key.now }
        ensures { place_no result ≡ earliest self.now.keys self.now.t.now self.now.n key.now }
    {
        if is_long(self.nexts, self.heads[b] as usize) {
            return scanning::scan(self.t, self.keys, self.n, key);
        }
        self.walk(b, key)
    }

    // The same, for a caller that does not know the bucket.
    pub fn find(&self, key: &[u8]) -> Option<usize>
        requires { length key.now ≡ self.now.keys.width }
        ensures { place_no result ≡ earliest self.now.keys self.now.t.now self.now.n key.now }
    {
        self.find_in(tag::bucket(key, self.heads.len()), key)
    }
}
