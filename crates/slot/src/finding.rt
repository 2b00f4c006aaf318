// Lookup by key: the earliest order that has it. A key is one run, its Source and then its Token, as a line and a slot have it.
ghost use Rattle.std.specs.Prelude.{◌≤◌, ◌≡◌, length};
ghost use Rattle.day.specs.Machine.{place};
ghost use Rattle.index.specs.Indexes.{Indexed};
ghost use Rattle.index.specs.Tags.{bucket_of};
ghost use Rattle.slot.specs.Slots.{key_in};
ghost use Rattle.slot.specs.Places.{slot_at, slot_keys, orders_in, place_no};

use crate::{HEADER, KEY, SLOT};
use index::Index;
use section::Section;

// The keys of a table's orders: what their index is built and kept over.
pub fn keys() -> Section
    ensures { result ≡ slot_keys }
{
    Section {
        first: HEADER,
        step: SLOT,
        width: KEY,
    }
}

// The earliest of the first n orders with the key.
pub fn find(t: &[u8], n: usize, key: &[u8]) -> Option<usize>
    requires n_in_bounds { slot_at n ≤ length t.now }
    requires key_len { length key.now ≡ 26 }
    ensures { place_no result ≡ place (key_in key.now) (orders_in 0 n t.now) }
{
    // A part whose length the compiler knows: it compares without a loop.
    index::scan(t, keys(), n, &key[0..KEY])
}

// The same by an index of the keys, b being the key's bucket.
pub fn find_indexed(
    t: &[u8],
    n: usize,
    heads: &[u16],
    nexts: &[u16],
    b: usize,
    key: &[u8],
) -> Option<usize>
    requires indexed { Indexed slot_keys t.now n heads.now nexts.now }
    requires key_len { length key.now ≡ 26 }
    requires b_value { b ≡ bucket_of (length heads.now) key.now }
    ensures { place_no result ≡ place (key_in key.now) (orders_in 0 n t.now) }
{
    let index = Index {
        t,
        keys: keys(),
        n,
        heads,
        nexts,
    };
    // A part whose length the compiler knows, as above.
    index.find_in(b, &key[0..KEY])
}
