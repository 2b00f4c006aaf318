// The orders of a lent table by key, and one order more. A lookup goes by the index of the keys where one stands beside the table, else by a scan.
#![tactic(auto)]

ghost use Rattle.std.specs.Prelude.{◌*◌, ◌≤◌, ◌<◌, ◌≡◌, true, length};
ghost use Rattle.day.specs.Machine.{place};
ghost use Rattle.slot.specs.Places.{place_no};
ghost use Rattle.slot.specs.Slots.{key_in};
ghost use Rattle.table.specs.Changes.{appended};
ghost use Rattle.table.specs.Tables.{count_in, limit_of, sound, table_in};
ghost use Rattle.lookup.specs.Beside.{Beside, Bucket};

use order::{Key, Order};
use slot::KEY;
use table::header;

// Four buckets an order, so that few orders share one.
pub const HEADS: usize = index::USUAL;

pub const NEXTS: usize = table::LIMIT as usize;

// A day's lent table, sound, and beside it the index of its keys; without heads there is none.
#[derive(Drop)]
pub struct Day<'a> {
    pub table: &'a mut [u8],
    pub heads: &'a mut [u16],
    pub nexts: &'a mut [u16],
    pub ghost sound: { sound table.now ≡ true },
    pub ghost beside: { Beside table.now heads.now nexts.now },
}

impl Day<'_> {
    // The bucket of a key in the index, where there is one.
    pub fn bucket(&self, key: &[u8]) -> usize
        requires { length key.now ≡ 26 }
        ensures { Bucket self.now.heads.now key.now result }
    {
        bucket(self.heads, key)
    }

    // The earliest order with a key, its Source and then its Token, b being its bucket.
    pub fn find(&self, b: usize, key: &[u8]) -> Option<usize>
        requires key_len { length key.now ≡ 26 }
        requires bucket { Bucket self.now.heads.now key.now b }
        ensures { place_no result ≡ place (key_in key.now) (table_in self.now.table.now).orders }
    {
        find(self.table, self.heads, self.nexts, b, key)
    }

    // The same, for a caller that has a Key.
    pub fn find_key(&self, k: Key) -> Option<usize>
        ensures { place_no result ≡ place k (table_in self.now.table.now).orders }
    {
        find_key(self.table, self.heads, self.nexts, k)
    }
}

// The four that follow are for who has the slices themselves: a Day lends each as `&mut`.

// The bucket of a key is worked out apart from the lookup: the compiler would else make the key anew, for the comparisons, of the words that the tag was made of.
pub fn bucket(heads: &[u16], key: &[u8]) -> usize
    requires { length key.now ≡ 26 }
    ensures { Bucket heads.now key.now result }
{
    if heads.is_empty() {
        return 0;
    }
    index::bucket(&key[0..KEY], heads.len())
}

pub fn find(t: &[u8], heads: &[u16], nexts: &[u16], b: usize, key: &[u8]) -> Option<usize>
    requires t_value { sound t.now ≡ true }
    requires beside { Beside t.now heads.now nexts.now }
    requires key_len { length key.now ≡ 26 }
    requires bucket { Bucket heads.now key.now b }
    ensures { place_no result ≡ place (key_in key.now) (table_in t.now).orders }
{
    let n = header::count(t) as usize;
    if heads.is_empty() {
        return slot::find(t, n, key);
    }
    slot::find_indexed(t, n, heads, nexts, b, key)
}

pub fn find_key(t: &[u8], heads: &[u16], nexts: &[u16], k: Key) -> Option<usize>
    requires t_value { sound t.now ≡ true }
    requires beside { Beside t.now heads.now nexts.now }
    ensures { place_no result ≡ place k (table_in t.now).orders }
{
    let mut key = [0u8; KEY];
    slot::put_key(&mut key, 0, k);
    let b = bucket(heads, &key);
    find(t, heads, nexts, b, &key)
}

// The index of a table's orders, whatever the scratch held.
pub fn build(t: &[u8], heads: &mut [u16], nexts: &mut [u16])
    requires t_value { sound t.now ≡ true }
    requires in_bounds { 1 ≤ length heads.old }
    requires t_in_bounds { limit_of (length t.now) ≤ length nexts.old }
    ensures { Beside t.now heads.new nexts.new }
{
    index::build(t, slot::keys(), header::count(t) as usize, heads, nexts);
}

// One order more, entered in the index where there is one. Between the two stores it is no Day.
pub fn append(t: &mut [u8], heads: &mut [u16], nexts: &mut [u16], o: Order)
    requires room { count_in t.old < limit_of (length t.old) }
    requires beside { Beside t.old heads.old nexts.old }
    ensures table { t.new ≡ appended o t.old }
    ensures beside { Beside t.new heads.new nexts.new }
{
    let n = header::count(t) as usize;
    table::append(t, o);
    if heads.is_empty() {
        return;
    }
    index::enter(t, slot::keys(), n, heads, nexts);
}

// A sound table with the index of its orders, in the very slices that were lent.
pub fn indexed<'a>(table: &'a mut [u8], heads: &'a mut [u16], nexts: &'a mut [u16]) -> Day<'a>
    requires sound { sound table.old ≡ true }
    requires some { 1 ≤ length heads.old }
    requires room { limit_of (length table.old) ≤ length nexts.old }
    ensures same { (result.table.ghost_name ≡ table.entry.ghost_name) × (result.heads.ghost_name ≡ heads.entry.ghost_name) × (result.nexts.ghost_name ≡ nexts.entry.ghost_name) }
    ensures table { result.table.now ≡ table.old }
{
    build(table, heads, nexts);
    Day {
        table,
        heads,
        nexts,
    }
}
