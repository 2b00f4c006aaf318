// One record more in the index.
ghost use Rattle.std.specs.Prelude.{◌≡◌, ◌+◌, ◌<◌, length, slice_index, slice_set};
ghost use Rattle.index.specs.Indexes.{Indexed, Enters, Entered, Appends, Appended};

use crate::tag;
use section::Section;

// Record n becomes the latest of bucket b.
fn link(heads: &mut [u16], nexts: &mut [u16], n: usize, b: usize)
    requires b_in_bounds { b < length heads.old }
    requires n_in_bounds { n < length nexts.old }
    requires n_bound { n < 65535 }
    ensures heads_after { heads.new ≡ slice_set heads.old b (n + 1) }
    ensures nexts_after { nexts.new ≡ slice_set nexts.old n (slice_index heads.old b) }
{
    nexts[n] = heads[b];
    heads[b] = (n + 1) as u16;
}

// Record n is entered by its key, at the same cost whatever the keys of the others are.
pub fn enter(t: &[u8], keys: Section, n: usize, heads: &mut [u16], nexts: &mut [u16])
    requires indexed { Indexed keys t.now n heads.old nexts.old }
    requires enters { Enters keys t.now n nexts.old }
    ensures { Entered keys t.now n heads.old nexts.old heads.new nexts.new }
{
    let b = tag::bucket(section::record(t, keys, n), heads.len());
    link(heads, nexts, n, b);
}

// Record n is stored, and entered by its key.
pub fn append(
    t: &mut [u8],
    records: Section,
    keys: Section,
    n: usize,
    bytes: &[u8],
    heads: &mut [u16],
    nexts: &mut [u16],
)
    requires indexed { Indexed keys t.old n heads.old nexts.old }
    requires appends { Appends records keys t.old n bytes.now nexts.old }
    ensures { Appended records keys t.old n bytes.now heads.old nexts.old t.new heads.new nexts.new }
{
    section::store(t, records, n, bytes);
    enter(t, keys, n, heads, nexts);
}
