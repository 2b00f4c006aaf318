// The index of records that are there, whatever the scratch held.
ghost use Rattle.index.specs.Indexes.{Builds, Built};

use crate::entry;
use section::Section;

// The index of the first n records. Each is entered at the same cost, so keys that all fall into one bucket take no longer.
pub fn build(t: &[u8], keys: Section, n: usize, heads: &mut [u16], nexts: &mut [u16])
    requires { Builds keys t.now n heads.old nexts.old }
    ensures { Built keys t.now n heads.old nexts.old heads.new nexts.new }
{
    // No bucket has a record.
    heads.fill(0);
    for i in 0..n {
        entry::enter(t, keys, i, heads, nexts);
    }
}
