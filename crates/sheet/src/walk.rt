// The walk over the orders of a table: down a family to its youngest order, then over to the next family.
ghost use Rattle.std.specs.Prelude.{◌+◌, ◌≤◌, ◌≡◌, length, drop};
ghost use Rattle.day.specs.Walk.{families, root_count};
ghost use Rattle.slot.specs.Places.{slot_at};
ghost use Rattle.sheet.specs.Walk.{Stands, StandsOrEnds, elders_in, families_from, found_before, members_behind, members_left, seek};

use crate::Turn;
use crate::kin::Orders;

// How many of n orders have no elder.
pub fn count_roots(t: &[u8], n: usize) -> u64
    requires { slot_at n ≤ length t.now }
    ensures { result ≡ root_count (elders_in n t.now) }
{
    let mut roots = 0;
    for i in 0..n {
        if slot::elder_at(t, i) == 0 {
            roots += 1;
        }
    }
    roots
}

impl Orders<'_> {
    // The first order from a place on that has no elder.
    fn root_from(&self, from: usize) -> Option<usize>
        requires { from ≤ self.now.n }
        ensures { result ≡ found_before self.now.n (seek 0 from (drop from (elders_in self.now.n self.now.t.now))) }
    {
        for i in from..self.n {
            if slot::elder_at(self.t, i) == 0 {
                return Some(i);
            }
        }
        None
    }

    // The first row of the families from a place on, the first of them numbered so.
    pub fn family_from(&self, from: usize, family: u64) -> Option<Turn>
        requires from_le_n { from ≤ self.now.n }
        requires family_bound { family ≤ from + 1 }
        ensures result_value { members_left (elders_in self.now.n self.now.t.now) result ≡ families_from (elders_in self.now.n self.now.t.now) from family }
        ensures stands_or_ends { StandsOrEnds self.now.n result }
    {
        let root = self.root_from(from)?;
        Some(Turn {
            root,
            place: root,
            family,
            rank: 1,
        })
    }

    // Where the walk starts: at the first order that has no elder.
    pub fn start(&self) -> Option<Turn>
        ensures result_value { members_left (elders_in self.now.n self.now.t.now) result ≡ families 1 0 (elders_in self.now.n self.now.t.now) }
        ensures stands_or_ends { StandsOrEnds self.now.n result }
    {
        self.family_from(0, 1)
    }

    // The turn behind a row.
    pub fn next(&self, x: Turn) -> Option<Turn>
        requires { Stands self.now.n x }
        ensures result_value { members_left (elders_in self.now.n self.now.t.now) result ≡ members_behind (elders_in self.now.n self.now.t.now) x }
        ensures stands_or_ends { StandsOrEnds self.now.n result }
    {
        match self.younger(x.place) {
            Some(place) => Some(x.below(place)),
            None => self.family_from(x.root + 1, x.family + 1),
        }
    }

    // The turn behind so many rows.
    pub fn skip(&self, count: usize) -> Option<Turn>
        ensures result_value { members_left (elders_in self.now.n self.now.t.now) result ≡ drop count (families 1 0 (elders_in self.now.n self.now.t.now)) }
        ensures stands_or_ends { StandsOrEnds self.now.n result }
    {
        let mut x = self.start()?;
        for _ in 0..count {
            x = self.next(x)?;
        }
        Some(x)
    }
}
