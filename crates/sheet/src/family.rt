// The rows, a stretch at a time: the member step goes down a family to its youngest order, the family step over to the next family. They call each
// other, and the orders not yet listed fall at each row. A stretch has no more than so many rows, so that the steps go no deeper than that.
ghost use Rattle.std.specs.Prelude.{◌+◌, ◌≤◌, length};
ghost use Rattle.sheet.specs.Walk.{Stands, StandsOrEnds, Went, elders_in, families_from, members_from, stretch_text, text_left};
ghost use Rattle.row.specs.Writes.{Wrote};

use crate::kin::Orders;
use crate::{Stretch, Turn};

// How many rows deep the steps go.
const STRETCH: usize = 32;

// The row where the walk stands, and those behind it, until there are so many. What is left of the buffer is lent on.
#[cycle(family_step_member_step)]
fn member_step(orders: &Orders<'_>, x: Turn, most: usize, out: &mut [u8]) -> Stretch
    requires stands { Stands orders.now.n x }
    requires x_in_bounds { length (stretch_text orders.now.n orders.now.t.now most (members_from (elders_in orders.now.n orders.now.t.now) x)) ≤ length out.old }
    ensures { Went orders.now.n orders.now.t.now (members_from (elders_in orders.now.n orders.now.t.now) x) most out.old out.new result }
{
    if most == 0 {
        return Stretch {
            wrote: 0,
            next: Some(x),
        };
    }
    let wrote = row::write(orders.t, x.place, x.family, x.rank, out);
    let rest = match orders.younger(x.place) {
        Some(place) => member_step(orders, x.below(place), most - 1, &mut out[wrote..]),
        None => family_step(
            orders,
            x.root + 1,
            x.family + 1,
            most - 1,
            &mut out[wrote..],
        ),
    };
    Stretch {
        wrote: wrote + rest.wrote,
        next: rest.next,
    }
}

// The families from a place on, the first of them numbered so.
#[cycle(family_step_member_step)]
fn family_step(
    orders: &Orders<'_>,
    from: usize,
    family: u64,
    most: usize,
    out: &mut [u8],
) -> Stretch
    requires from_le_n { from ≤ orders.now.n }
    requires family_bound { family ≤ from + 1 }
    requires family_in_bounds { length (stretch_text orders.now.n orders.now.t.now most (families_from (elders_in orders.now.n orders.now.t.now) from family)) ≤ length out.old }
    ensures { Went orders.now.n orders.now.t.now (families_from (elders_in orders.now.n orders.now.t.now) from family) most out.old out.new result }
{
    let Some(first) = orders.family_from(from, family) else {
        return Stretch {
            wrote: 0,
            next: None,
        };
    };
    member_step(orders, first, most, out)
}

// So many rows from a turn on, stretch after stretch: each goes on where the last one stopped.
pub fn rows(orders: &Orders<'_>, first: Option<Turn>, most: usize, out: &mut [u8]) -> usize
    requires stands_or_ends { StandsOrEnds orders.now.n first }
    requires first_in_bounds { length (text_left orders.now.n orders.now.t.now most first) ≤ length out.old }
    ensures { Wrote (text_left orders.now.n orders.now.t.now most first) out.old out.new result }
{
    let mut wrote = 0;
    let mut left = most;
    let mut next = first;
    while 0 < left {
        let Some(x) = next else {
            return wrote;
        };
        let some = left.min(STRETCH);
        let done = member_step(orders, x, some, &mut out[wrote..]);
        wrote += done.wrote;
        left -= some;
        next = done.next;
    }
    wrote
}
