// Room for the rows, found before the first byte is written.
ghost use Rattle.std.specs.Prelude.{◌≡◌, leb, length};
ghost use Rattle.sheet.specs.Walk.{StandsOrEnds, text_left};

use crate::Turn;
use crate::kin::Orders;

// Each row's length is taken from the space that is left, so that there is no sum to grow.
pub fn rows_fit(orders: &Orders<'_>, first: Option<Turn>, most: usize, space: usize) -> bool
    requires { StandsOrEnds orders.now.n first }
    ensures { result ≡ leb (length (text_left orders.now.n orders.now.t.now most first)) space }
{
    let mut free = space;
    let mut next = first;
    for _ in 0..most {
        let Some(x) = next else {
            return true;
        };
        let long = row::length(orders.t, x.place, x.family, x.rank);
        if free < long {
            return false;
        }
        free -= long;
        next = orders.next(x);
    }
    true
}
