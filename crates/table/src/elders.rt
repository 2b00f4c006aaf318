// Orders one by one, wherever they come from: a flag for each number that no later order may have as its elder. The order of that number has
// something open, or another order has it as elder already.
ghost use Rattle.std.specs.Prelude.{◌+◌, ◌<◌, ◌≡◌};
ghost use Rattle.table.specs.Passing.{Passes, may_follow, room_in};

use crate::{LIMIT, flags};

// From 0, which is no order's, to that of the last order.
pub const FLAGS: usize = LIMIT as usize + 1;

// Whether the order at place i may have elder e.
pub fn follows(flags: &[u8], i: usize, e: usize) -> bool
    requires { i < room_in flags.now }
    ensures { result ≡ may_follow flags.now i e }
{
    if i < e {
        return false;
    }
    if e == 0 {
        return true;
    }
    !flags::marked(flags, e)
}

// The order at place i is seen.
pub fn pass(flags: &mut [u8], i: usize, e: usize, open: u64)
    requires e_bound { e < room_in flags.old }
    requires i_bound { i + 1 < room_in flags.old }
    ensures { Passes i e «open» flags.old flags.new }
{
    flags::mark(flags, e);
    if open == 0 {
        return;
    }
    flags::mark(flags, i + 1);
}
