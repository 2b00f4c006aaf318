// Flags, each of a number: up, or not.
ghost use Rattle.std.specs.Prelude.{◌<◌, ◌≡◌};
ghost use Rattle.table.specs.Passing.{Marks, is_marked, room_in};

#[tactic(auto, unfolding(crate::specs::Passing::is_marked))]
pub fn marked(flags: &[u8], e: usize) -> bool
    requires { e < room_in flags.now }
    ensures { result ≡ is_marked flags.now e }
{
    flags[e] == 1
}

pub fn mark(flags: &mut [u8], e: usize)
    requires { e < room_in flags.old }
    ensures { Marks e flags.old flags.new }
{
    flags[e] = 1;
}
