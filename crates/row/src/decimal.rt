// A number without fill.
ghost use Rattle.std.specs.Prelude.{◌+◌, ◌≤◌, ◌≡◌, length};
ghost use Rattle.row.specs.Texts.{decimal};
ghost use Rattle.row.specs.Writes.{Put};

use field::put;

#[tactic(auto, using(crate::proofs::Decimals::decimal_digits))]
pub fn digits(n: u64) -> usize
    ensures { result ≡ length (decimal n) }
{
    n.max(1).ilog10() as usize + 1
}

// Answers the place behind the last digit.
pub fn put_number(out: &mut [u8], at: usize, n: u64) -> usize
    requires { at + length (decimal n) ≤ length out.old }
    ensures { Put (decimal n) at out.old out.new result }
{
    let width = digits(n);
    put::filled(out, at, width, n, b' ');
    at + width
}
