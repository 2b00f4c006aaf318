// The heading: orders N families F.
ghost use Rattle.std.specs.Prelude.{◌≤◌, ◌≡◌, length};
ghost use Rattle.row.specs.Texts.{heading as texts_heading};
ghost use Rattle.row.specs.Writes.{Wrote};

use crate::decimal;

#[tactic(auto, using(crate::proofs::Decimals::decimal_most))]
pub fn length(orders: u64, families: u64) -> usize
    ensures { result ≡ length (texts_heading orders families) }
{
    // The words, their spaces and the LF.
    18 + decimal::digits(orders) + decimal::digits(families)
}

#[tactic(auto, using(crate::proofs::Puts::heading_length))]
pub fn write(orders: u64, families: u64, out: &mut [u8]) -> usize
    requires { length (texts_heading orders families) ≤ length out.old }
    ensures { Wrote (texts_heading orders families) out.old out.new result }
{
    run::store(out, 0, b"orders ");
    let mid = decimal::put_number(out, 7, orders);
    run::store(out, mid, b" families ");
    let end = decimal::put_number(out, mid + 10, families);
    run::store(out, end, b"\n");
    end + 1
}
