// Runs the entries of the door, the reader and the steps of the sheet program on cases from standard input, for the comparison with the second
// program (docs/TRIAL.md).
#![tactic(auto)]

mod ask;
mod chunks;
mod hand;
mod tables;
mod texts;

use hand::Table;
use std::io::{Input, Print, Read};

fn main(rt: HostRuntime) {
    let mut payload = [0; 65_536];
    let mut table = Table::empty();
    cases(&rt, &mut payload, &mut table);
}

// The cases one after another. A proved loop has to end, and nothing says that the input does, so it counts its turns to a number that no run
// uses up.
fn cases(rt: &(impl Input + Print), payload: &mut [u8], table: &mut Table) {
    let mut reader = rt.reader();
    for _ in 0..u64::MAX {
        if one_case(rt, &mut reader, payload, table).is_none() {
            break;
        }
    }
}

// One case: a letter, the length in four bytes, the payload. Answers None where there is no other.
fn one_case(
    rt: &impl Print,
    reader: &mut impl Read,
    payload: &mut [u8],
    table: &mut Table,
) -> Option<()> {
    let mut head = [0u8; 5];
    reader.read_exact(&mut head).ok()?;
    let [kind, a, b, c, d] = head;
    let Some(payload) = payload.get_mut(..u32::from_le_bytes([a, b, c, d]) as usize) else {
        say::text(rt, b"case too long\n");
        return None;
    };
    reader.read_exact(payload).ok()?;
    ask::case(rt, kind, payload, table);
    Some(())
}
