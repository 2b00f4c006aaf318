// A case by its kind. A case that answers None has printed nothing: its payload is not as its kind says.
use crate::hand::Table;
use crate::{chunks, tables, texts};
use std::io::Print;

// A case's last line ends here, whatever it says.
pub fn case(rt: &impl Print, kind: u8, s: &[u8], table: &mut Table) {
    if answered(rt, kind, s, table).is_none() {
        say::text(rt, b"bad case");
    }
    say::text(rt, b"\n");
}

fn answered(rt: &impl Print, kind: u8, s: &[u8], table: &mut Table) -> Option<()> {
    match kind {
        b'n' => name(rt, s),
        b'r' => trial_lines::read(rt, s),
        b'i' => trial_lines::read_into(rt, s),
        b'w' => trial_lines::write(rt, s),
        b's' => trial_lines::strike_value(rt, s),
        b'f' => trial_lines::strike_form(rt, s),
        b'k' => trial_lines::clock(rt, s),
        b'x' => texts::next_piece(rt, s),
        b'y' => texts::count(rt, s),
        b'z' => texts::given(rt, s),
        b'c' => chunks::case(rt, s),
        b't' => tables::take(rt, s, table),
        _ => tables::case(rt, kind, s, table.in_hand()?),
    }
}

fn name(rt: &impl Print, s: &[u8]) -> Option<()> {
    if s.contains(&b'\n') {
        return None;
    }
    say::text(rt, b"== ");
    say::text(rt, s);
    Some(())
}
