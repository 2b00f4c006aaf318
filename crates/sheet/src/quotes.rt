// The quote section (02, 1): a line for each quote row of the table, in the order of the rows.
ghost use Rattle.std.specs.Prelude.{◌≤◌, ◌≡◌, true, length};
ghost use Rattle.row.specs.Writes.{Wrote};
ghost use Rattle.table.specs.Tables.{sound};
ghost use Rattle.sheet.specs.Promises.{section_of};

use table::header;

// Of all lines. The sum does not grow out of bounds: a line is hardly longer than its row in the table.
pub fn length(t: &[u8]) -> usize
    requires { sound t.now ≡ true }
    ensures { result ≡ length (section_of t.now) }
{
    let base = header::base(t.len());
    let mut long = 0;
    for i in 0..header::row_count(t) {
        long += row::quotes::length(t, base, i);
    }
    long
}

// One line behind another. What is left of the buffer is lent on.
pub fn write(t: &[u8], out: &mut [u8]) -> usize
    requires t_value { sound t.now ≡ true }
    requires t_in_bounds { length (section_of t.now) ≤ length out.old }
    ensures { Wrote (section_of t.now) out.old out.new result }
{
    let base = header::base(t.len());
    let mut wrote = 0;
    for i in 0..header::row_count(t) {
        wrote += row::quotes::write(t, base, i, &mut out[wrote..]);
    }
    wrote
}
