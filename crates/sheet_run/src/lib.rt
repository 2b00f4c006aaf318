// The sheet program's run over chunks: the start, all of a chunk, the end. What is written out is decided in `feed`; here bytes are only moved.
#![tactic(auto)]

ghost use Rattle.std.specs.Prelude.{◌≤◌, ◌<◌, ◌≡◌, true, [], length};
ghost use Rattle.table.specs.Tables.{limit_of};
ghost use Rattle.book.specs.Bytes.{bytes_after};
ghost use Rattle.feed.specs.Steps.{between_of, longest, room_at_end};
ghost use Rattle.sheet_run.specs.Promises.{Ends, Takes};
ghost use Rattle.lookup.specs.Lent.{SameLent};

use feed::Hold;
use lookup::Day;
use std::io;
use std::io::Write;

// The empty table before the first chunk, and the index beside it.
pub fn begin<'a>(table: &'a mut [u8], heads: &'a mut [u16], nexts: &'a mut [u16]) -> Day<'a>
    requires nonzero { 0 < limit_of (length table.old) }
    requires in_bounds { (1 ≤ length heads.old) × (limit_of (length table.old) ≤ length nexts.old) }
    ensures same { (result.table.ghost_name ≡ table.entry.ghost_name) × (result.heads.ghost_name ≡ heads.entry.ghost_name) × (result.nexts.ghost_name ≡ nexts.entry.ghost_name) }
    ensures t_after { result.table.now ≡ bytes_after table.old [] }
{
    // A buffer of such a length is never refused.
    let _ = table::make_empty(table);
    lookup::indexed(table, heads, nexts)
}

// All of a chunk: one step after another, and what each says is written out before the next. A write that fails ends it.
pub fn take(
    to: &mut impl Write,
    chunk: &[u8],
    day: &mut Day<'_>,
    hold: &mut Hold,
    out: &mut [u8],
) -> io::Result<()>
    requires longest_in_bounds { longest ≤ length out.old }
    ensures takes { Takes (between_of hold.old day.old.table.now) chunk.now result day.new.table.now hold.new }
    ensures long { length day.new.table.now ≡ length day.old.table.now }
    ensures same { SameLent day.old day.new }
{
    let mut used = 0;
    while used < chunk.len() {
        let fed = feed::step(&chunk[used..], day, hold, out);
        say(to, out, fed.wrote)?;
        used += fed.used;
    }
    Ok(())
}

// The piece that is held, and the sheet.
pub fn end(to: &mut impl Write, day: &mut Day<'_>, hold: &Hold, out: &mut [u8]) -> io::Result<()>
    requires t_in_bounds { room_at_end (limit_of (length day.old.table.now)) ≤ length out.old }
    ensures ends { Ends (between_of hold.now day.old.table.now) out.old day.new.table.now out.new }
    ensures same { SameLent day.old day.new }
{
    let n = feed::finish(day, hold, out);
    say(to, out, n)
}

// What stands in front in the buffer is written out.
fn say(to: &mut impl Write, out: &[u8], n: usize) -> io::Result<()>
    requires { n ≤ length out.now }
{
    to.write_all(&out[..n])
}
