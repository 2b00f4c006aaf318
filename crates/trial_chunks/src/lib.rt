// A text through the sheet program's run in chunks of given sizes, for the trial.
#![tactic(auto)]

ghost use Rattle.std.specs.Prelude.{◌≤◌, ◌<◌, ◌≡◌, true, length};
ghost use Rattle.table.specs.Tables.{limit_of};
ghost use Rattle.feed.specs.Steps.{longest, room_at_end};

use feed::Hold;
use lookup::Day;
use std::io;
use std::io::Print;

// The least room of a case; the most is all of the output.
const LEAST: usize = 64;

// All that the sheet program writes for the text. A case that answers None has printed nothing.
pub fn feed_all(rt: &impl Print, text: &[u8], sizes: &[u8], room: usize) -> Option<()> {
    let mut table = [0; table::TABLE];
    let mut heads = [0; lookup::HEADS];
    let mut nexts = [0; lookup::NEXTS];
    let mut out = [0; 60_000];
    let (sizes, _) = sizes.as_chunks();
    if room < LEAST || out.len() < room || sizes.is_empty() || sizes.contains(&[0, 0]) {
        return None;
    }
    say::text(rt, b"fed [");
    feed_in(
        rt, text, sizes, room, &mut table, &mut heads, &mut nexts, &mut out,
    );
    say::text(rt, b"]");
    Some(())
}

// Each step may write room bytes; what comes at the end may be longer. A write that fails shows where the output is compared.
fn feed_in(
    rt: &impl Print,
    text: &[u8],
    sizes: &[[u8; 2]],
    room: usize,
    t: &mut [u8],
    heads: &mut [u16],
    nexts: &mut [u16],
    out: &mut [u8],
)
    requires longest_le_room { (longest ≤ room) × (room ≤ length out.old) }
    requires nonzero { 0 < limit_of (length t.old) }
    requires in_bounds { (1 ≤ length heads.old) × (limit_of (length t.old) ≤ length nexts.old) }
    requires t_in_bounds { room_at_end (limit_of (length t.old)) ≤ length out.old }
{
    let mut hold = Hold::at(1);
    let mut day = sheet_run::begin(t, heads, nexts);
    feed_chunks(rt, text, sizes, &mut day, &mut hold, &mut out[..room]);
    let _ = sheet_run::end(&mut io::writer(rt), &mut day, &hold, out);
}

// The sizes are taken in turn, and from the first again when they are used up.
fn feed_chunks(
    rt: &impl Print,
    text: &[u8],
    sizes: &[[u8; 2]],
    day: &mut Day<'_>,
    hold: &mut Hold,
    out: &mut [u8],
)
    requires { longest ≤ length out.old }
    ensures { length day.new.table.now ≡ length day.old.table.now }
{
    let mut turns = sizes.iter().cycle();
    let mut rest = text;
    while !rest.is_empty() {
        let n = chunk_length(turns.next(), rest.len());
        let _ = sheet_run::take(&mut io::writer(rt), &rest[..n], day, hold, out);
        rest = &rest[n..];
    }
}

// The size, or what is left where that is less. A size of 0, which no case has, counts as what is left, so that every chunk goes on.
fn chunk_length(size: Option<&[u8; 2]>, left: usize) -> usize
    requires { 0 < left }
    ensures { (0 < result) × (result ≤ left) }
{
    let size = size.map_or(0, |n| u16::from_le_bytes(*n)) as usize;
    if size == 0 { left } else { size.min(left) }
}
