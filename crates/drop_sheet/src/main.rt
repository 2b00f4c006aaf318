// The sheet program: reads standard input to its end, prints each refused piece as it comes, and at the end the sheet. What is printed is decided
// in `feed`, and written out in `sheet_run`.
#![tactic(auto)]

ghost use Rattle.std.specs.Prelude.{◌≤◌, ◌<◌, ◌≡◌, true, [], length, OnOk};
ghost use Rattle.table.specs.Tables.{limit_of};
ghost use Rattle.feed.specs.Steps.{between_of, longest, room_at_end};
ghost use Rattle.sheet_run.specs.Promises.{Prints, Reads};

use feed::Hold;
use lookup::Day;
use std::io::{Eprint, ErrorKind, Input, Print, Read, Write};
use std::process::ExitCode;
use std::{fmt, io};

// Room for a chunk, and as much for what is printed of it.
const ROOM: usize = 65_536;

// The status that a program has which a signal ends that writes where nobody reads any more.
const GONE: u8 = 141;

// Standard output, written by std's own `write_all`: a write that a signal broke off is tried again, however often. The library's writer gives up in the end.
#[derive(Drop)]
struct Output<'a, P> {
    rt: &'a P,
}

impl<P: Print> Write for Output<'_, P> {
    fn write(&mut self, bytes: &[u8]) -> io::Result<usize> {
        self.rt.write_some(bytes)
    }

    fn flush(&mut self) -> io::Result<()> {
        Ok(())
    }
}

// Why not all is printed. Where the reader of the output has gone away, that is no failure to tell.
#[derive(Drop)]
enum Failure {
    Unread,
    Unwritten,
    Gone,
}

impl fmt::Display for Failure {
    fn fmt<W: fmt::Write>(&self, f: &mut fmt::Formatter<W>) -> fmt::Result {
        f.write_str(match self {
            Failure::Unread => "the input could not be read",
            Failure::Unwritten => "the output could not be written",
            Failure::Gone => "the reader of the output has gone away",
        })
    }
}

// Of a write. One that nobody reads any more is told apart.
impl From<io::Error> for Failure {
    fn from(e: io::Error) -> Failure {
        if e.kind() == ErrorKind::BrokenPipe {
            Failure::Gone
        } else {
            Failure::Unwritten
        }
    }
}

// The status does not say that a run failed: a line on standard error does, and nothing more is written.
fn main(rt: HostRuntime) -> ExitCode {
    let mut table = [0; table::TABLE];
    let mut heads = [0; lookup::HEADS];
    let mut nexts = [0; lookup::NEXTS];
    let mut input = [0; ROOM];
    let mut out = [0; ROOM];
    match run(
        &rt, &mut table, &mut heads, &mut nexts, &mut input, &mut out,
    ) {
        Ok(()) => ExitCode::SUCCESS,
        Err(Failure::Gone) => ExitCode::from(GONE),
        Err(failure) => {
            let _ = eprintln!(rt; "sheet: {failure}");
            ExitCode::SUCCESS
        }
    }
}

// From the empty table, over all that is read, to the sheet.
fn run<R: Input + Print>(
    rt: &R,
    t: &mut [u8],
    heads: &mut [u16],
    nexts: &mut [u16],
    input: &mut [u8],
    out: &mut [u8],
) -> Result<(), Failure>
    requires nonzero { 0 < limit_of (length t.old) }
    requires in_bounds { (1 ≤ length heads.old) × (limit_of (length t.old) ≤ length nexts.old) }
    requires t_in_bounds { room_at_end (limit_of (length t.old)) ≤ length out.old }
    ensures { OnOk result (Prints t.old out.new) }
{
    let mut hold = Hold::at(1);
    let mut day = sheet_run::begin(t, heads, nexts);
    read_all(rt, &mut day, &mut hold, input, out)?;
    sheet_run::end(&mut Output { rt }, &mut day, &hold, out)?;
    Ok(())
}

// Chunk after chunk to the end of the input. A proved loop has to end, and nothing says that the input does, so it counts its turns to a
// number that no run uses up; one that did would not have read its input.
fn read_all<R: Input + Print>(
    rt: &R,
    day: &mut Day<'_>,
    hold: &mut Hold,
    input: &mut [u8],
    out: &mut [u8],
) -> Result<(), Failure>
    requires longest_in_bounds { longest ≤ length out.old }
    ensures reads { Reads (between_of hold.old day.old.table.now) result day.new.table.now hold.new }
    ensures long { length day.new.table.now ≡ length day.old.table.now }
{
    let mut reader = rt.reader();
    for _ in 0..u64::MAX {
        let n = reader.read(input).map_err(|_| Failure::Unread)?;
        if n == 0 {
            return Ok(());
        }
        let chunk = &input[..n];
        sheet_run::take(&mut Output { rt }, chunk, day, hold, out)?;
    }
    Err(Failure::Unread)
}
