// A refusal line: line L refused R, with field F after a 3. It is put into the lent buffer, as `row` puts its texts: a Display would want a writer over
// the buffer beside it, and is no plainer.
ghost use Rattle.std.specs.Prelude.{◌+◌, ◌≤◌, length};
ghost use Rattle.refusal.specs.Numbers.{number_of, field_of};
ghost use Rattle.row.specs.Writes.{Put, Wrote};
ghost use Rattle.feed.specs.Printed.{field_text, refusal_line};
ghost use Rattle.feed.specs.Steps.{longest};

use refusal::Refusal;
use row::decimal;

fn put_field(out: &mut [u8], at: usize, x: Refusal) -> usize
    requires { at + 10 ≤ length out.old }
    ensures { Put (field_text (number_of x) (field_of x)) at out.old out.new result }
{
    let Refusal::Field(f) = x else {
        return at;
    };
    run::store(out, at, b" field ");
    decimal::put_number(out, at + 7, f as u64)
}

pub fn refused(line: u64, x: Refusal, out: &mut [u8]) -> usize
    requires { longest ≤ length out.old }
    ensures { Wrote (refusal_line line (number_of x) (field_of x)) out.old out.new result }
{
    run::store(out, 0, b"line ");
    let number = decimal::put_number(out, 5, line);
    run::store(out, number, b" refused ");
    let refusal = decimal::put_number(out, number + 9, refusal::number(x) as u64);
    let field = put_field(out, refusal, x);
    run::store(out, field, b"\n");
    field + 1
}
