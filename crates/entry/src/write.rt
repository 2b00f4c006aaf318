// An order and a quote row written to the front of lent bytes.
ghost use Rattle.std.specs.Prelude.{◌+◌, ◌*◌, ◌≤◌, ◌≡◌, ◌++◌, length};
ghost use Rattle.std.proofs.lemmas.List.Edits.{sets};
ghost use Rattle.groups.specs.Taken.{joined};
ghost use Rattle.groups.specs.Groups.{Puts, number_bytes};
ghost use Rattle.saved.specs.Heads.{head_bytes, head_width};
ghost use Rattle.saved.specs.Entries.{saved_order, saved_row};
ghost use Rattle.entry.specs.Series.{series_bytes, strike_bytes};

use crate::TOKEN;
use field::put;
use order::{Order, Series};
use quote::{Quote, QuoteRow};

// Fields 18 to 21.
fn put_strike(out: &mut [u8], at: usize, s: Series)
    requires { at + 11 ≤ length out.old }
    ensures { out.new ≡ sets out.old at (strike_bytes s) }
{
    put::filled(out, at, 2, s.date, b'0');
    put::filled(out, at + 2, 2, s.year, b'0');
    run::byte(out, at + 4, s.denominator);
    put::filled(out, at + 5, 6, s.strike, b'0');
}

// Fields 16 to 21.
fn put_series(out: &mut [u8], at: usize, s: Series)
    requires { at + 18 ≤ length out.old }
    ensures { out.new ≡ sets out.old at (series_bytes s) }
{
    run::store(out, at, &s.root);
    run::byte(out, at + 6, s.month);
    put_strike(out, at + 7, s);
}

// Key or id, side and series as their line bytes; of the token the first w characters.
fn put_head(out: &mut [u8], w: usize, q: Quote)
    requires w_bound { w ≤ 20 }
    requires w_in_bounds { head_width w ≤ length out.old }
    ensures { out.new ≡ sets out.old 0 (head_bytes w q) }
{
    run::store(out, 0, &q.key.source);
    run::store(out, 6, &q.key.token[0..w]);
    run::byte(out, 6 + w, q.side);
    put_series(out, 7 + w, q.series);
}

// A head, and numbers behind it; how many bytes they take.
fn put_entry(out: &mut [u8], w: usize, q: Quote, numbers: &[u64]) -> usize
    requires w_bound { w ≤ 20 }
    requires numbers_in_bounds { head_width w + 10 * length numbers.now ≤ length out.old }
    ensures { Puts (head_bytes w q ++ joined number_bytes numbers.now) 0 out.old result out.new }
{
    put_head(out, w, q);
    groups::put_all(out, 25 + w, numbers)
}

// An order; how many bytes it takes, at most ORDER.
pub fn put_order(out: &mut [u8], o: Order) -> usize
    requires { 115 ≤ length out.old }
    ensures { Puts (saved_order o) 0 out.old result out.new }
{
    let f = o.figures;
    let numbers = [
        o.price,
        o.elder,
        f.executed,
        f.broken,
        f.cancelled,
        f.passed,
        f.open,
    ];
    let head = Quote {
        key: o.key,
        side: o.side,
        series: o.series,
    };
    put_entry(out, TOKEN, head, &numbers)
}

// A quote row; how many bytes it takes, at most ROW.
pub fn put_row(out: &mut [u8], w: QuoteRow) -> usize
    requires { 61 ≤ length out.old }
    ensures { Puts (saved_row w) 0 out.old result out.new }
{
    let numbers = [w.executed, w.broken];
    put_entry(out, quote::ID, w.quote, &numbers)
}
