// What a stored order may be, by value. A stored number is any that its bytes can say, not only what a line can.
ghost use Rattle.std.specs.Prelude.{◌+◌, ◌<◌, ◌≡◌, eqb, MatchOption};
ghost use Rattle.order.specs.Stored.{lawful_key, lawful_series, sound_figures, sound_order};

use crate::{Figures, Key, Order, Series};
use field::verbatim;

fn lawful_key(k: Key) -> bool
    ensures { result ≡ lawful_key k }
{
    verbatim::text(&k.source) & verbatim::text(&k.token)
}

pub fn lawful_series(s: Series) -> bool
    ensures { result ≡ lawful_series s }
{
    verbatim::text(&s.root)
        & run::member(s.month, &layout::MONTHS)
        & layout::within(s.date, layout::FIRST_DATE, layout::LAST_DATE)
        & layout::within(s.year, 0, layout::LAST_YEAR)
        & run::member(s.denominator, &layout::DENOMINATORS)
        & layout::lawful_strike(s.denominator, s.strike)
}

// What is left of the size. The parts are taken from it one after another, since stored figures may be too large for a sum.
fn left(f: Figures) -> Option<u64>
    ensures { MatchOption result (f.size < f.executed + f.cancelled + f.passed) (λ n. f.size ≡ f.executed + f.cancelled + f.passed + n) }
{
    f.size
        .checked_sub(f.executed)?
        .checked_sub(f.cancelled)?
        .checked_sub(f.passed)
}

fn sums(f: Figures) -> bool
    ensures { result ≡ eqb f.size (f.executed + f.cancelled + f.passed + f.«open») }
{
    left(f).is_some_and(|n| n == f.open)
}

fn sound_figures(f: Figures) -> bool
    ensures { result ≡ sound_figures f }
{
    layout::within(f.size, layout::LEAST_CONTRACTS, layout::MOST_CONTRACTS)
        & (f.broken <= f.executed)
        & sums(f)
}

pub fn sound_order(o: Order) -> bool
    ensures { result ≡ sound_order o }
{
    lawful_key(o.key)
        & run::member(o.side, &layout::SIDES)
        & lawful_series(o.series)
        & layout::within(o.price, 0, layout::MOST_PRICE)
        & sound_figures(o.figures)
}
