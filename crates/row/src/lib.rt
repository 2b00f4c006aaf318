// The heading of the sheet and a row of it: the order at a place, its family and its place in it; and the line of a quote row.
// Each text is put at a place, and the place behind it is the answer: a struct that held the buffer would promise beside each text that it still holds the same one.
#![tactic(auto)]

ghost use Rattle.std.specs.Prelude.{◌+◌, ◌≤◌, ◌≡◌, length};
ghost use Rattle.slot.specs.Slots.{order_in};
ghost use Rattle.slot.specs.Places.{slot, SlotInside};
ghost use Rattle.row.specs.Texts.{column, decimal, figures_text, names_text, rank_text, order_text, traded_text, trimmed};
ghost use Rattle.row.specs.Writes.{Put, Wrote};

pub mod decimal;
pub mod heading;
pub mod quotes;

use order::Figures;
use slot::{HEADER, KEY, SLOT, offset};

// A run without the spaces on its right.
fn unpadded(s: &[u8]) -> &[u8]
    ensures { result.now ≡ trimmed s.now }
{
    let mut left = s;
    while let Some((last, rest)) = left.split_last()
        && *last == b' '
    {
        left = rest;
    }
    left
}

#[tactic(auto, using(crate::proofs::Puts::rank_length))]
fn put_rank(out: &mut [u8], at: usize, family: u64, rank: u64) -> usize
    requires { at + length (rank_text family rank) ≤ length out.old }
    ensures { Put (rank_text family rank) at out.old out.new result }
{
    let dot = decimal::put_number(out, at, family);
    run::store(out, dot, b".");
    decimal::put_number(out, dot + 1, rank)
}

// A space and a number.
fn put_column(out: &mut [u8], at: usize, n: u64) -> usize
    requires { at + length (column (decimal n)) ≤ length out.old }
    ensures { Put (column (decimal n)) at out.old out.new result }
{
    run::store(out, at, b" ");
    decimal::put_number(out, at + 1, n)
}

// The first three figures. A function of its own, since the prover reads only so many facts of one.
#[tactic(auto, using(crate::proofs::Puts::traded_length))]
fn put_traded(out: &mut [u8], at: usize, f: Figures) -> usize
    requires { at + length (traded_text f) ≤ length out.old }
    ensures { Put (traded_text f) at out.old out.new result }
{
    let size = put_column(out, at, f.size);
    let executed = put_column(out, size, f.executed);
    put_column(out, executed, f.broken)
}

#[tactic(auto, using(crate::proofs::Puts::figures_length))]
fn put_figures(out: &mut [u8], at: usize, f: Figures) -> usize
    requires { at + length (figures_text f) ≤ length out.old }
    ensures { Put (figures_text f) at out.old out.new result }
{
    let traded = put_traded(out, at, f);
    let cancelled = put_column(out, traded, f.cancelled);
    let passed = put_column(out, cancelled, f.passed);
    put_column(out, passed, f.open)
}

fn put_names(out: &mut [u8], at: usize, source: &[u8], token: &[u8]) -> usize
    requires { at + length (names_text source.now token.now) ≤ length out.old }
    ensures { Put (names_text source.now token.now) at out.old out.new result }
{
    let name = unpadded(token);
    run::store(out, at, b" ");
    run::store(out, at + 1, source);
    let mid = at + 1 + source.len();
    run::store(out, mid, b" ");
    run::store(out, mid + 1, name);
    run::store(out, mid + 1 + name.len(), b"\n");
    mid + 2 + name.len()
}

#[tactic(auto, using(crate::proofs::Decimals::decimal_most, crate::proofs::Puts::traded_length, crate::proofs::Puts::figures_length))]
fn figures_length(f: Figures) -> usize
    ensures { result ≡ length (figures_text f) }
{
    // A space before each.
    6 + decimal::digits(f.size)
        + decimal::digits(f.executed)
        + decimal::digits(f.broken)
        + decimal::digits(f.cancelled)
        + decimal::digits(f.passed)
        + decimal::digits(f.open)
}

#[tactic(auto, using(crate::proofs::Decimals::decimal_most, crate::proofs::Lent::figures_most, crate::proofs::Lent::token_most))]
pub fn length(t: &[u8], i: usize, family: u64, rank: u64) -> usize
    requires { SlotInside i t.now }
    ensures { result ≡ length (order_text family rank (order_in (slot t.now i))) }
{
    let at = HEADER + SLOT * i;
    let figures = figures_length(slot::figures_in(&t[at..at + SLOT]));
    // The dot, the six Source bytes, the spaces before Source and Token, the LF.
    decimal::digits(family)
        + decimal::digits(rank)
        + figures
        + unpadded(&t[at + offset::TOKEN..at + KEY]).len()
        + 10
}

// Source and Token are lent from the table as they stand there.
pub fn write(t: &[u8], i: usize, family: u64, rank: u64, out: &mut [u8]) -> usize
    requires slot_inside { SlotInside i t.now }
    requires i_in_bounds { length (order_text family rank (order_in (slot t.now i))) ≤ length out.old }
    ensures { Wrote (order_text family rank (order_in (slot t.now i))) out.old out.new result }
{
    let at = HEADER + SLOT * i;
    let rank_end = put_rank(out, 0, family, rank);
    let figures_end = put_figures(out, rank_end, slot::figures_in(&t[at..at + SLOT]));
    put_names(
        out,
        figures_end,
        &t[at..at + offset::TOKEN],
        &t[at + offset::TOKEN..at + KEY],
    )
}
