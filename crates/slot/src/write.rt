// An order written into its slot.
ghost use Rattle.std.specs.Prelude.{◌+◌, ◌≤◌, ◌≡◌, length};
ghost use Rattle.std.proofs.lemmas.List.Edits.{sets};
ghost use Rattle.cell.specs.Cells.{le_bytes};
ghost use Rattle.order.specs.declared.Figures.{Figures};
ghost use Rattle.day.specs.Machine.{with_figures, with_price};
ghost use Rattle.slot.specs.Slots.{slot_width, order_in, slot_bytes, key_bytes, series_bytes, figures_bytes, terms_bytes};
ghost use Rattle.slot.specs.Places.{slot, slot_at, SlotInside};

use crate::{HEADER, SLOT, offset};
use order::{Figures, Key, Order, Series};

// A key, at the front of a slot.
pub fn put_key(t: &mut [u8], at: usize, k: Key)
    requires { at + 26 ≤ length t.old }
    ensures { t.new ≡ sets t.old at (key_bytes k) }
{
    run::store(t, at, &k.source);
    run::store(t, at + offset::TOKEN, &k.token);
}

// In all that follow a slot begins at `at`. A series, at its place behind key and side.
pub fn put_series(t: &mut [u8], at: usize, s: Series)
    requires { at + 41 ≤ length t.old }
    ensures { t.new ≡ sets t.old (at + 27) (series_bytes s) }
{
    run::store(t, at + offset::ROOT, &s.root);
    run::byte(t, at + offset::MONTH, s.month);
    cell::put(t, at + offset::DATE, 1, s.date);
    cell::put(t, at + offset::YEAR, 1, s.year);
    run::byte(t, at + offset::DENOMINATOR, s.denominator);
    cell::put(t, at + offset::STRIKE, 4, s.strike);
}

fn put_figures(t: &mut [u8], at: usize, f: Figures)
    requires { at + slot_width ≤ length t.old }
    ensures { t.new ≡ sets t.old (at + 51) (figures_bytes f) }
{
    cell::put(t, at + offset::SIZE, 4, f.size);
    cell::put(t, at + offset::EXECUTED, 4, f.executed);
    cell::put(t, at + offset::BROKEN, 4, f.broken);
    cell::put(t, at + offset::CANCELLED, 4, f.cancelled);
    cell::put(t, at + offset::PASSED, 4, f.passed);
    cell::put(t, at + offset::OPEN, 4, f.open);
}

// All of an order but its elder and its figures.
fn put_terms(t: &mut [u8], at: usize, o: Order)
    requires { at + slot_width ≤ length t.old }
    ensures { t.new ≡ sets t.old at (terms_bytes o) }
{
    put_key(t, at, o.key);
    run::byte(t, at + offset::SIDE, o.side);
    put_series(t, at, o.series);
    cell::put(t, at + offset::PRICE, 8, o.price);
}

// The rest of a slot in use must be 0.
fn put_rest(t: &mut [u8], at: usize)
    requires { at + slot_width ≤ length t.old }
    ensures { t.new ≡ sets t.old (at + 75) (le_bytes 5 0) }
{
    cell::put(t, at + offset::REST, 5, 0);
}

pub fn store(t: &mut [u8], i: usize, o: Order)
    requires { SlotInside i t.old }
    ensures { t.new ≡ sets t.old (slot_at i) (slot_bytes o) }
{
    let at = HEADER + SLOT * i;
    put_terms(t, at, o);
    cell::put(t, at + offset::ELDER, 2, o.elder);
    put_figures(t, at, o.figures);
    put_rest(t, at);
}

// Other figures for an order. What does not change is not stored again: the next line about the order would wait for it.
pub fn store_figures(t: &mut [u8], i: usize, f: Figures)
    requires { SlotInside i t.old }
    ensures { t.new ≡ sets t.old (slot_at i) (slot_bytes (with_figures (λ (old : Figures). f) (order_in (slot t.old i)))) }
{
    let at = HEADER + SLOT * i;
    put_figures(t, at, f);
    put_rest(t, at);
}

// Another price, in the same way.
pub fn store_price(t: &mut [u8], i: usize, p: u64)
    requires { SlotInside i t.old }
    ensures { t.new ≡ sets t.old (slot_at i) (slot_bytes (with_price p (order_in (slot t.old i)))) }
{
    let at = HEADER + SLOT * i;
    cell::put(t, at + offset::PRICE, 8, p);
    put_rest(t, at);
}
