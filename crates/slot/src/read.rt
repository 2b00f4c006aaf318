// An order read from the 80 bytes of its slot, by value.
ghost use Rattle.std.specs.Prelude.{◌≤◌, ◌≡◌, length};
ghost use Rattle.slot.specs.Slots.{slot_width, order_in, key_in, series_in, figures_in, asked_of};
ghost use Rattle.slot.specs.Places.{slot, slots as places_slots, SlotInside};

use crate::{Asked, HEADER, SLOT, offset};
use order::{Figures, Key, Order, Series};
use section::Section;

// The slots of a table, whatever it holds.
pub fn slots() -> Section
    ensures { result ≡ places_slots }
{
    Section {
        first: HEADER,
        step: SLOT,
        width: SLOT,
    }
}

// b is the 80 bytes of a slot, or others that begin as a slot does.
pub fn key_in(b: &[u8]) -> Key
    requires { 26 ≤ length b.now }
    ensures { result ≡ key_in b.now }
{
    Key {
        source: run::array(b, 0),
        token: run::array(b, offset::TOKEN),
    }
}

pub fn series_in(b: &[u8]) -> Series
    requires { 41 ≤ length b.now }
    ensures { result ≡ series_in b.now }
{
    Series {
        root: run::array(b, offset::ROOT),
        month: b[offset::MONTH],
        date: cell::get(b, offset::DATE, 1),
        year: cell::get(b, offset::YEAR, 1),
        denominator: b[offset::DENOMINATOR],
        strike: cell::get(b, offset::STRIKE, 4),
    }
}

pub fn figures_in(b: &[u8]) -> Figures
    requires { length b.now ≡ slot_width }
    ensures { result ≡ figures_in b.now }
{
    Figures {
        size: cell::get(b, offset::SIZE, 4),
        executed: cell::get(b, offset::EXECUTED, 4),
        broken: cell::get(b, offset::BROKEN, 4),
        cancelled: cell::get(b, offset::CANCELLED, 4),
        passed: cell::get(b, offset::PASSED, 4),
        open: cell::get(b, offset::OPEN, 4),
    }
}

fn order_in(b: &[u8]) -> Order
    requires { length b.now ≡ slot_width }
    ensures { result ≡ order_in b.now }
{
    Order {
        key: key_in(b),
        side: b[offset::SIDE],
        series: series_in(b),
        price: cell::get(b, offset::PRICE, 8),
        elder: cell::get(b, offset::ELDER, 2),
        figures: figures_in(b),
    }
}

pub fn order_at(t: &[u8], i: usize) -> Order
    requires { SlotInside i t.now }
    ensures { result ≡ order_in (slot t.now i) }
{
    order_in(section::record(t, slots(), i))
}

fn asked_in(b: &[u8]) -> Asked
    requires { length b.now ≡ slot_width }
    ensures { result ≡ asked_of (order_in b.now) }
{
    Asked {
        side: b[offset::SIDE],
        series: series_in(b),
        figures: figures_in(b),
    }
}

// What booking asks, and booking alone: `order_at` is left to the damage check. Each is compiled into its one caller so, and no order is made in memory for a
// line or for an order that is checked.
pub fn asked_at(t: &[u8], i: usize) -> Asked
    requires { SlotInside i t.now }
    ensures { result ≡ asked_of (order_in (slot t.now i)) }
{
    asked_in(section::record(t, slots(), i))
}

// The elder alone, for a walk over many orders.
pub fn elder_at(t: &[u8], i: usize) -> u64
    requires { SlotInside i t.now }
    ensures { result ≡ (order_in (slot t.now i)).elder }
{
    cell::get(t, HEADER + SLOT * i + offset::ELDER, 2)
}
