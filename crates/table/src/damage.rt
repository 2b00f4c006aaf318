// The damage check: whether a lent slice of bytes says an undamaged table.
ghost use Rattle.std.specs.Prelude.{◌≤◌, ◌<◌, ◌≡◌, length};
ghost use Rattle.table.specs.Passing.{slot_fits};
ghost use Rattle.quote.specs.Rows.{all_rows_sound};
ghost use Rattle.slot.specs.Places.{SlotInside};
ghost use Rattle.quote_slot.specs.QuoteSlots.{row_at, rows_in};
ghost use Rattle.table.specs.Tables.{count_in, limit_of, rows_sound, slots_sound, sound};

use crate::elders::FLAGS;
use crate::{elders, header};
use order::Order;
use slot::{HEADER, SLOT, offset};

// The last five bytes of the slot, and the order in it.
fn sound_slot(t: &[u8], i: usize, o: Order) -> bool
    requires { SlotInside i t.now }
    ensures { result ≡ slot_fits t.now i o }
{
    run::zeros(t, HEADER + SLOT * i + offset::REST, 5) & order::sound_order(o)
}

// One pass over the slots in use. Of those that it has seen, the numbers that no later order may have as its elder are marked.
fn sound_slots(t: &[u8], n: usize) -> bool
    requires n_value { n ≡ count_in t.now }
    requires n_bound { n ≤ limit_of (length t.now) }
    ensures { result ≡ slots_sound t.now }
{
    let mut flags = [0u8; FLAGS];
    for i in 0..n {
        let o = slot::order_at(t, i);
        let e = o.elder as usize;
        let open = o.figures.open;
        if !sound_slot(t, i, o) {
            return false;
        }
        if !elders::follows(&flags, i, e) {
            return false;
        }
        elders::pass(&mut flags, i, e, open);
    }
    true
}

// Each of the first n quote rows by itself.
fn each_sound(t: &[u8], base: usize, n: usize) -> bool
    requires { row_at base n ≤ length t.now }
    ensures { result ≡ all_rows_sound (rows_in base n t.now) }
{
    for i in 0..n {
        if !quote::sound_row(quote_slot::row_at(t, base, i)) {
            return false;
        }
    }
    true
}

// No row is read before it is known that so many are there.
fn sound_rows(t: &[u8]) -> bool
    requires { 0 < limit_of (length t.now) }
    ensures { result ≡ rows_sound t.now }
{
    let n = header::row_count(t);
    if quote::most_rows() < n {
        return false;
    }
    let base = header::base(t.len());
    quote_slot::unlike(t, base, n) & each_sound(t, base, n)
}

// For every slice of bytes: nothing is read before the length says that it is there.
pub fn is_sound(t: &[u8]) -> bool
    ensures { result ≡ sound t.now }
{
    let most = header::limit(t.len());
    if most == 0 {
        return false;
    }
    let n = header::count(t);
    if most < n {
        return false;
    }
    if !header::sound_header(t) {
        return false;
    }
    sound_slots(t, n as usize) & sound_rows(t)
}
