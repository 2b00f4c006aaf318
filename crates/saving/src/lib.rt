// An undamaged table written as a saved day (02, 2): its front, then an entry for each order, then one for each quote row.
#![tactic(auto)]

ghost use Rattle.std.specs.Prelude.{◌+◌, ◌≤◌, ◌<◌, ◌≡◌, true, leb, length};
ghost use Rattle.groups.specs.Groups.{Puts};
ghost use Rattle.saved.specs.Days.{saved_day};
ghost use Rattle.table.specs.Tables.{count_in, row_count_in, sound, table_in};
ghost use Rattle.saving.specs.Promises.{Saves};
ghost use Rattle.saving.specs.Saving.{entry_no, front_of};

use entry::ORDER;
use refusal::Refusal;
use table::{damage, header};

// Any bytes for a table, any buffer; how many bytes were written. On a refusal not one byte is changed.
pub fn save(t: &[u8], out: &mut [u8]) -> Result<usize, Refusal>
    ensures { Saves t.now out.old result out.new }
{
    if !damage::is_sound(t) {
        return Err(Refusal::Damaged);
    }
    if !fits(t, out.len()) {
        return Err(Refusal::NoRoom);
    }
    Ok(put_day(t, out))
}

// The form, the mark and the two counts; how many bytes they take.
#[tactic(auto, using(table::proofs::Sound::header_there))]
fn put_front(t: &[u8], out: &mut [u8]) -> usize
    requires t_value { sound t.now ≡ true }
    requires t_in_bounds { length (front_of t.now) ≤ length out.old }
    ensures { Puts (front_of t.now) 0 out.old result out.new }
{
    let over = u64::from(header::is_over(t));
    let orders = header::count(t);
    let rows = header::row_count(t) as u64;
    let numbers = [1, over, orders, rows];
    groups::put_all(out, 0, &numbers)
}

// How many entries there are.
#[tactic(auto, using(table::proofs::Sound::header_there))]
fn entries(t: &[u8]) -> usize
    requires { sound t.now ≡ true }
    ensures { result ≡ count_in t.now + row_count_in t.now }
{
    header::count(t) as usize + header::row_count(t)
}

// Entry k to the front of a buffer that has room for any; how many bytes it takes.
#[tactic(auto, using(table::proofs::Sound::header_there, table::proofs::Sound::slots_there, table::proofs::Sound::rows_there))]
fn put_entry(t: &[u8], k: usize, buffer: &mut [u8]) -> usize
    requires t_value { sound t.now ≡ true }
    requires k_bound { k < count_in t.now + row_count_in t.now }
    requires in_bounds { 115 ≤ length buffer.old }
    ensures { Puts (entry_no t.now k) 0 buffer.old result buffer.new }
{
    let n = header::count(t) as usize;
    if k < n {
        return entry::put_order(buffer, slot::order_at(t, k));
    }
    entry::put_row(buffer, table::row_at(t, k - n))
}

// The same to a place in a saved day, by way of the buffer; the place behind it.
fn lay_entry(t: &[u8], k: usize, buffer: &mut [u8], out: &mut [u8], at: usize) -> usize
    requires t_value { sound t.now ≡ true }
    requires k_bound { k < count_in t.now + row_count_in t.now }
    requires in_bounds { 115 ≤ length buffer.old }
    requires k_in_bounds { at + length (entry_no t.now k) ≤ length out.old }
    ensures { Puts (entry_no t.now k) at out.old result out.new }
{
    let long = put_entry(t, k, buffer);
    run::store(out, at, &buffer[0..long]);
    at + long
}

// Whether the saved day has room in so many bytes. What is left of them is counted, so that no sum grows out of bounds.
pub fn fits(t: &[u8], space: usize) -> bool
    requires { sound t.now ≡ true }
    ensures { result ≡ leb (length (saved_day (table_in t.now))) space }
{
    let mut buffer = [0u8; ORDER];
    let front = put_front(t, &mut buffer);
    if space < front {
        return false;
    }
    let mut left = space - front;
    for i in 0..entries(t) {
        let long = put_entry(t, i, &mut buffer);
        if left < long {
            return false;
        }
        left -= long;
    }
    true
}

// The saved day; how many bytes it takes.
pub fn put_day(t: &[u8], out: &mut [u8]) -> usize
    requires t_value { sound t.now ≡ true }
    requires t_in_bounds { length (saved_day (table_in t.now)) ≤ length out.old }
    ensures { Puts (saved_day (table_in t.now)) 0 out.old result out.new }
{
    let mut buffer = [0u8; ORDER];
    let mut at = put_front(t, out);
    for k in 0..entries(t) {
        at = lay_entry(t, k, &mut buffer, out, at);
    }
    at
}
