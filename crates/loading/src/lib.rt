// A saved day (02, 2): its orders and its quote rows checked, and stored into a lent table. One is read after another, by value.
#![tactic(auto)]

ghost use Rattle.std.specs.Prelude.{◌+◌, ◌*◌, ◌≤◌, ◌<◌, ◌≡◌, true, length, drop};
ghost use Rattle.quote.specs.Quotes.{most_rows};
ghost use Rattle.groups.specs.Taken.{list_in};
ghost use Rattle.saved.specs.Days.{day_in};
ghost use Rattle.saved.specs.Entries.{saved_order_in, saved_row_in};
ghost use Rattle.table.specs.Changes.{appended, row_appended};
ghost use Rattle.table.specs.Tables.{count_in, limit_of, row_count_in};
ghost use Rattle.loading.specs.Loading.{PutsAll, ReadsFront, ReadsRows, StoresDay, end_of_orders, end_of_rows, front_said, is_day, marked_by};

use table::elders::FLAGS;
use table::{elders, header};

// The numbers in front of a saved day: the form, the mark and the two counts.
const FORM: u64 = 1;

const NUMBERS: usize = 4;

// What they say, and the place behind them.
#[derive(Clone, Copy)]
pub(crate) struct Front {
    pub over: bool,
    pub orders: usize,
    pub rows: usize,
    pub next: usize,
}

// The bytes of the most rows.
const ROWS: usize = quote_slot::ROW * quote::MOST_ROWS;

// The place behind n orders, if they are there and undamaged. Of those seen, the numbers that no later order may have as its elder are marked.
pub fn end_of_orders(s: &[u8], at: usize, n: usize) -> Option<usize>
    requires at_in_bounds { at ≤ length s.now }
    requires n_bound { n ≤ 512 }
    ensures { result ≡ end_of_orders 512 at (list_in saved_order_in n (drop at s.now)) }
{
    let mut flags = [0u8; FLAGS];
    let mut place = at;
    for i in 0..n {
        let (order, next) = entry::order_at(s, place)?;
        let e = order.elder as usize;
        let open = order.figures.open;
        if !elders::follows(&flags, i, e) {
            return None;
        }
        elders::pass(&mut flags, i, e, open);
        place = next;
    }
    Some(place)
}

// The place behind n quote rows, which are stored one behind another into lent bytes.
fn read_rows(scratch: &mut [u8], s: &[u8], at: usize, n: usize) -> Option<usize>
    requires at_in_bounds { at ≤ length s.now }
    requires n_in_bounds { 49 * n ≤ length scratch.old }
    ensures { ReadsRows s.now at n scratch.old result scratch.new }
{
    let mut place = at;
    for i in 0..n {
        let (row, next) = entry::row_at(s, place)?;
        quote_slot::store(scratch, 0, i, row);
        place = next;
    }
    Some(place)
}

// The place behind n quote rows, if they are there and undamaged.
pub fn end_of_rows(s: &[u8], at: usize, n: usize) -> Option<usize>
    requires at_in_bounds { at ≤ length s.now }
    requires n_bound { n ≤ 128 }
    ensures { result ≡ end_of_rows at (list_in saved_row_in n (drop at s.now)) }
{
    let mut scratch = [0u8; ROWS];
    let end = read_rows(&mut scratch, s, at, n)?;
    if !quote_slot::unlike(&scratch, 0, n) {
        return None;
    }
    Some(end)
}

// n orders, each put behind those of a table that has room for them; the place behind them.
pub fn store_orders(t: &mut [u8], s: &[u8], at: usize, n: usize) -> Option<usize>
    requires at_in_bounds { at ≤ length s.now }
    requires n_bound { count_in t.old + n ≤ limit_of (length t.old) }
    ensures { PutsAll appended at (list_in saved_order_in n (drop at s.now)) t.old result t.new }
{
    let mut place = at;
    for _ in 0..n {
        let (order, next) = entry::order_at(s, place)?;
        table::append(t, order);
        place = next;
    }
    Some(place)
}

// n quote rows, likewise.
pub fn store_rows(t: &mut [u8], s: &[u8], at: usize, n: usize) -> Option<usize>
    requires at_in_bounds { at ≤ length s.now }
    requires nonzero { 0 < limit_of (length t.old) }
    requires n_bound { row_count_in t.old + n ≤ most_rows }
    ensures { PutsAll row_appended at (list_in saved_row_in n (drop at s.now)) t.old result t.new }
{
    let mut place = at;
    for _ in 0..n {
        let (row, next) = entry::row_at(s, place)?;
        table::append_row(t, row);
        place = next;
    }
    Some(place)
}

// The front that four numbers make which end at a place, if it is that of a day.
fn front_of(values: [u64; NUMBERS], next: usize) -> Option<Front>
    ensures { result ≡ front_said values next }
{
    let form = values[0] == FORM;
    let mark = values[1] <= 1;
    let orders = values[2] <= table::LIMIT;
    let rows = values[3] <= quote::MOST_ROWS as u64;
    if form & mark & orders & rows {
        Some(Front {
            over: values[1] == 1,
            orders: values[2] as usize,
            rows: values[3] as usize,
            next,
        })
    } else {
        None
    }
}

// The front of bytes that may be anything.
fn read_front(s: &[u8]) -> Option<Front>
    ensures { ReadsFront 512 s.now result }
{
    let mut values = [0u64; NUMBERS];
    let next = groups::get_all(s, 0, &mut values)?;
    front_of(values, next)
}

// Whether bytes are the saved day of an undamaged table: everything is asked before anything is stored.
pub fn is_day(s: &[u8]) -> bool
    ensures { result ≡ is_day (day_in 512 s.now) }
{
    let Some(front) = read_front(s) else {
        return false;
    };
    let Some(at) = end_of_orders(s, front.next, front.orders) else {
        return false;
    };
    let Some(end) = end_of_rows(s, at, front.rows) else {
        return false;
    };
    end == s.len()
}

// The mark of the day's end, where it is over.
fn mark(t: &mut [u8], over: bool)
    requires { 8 ≤ length t.old }
    ensures { t.new ≡ marked_by over t.old }
{
    if over {
        header::put_over(t);
    }
}

// A saved day into a table that has room for it, whatever the table holds. Only what is in use is stored.
pub fn store_day(t: &mut [u8], s: &[u8])
    requires nonzero { 0 < limit_of (length t.old) }
    requires s_value { is_day (day_in 512 s.now) ≡ true }
    ensures { StoresDay 512 s.now t.old t.new }
{
    let Some(front) = read_front(s) else {
        return;
    };
    header::clear(t);
    let Some(at) = store_orders(t, s, front.next, front.orders) else {
        return;
    };
    store_rows(t, s, at, front.rows);
    mark(t, front.over);
}
