// An order and a quote row read at a place of lent bytes. What is there may be anything.
ghost use Rattle.std.specs.Prelude.{◌+◌, ◌≤◌, ◌≡◌, length, drop};
ghost use Rattle.order.specs.Stored.{sound_order};
ghost use Rattle.quote.specs.Quotes.{sound_row};
ghost use Rattle.groups.specs.Groups.{taken_at};
ghost use Rattle.saved.specs.Heads.{cut, head_from, head_in, head_width, head_widths, series_from, series_widths};
ghost use Rattle.saved.specs.Entries.{entry_in, order_from, row_from, saved_order_in, saved_row_in};
ghost use Rattle.entry.specs.Reads.{found, key_from, parted, size_in, sound_only};

use crate::{HEAD, ORDER_NUMBERS, ROW_NUMBERS, TOKEN};
use field::digits;
use order::{Figures, Key, Order, Series};
use quote::{Quote, QuoteRow};

// The Source, and w characters of a token, padded with spaces.
fn key_in(b: &[u8], w: usize) -> Key
    requires w_bound { w ≤ 20 }
    requires w_in_bounds { 6 + w ≤ length b.now }
    ensures { result ≡ key_from w b.now }
{
    let mut token = [b' '; 20];
    run::store(&mut token, 0, &b[6..6 + w]);
    Key {
        source: run::array(b, 0),
        token,
    }
}

// b is the 18 bytes of a series, or others as many.
fn series_in(b: &[u8]) -> Option<Series>
    requires { length b.now ≡ 18 }
    ensures { result ≡ found (series_from (cut series_widths b.now)) }
{
    let date = digits::exactly(&b[7..9], layout::FIRST_DATE, layout::LAST_DATE)?;
    let year = digits::exactly(&b[9..11], 0, layout::LAST_YEAR)?;
    let least = layout::least_strike(b[11]);
    let strike = digits::exactly(&b[12..18], least, layout::MOST_STRIKE)?;
    Some(Series {
        root: run::array(b, 0),
        month: b[6],
        date,
        year,
        denominator: b[11],
        strike,
    })
}

// b is a head with w characters of a token, or other bytes as many.
fn head_in(b: &[u8], w: usize) -> Option<Quote>
    requires w_bound { w ≤ 20 }
    requires b_len { length b.now ≡ head_width w }
    ensures { result ≡ found (head_from w (cut (head_widths w) b.now)) }
{
    let series = series_in(&b[w + 7..w + 25])?;
    Some(Quote {
        key: key_in(b, w),
        side: b[w + 6],
        series,
    })
}

fn head_at(s: &[u8], at: usize, w: usize) -> Option<Quote>
    requires w_bound { w ≤ 20 }
    requires at_in_bounds { at ≤ length s.now }
    ensures { result ≡ found (head_in w (drop at s.now)) }
{
    if s.len() - at < HEAD + w {
        return None;
    }
    head_in(&s[at..at + (HEAD + w)], w)
}

// A head and N numbers behind it, and the place behind these.
fn entry_at<const N: usize>(s: &[u8], at: usize, w: usize) -> Option<((Quote, [u64; N]), usize)>
    requires w_bound { w ≤ 20 }
    requires at_in_bounds { at ≤ length s.now }
    ensures { result ≡ taken_at at (entry_in parted w N (drop at s.now)) }
{
    let quote = head_at(s, at, w)?;
    let mut numbers = [0u64; N];
    let next = groups::get_all(s, at + (HEAD + w), &mut numbers)?;
    Some(((quote, numbers), next))
}

// The size of an order by its four parts. Where one is above any size there is none: their sum might be more than a number holds.
fn size_of(executed: u64, cancelled: u64, passed: u64, open: u64) -> Option<u64>
    ensures { result ≡ size_in executed cancelled passed «open» }
{
    let small = (executed <= layout::MOST_CONTRACTS)
        & (cancelled <= layout::MOST_CONTRACTS)
        & (passed <= layout::MOST_CONTRACTS)
        & (open <= layout::MOST_CONTRACTS);
    if small {
        Some(executed + cancelled + passed + open)
    } else {
        None
    }
}

// An order of its parts, if it is sound by itself.
fn order_from(q: Quote, numbers: [u64; ORDER_NUMBERS]) -> Option<Order>
    ensures { result ≡ sound_only sound_order (order_from q numbers) }
{
    let [price, elder, executed, broken, cancelled, passed, open] = numbers;
    let order = Order {
        key: q.key,
        side: q.side,
        series: q.series,
        price,
        elder,
        figures: Figures {
            size: size_of(executed, cancelled, passed, open)?,
            executed,
            broken,
            cancelled,
            passed,
            open,
        },
    };
    if order::sound_order(order) {
        Some(order)
    } else {
        None
    }
}

// A quote row, likewise.
fn row_from(quote: Quote, numbers: [u64; ROW_NUMBERS]) -> Option<QuoteRow>
    ensures { result ≡ sound_only sound_row (row_from quote numbers) }
{
    let [executed, broken] = numbers;
    let row = QuoteRow {
        quote,
        executed,
        broken,
    };
    if quote::sound_row(row) {
        Some(row)
    } else {
        None
    }
}

// An order that is sound by itself, and the place behind it.
pub fn order_at(s: &[u8], at: usize) -> Option<(Order, usize)>
    requires { at ≤ length s.now }
    ensures { result ≡ taken_at at (saved_order_in (drop at s.now)) }
{
    let ((quote, numbers), next) = entry_at(s, at, TOKEN)?;
    Some((order_from(quote, numbers)?, next))
}

// A quote row, likewise. The two differ in two constants and a function: a trait that holds these is longer than both.
pub fn row_at(s: &[u8], at: usize) -> Option<(QuoteRow, usize)>
    requires { at ≤ length s.now }
    ensures { result ≡ taken_at at (saved_row_in (drop at s.now)) }
{
    let ((quote, numbers), next) = entry_at(s, at, quote::ID)?;
    Some((row_from(quote, numbers)?, next))
}
