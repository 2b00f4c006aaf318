// The cases about the table in hand. Each tests what its payload says, so that nothing has to be shown of it.
use crate::hand::Table;
use say::{Answer, Spaced, say};
use std::io::Print;

// A number that no answer is.
const UNANSWERED: u32 = 99_999;

pub fn take(rt: &impl Print, s: &[u8], table: &mut Table) -> Option<()> {
    table.take(s)?;
    say!(rt; "table {}", s.len());
    say::sum(rt, s);
    Some(())
}

// A case that leaves the table its length.
pub fn case(rt: &impl Print, kind: u8, s: &[u8], t: &mut [u8]) -> Option<()> {
    match kind {
        b'p' => patch(rt, s, t),
        b'e' => make_empty(rt, s, t),
        b'd' => damage(rt, s, t),
        b'l' => look_up(rt, s, t),
        b'o' => copy(rt, s, t, b"order ", door::skurzelt_order_at),
        b'q' => copy(rt, s, t, b"quote ", door::skurzelt_quote_at),
        b'b' => book(rt, s, t),
        b'a' => book_all(rt, s, t),
        b'h' => sheet(rt, s, t),
        _ => None,
    }
}

fn patch(rt: &impl Print, s: &[u8], t: &mut [u8]) -> Option<()> {
    let (at, bytes) = s.split_first_chunk()?;
    let at = u32::from_le_bytes(*at) as usize;
    t.get_mut(at..)?
        .get_mut(..bytes.len())?
        .copy_from_slice(bytes);
    say::text(rt, b"patch");
    say::sum(rt, t);
    Some(())
}

fn make_empty(rt: &impl Print, s: &[u8], t: &mut [u8]) -> Option<()> {
    let [] = s else {
        return None;
    };
    let code = door::skurzelt_empty_table(t);
    changed(rt, "empty", code, t);
    Some(())
}

// The answer of an entry that may change the table.
fn changed(rt: &impl Print, word: &str, code: u32, t: &[u8]) {
    say!(rt; "{word} {}", Answer(code));
    say::sum(rt, t);
}

fn damage(rt: &impl Print, s: &[u8], t: &[u8]) -> Option<()> {
    let [] = s else {
        return None;
    };
    let code = door::skurzelt_check_table(t);
    say!(rt; "{}", if code == 0 { "undamaged" } else { "damaged" });
    Some(())
}

fn look_up(rt: &impl Print, key: &[u8], t: &[u8]) -> Option<()> {
    let mut place = 7;
    let code = door::skurzelt_find_order(t, key, &mut place);
    say::text(rt, b"lookup");
    say::number(rt, b" ", code, place);
    Some(())
}

// The order or the quote row at a place, as the entry copies it into a buffer of so many bytes.
fn copy<F: Fn(&[u8], u64, &mut [u8]) -> u32>(
    rt: &impl Print,
    s: &[u8],
    t: &[u8],
    word: &[u8],
    entry: F,
) -> Option<()>
    requires { F.IsAlwaysCallable entry }
{
    let (place, n) = s.split_first_chunk()?;
    let n = u16::from_le_bytes(*n.as_array()?);
    let mut buffer = [b'.'; 300];
    let buffer = buffer.get_mut(..n as usize)?;
    let code = entry(t, u64::from_le_bytes(*place), buffer);
    say::filled(rt, word, code, buffer);
    Some(())
}

fn book(rt: &impl Print, piece: &[u8], t: &mut [u8]) -> Option<()> {
    let code = door::skurzelt_book(t, piece);
    changed(rt, "book", code, t);
    Some(())
}

// A text in one call, with room for n answers.
fn book_all(rt: &impl Print, s: &[u8], t: &mut [u8]) -> Option<()> {
    let (n, text) = s.split_first_chunk()?;
    let n = u16::from_le_bytes(*n);
    let mut answers = [UNANSWERED; 1_000];
    let answers = answers.get_mut(..n as usize)?;
    let mut used = 7;
    let mut booked = 8;
    let code = door::skurzelt_book_all(t, text, answers, &mut used, &mut booked);
    say!(rt; "all {n}");
    if code == 0 {
        say!(rt; " done {used} {booked}");
    } else {
        say::left(rt, code, &[used, booked]);
    }
    say::sum(rt, t);
    say!(rt; " [{}]", Spaced(answers));
    Some(())
}

// The sheet, into a buffer of n bytes.
fn sheet(rt: &impl Print, s: &[u8], t: &[u8]) -> Option<()> {
    let n = u32::from_le_bytes(*s.as_array()?);
    let mut out = [b'.'; 60_000];
    let out = out.get_mut(..n as usize)?;
    let mut written = 7;
    let code = door::skurzelt_sheet(t, out, &mut written);
    say!(rt; "sheet {n}");
    say::number(rt, b" done ", code, written);
    say::sum(rt, out);
    say::bytes(rt, rows(out, code, written as usize));
    Some(())
}

// What was written: nothing on a refusal, whatever the number says then.
fn rows(out: &[u8], code: u32, written: usize) -> &[u8] {
    if code == 0 {
        out.get(..written).unwrap_or_default()
    } else {
        &[]
    }
}
