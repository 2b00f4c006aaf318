// The cases about the pieces of a text.
use say::say;
use std::io::Print;

pub fn next_piece(rt: &impl Print, s: &[u8]) -> Option<()> {
    let (at, text) = s.split_first_chunk()?;
    let at = u64::from_le_bytes(*at);
    let mut end = 0;
    door::skurzelt_next_piece(text, at, &mut end);
    if end == at {
        say::text(rt, b"piece none");
    } else {
        say!(rt; "piece {at} {end}");
    }
    Some(())
}

pub fn count(rt: &impl Print, s: &[u8]) -> Option<()> {
    say!(rt; "pieces {}", reader::count(s));
    Some(())
}

// The piece with a number.
pub fn given(rt: &impl Print, s: &[u8]) -> Option<()> {
    let (n, text) = s.split_first_chunk()?;
    say::text(rt, b"given");
    say::bytes(rt, reader::nth(text, u64::from_le_bytes(*n) as usize));
    Some(())
}
