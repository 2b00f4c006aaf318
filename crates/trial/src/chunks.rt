// The case about the sheet program: a text in chunks through its steps.
use std::io::Print;

pub fn case(rt: &impl Print, s: &[u8]) -> Option<()> {
    let (room, s) = s.split_first_chunk()?;
    let (count, s) = s.split_first_chunk()?;
    let (sizes, text) = s.split_at_checked(u16::from_le_bytes(*count) as usize * 2)?;
    trial_chunks::feed_all(rt, text, sizes, u32::from_le_bytes(*room) as usize)
}
