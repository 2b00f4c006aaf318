// The bucket of a key, by a tag of its bytes.
ghost use Rattle.std.specs.Prelude.{◌≡◌, ◌+◌, ◌*◌, ◌/◌, ◌%◌, ◌^◌, ◌≤◌, length};
ghost use Rattle.run.specs.Runs.{part};
ghost use Rattle.cell.specs.Cells.{le};
ghost use Rattle.index.specs.Tags.{bucket_of, more as tags_more, over_bytes, over_words, tag_of};

use crate::USUAL;
use std::num::wrapping_add_u32;

// An odd number whose bits are mixed: times it, a bit counts for itself and for those above it.
const SPREAD: u64 = 2_654_435_761;

// One more than the largest tag.
const TAGS: u64 = 4_294_967_296;

// A sum that wraps, spread.
fn more(h: u32, b: u32) -> u32
    ensures { result ≡ tags_more h b }
{
    (wrapping_add_u32(h, b) as u64 * SPREAD % TAGS) as u32
}

// Four bytes as one number: the compiler loads them at once.
fn word(key: &[u8], at: usize) -> u32
    requires { at + 4 ≤ length key.now }
    ensures { result ≡ le (part key.now at 4) }
{
    u32::from_le_bytes(run::array(key, at))
}

fn over_words(key: &[u8], words: usize) -> u32
    requires { 4 * words ≤ length key.now }
    ensures { result ≡ over_words words 0 key.now }
{
    let mut h: u32 = 0;
    for j in 0..words {
        h = more(h, word(key, 4 * j));
    }
    h
}

fn over_bytes(h: u32, rest: &[u8]) -> u32
    ensures { result ≡ over_bytes h rest.now }
{
    rest.iter().fold(h, |g, b| more(g, u32::from(*b)))
}

fn tag(key: &[u8]) -> u32
    ensures { result ≡ tag_of key.now }
{
    let words = key.len() / 4;
    over_bytes(over_words(key, words), &key[4 * words..])
}

// By the upper part of the tag, where every bit of the key counts.
pub fn bucket(key: &[u8], m: usize) -> usize
    requires { 1 ≤ m }
    ensures { result ≡ bucket_of m key.now }
{
    let h = tag(key) as usize;
    // The compiler knows this number: no division.
    if m == USUAL {
        return h / (TAGS as usize / USUAL + 1);
    }
    h / (TAGS as usize / m + 1)
}
