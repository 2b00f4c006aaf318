// The header of a lent table: how many orders there are, of how many that it has room for, whether the day is over, and how many quote rows there are.
ghost use Rattle.std.specs.Prelude.{◌≤◌, ◌≡◌, [], ◌∷◌, eqb, length, get_or, replicate};
ghost use Rattle.std.proofs.lemmas.List.Edits.{sets};
ghost use Rattle.cell.specs.Cells.{le_bytes};
ghost use Rattle.slot.specs.Places.{slot_at};
ghost use Rattle.table.specs.Tables.{count_in, header_sound, limit_of, row_count_in};

use crate::{LIMIT, TABLE};
use slot::{HEADER, SLOT};

// Bytes kept for the count of trades (02, 7): the rest of the header.
const SPARE: usize = 6;

const SPARES: usize = HEADER - SPARE;

// How many orders a table of so many bytes has room for, or 0: `base` computes with it whatever the length is, as `limit_of` of the specs is defined.
pub fn limit(len: usize) -> u64
    ensures { result ≡ limit_of len }
{
    if len == TABLE { LIMIT } else { 0 }
}

pub fn count(t: &[u8]) -> u64
    requires { 8 ≤ length t.now }
    ensures { result ≡ count_in t.now }
{
    cell::get(t, 0, 4)
}

pub(crate) fn put_count(t: &mut [u8], n: u64)
    requires { 8 ≤ length t.old }
    ensures { t.new ≡ sets t.old 0 (le_bytes 4 n) }
{
    cell::put(t, 0, 4, n);
}

pub fn is_over(t: &[u8]) -> bool
    requires { 8 ≤ length t.now }
    ensures { result ≡ eqb (get_or t.now 4 0) 1 }
{
    t[4] == 1
}

pub fn put_over(t: &mut [u8])
    requires { 8 ≤ length t.old }
    ensures { t.new ≡ sets t.old 4 (1 ∷ []) }
{
    t[4] = 1;
}

// How many quote rows there are (02, 1).
pub fn row_count(t: &[u8]) -> usize
    requires { 8 ≤ length t.now }
    ensures { result ≡ row_count_in t.now }
{
    t[5] as usize
}

pub(crate) fn put_row_count(t: &mut [u8], n: u8)
    requires { 8 ≤ length t.old }
    ensures { t.new ≡ sets t.old 5 (n ∷ []) }
{
    t[5] = n;
}

// Where the quote rows of a table of so many bytes begin: behind its slots.
pub fn base(len: usize) -> usize
    ensures { result ≡ slot_at (limit_of len) }
{
    HEADER + SLOT * limit(len) as usize
}

// The mark of the day's end, and the bytes behind it that must be 0.
pub fn sound_header(t: &[u8]) -> bool
    requires { 8 ≤ length t.now }
    ensures { result ≡ header_sound t.now }
{
    (t[4] <= 1) & run::zeros(t, SPARE, SPARES)
}

// The header of a table without orders, the day not over.
pub fn clear(t: &mut [u8])
    requires { 8 ≤ length t.old }
    ensures { t.new ≡ sets t.old 0 (replicate 8 0) }
{
    cell::put(t, 0, HEADER, 0);
}
