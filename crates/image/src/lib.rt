// A record as the bytes that cross to a host and back (docs/LAYOUT.md, A record).
#![tactic(auto)]

ghost use Rattle.std.specs.Prelude.{◌+◌, ◌≤◌, ◌≡◌, length};
ghost use Rattle.std.proofs.lemmas.List.Edits.{sets};
ghost use Rattle.layout.specs.Line.{line, read};
ghost use Rattle.refusal.specs.Answer.{value};
ghost use Rattle.image.specs.Images.{image_of, numbers_in, numbers_set, odd_id, odd_liquidity, record_in, unmeant as images_unmeant};

use layout::{Numbers, Record};

// As long as the fields of its line.
pub const RECORD: usize = layout::FIELDS;

// The field of the first byte without meaning, or none.
#[tactic(auto, unfolding(crate::specs::Images::unmeant))]
pub fn unmeant(b: &[u8]) -> Option<u8>
    requires { length b.now ≡ 138 }
    ensures { result ≡ images_unmeant b.now }
{
    if !run::member(b[8], &layout::TYPES) {
        Some(2)
    } else if odd_liquidity(b) {
        Some(6)
    } else if !run::zeros(b, 118, 2) {
        Some(22)
    } else if odd_id(b, 120) {
        Some(23)
    } else if odd_id(b, 129) {
        Some(24)
    } else {
        None
    }
}

fn odd_liquidity(b: &[u8]) -> bool
    requires { length b.now ≡ 138 }
    ensures { result ≡ odd_liquidity b.now }
{
    !layout::is_trade(b[8]) & (b[15] != b' ')
}

fn odd_id(b: &[u8], at: usize) -> bool
    requires b_len { length b.now ≡ 138 }
    requires at_bound { at + 9 ≤ 138 }
    ensures { result ≡ odd_id b.now at }
{
    (b[at + 8] != 0) | (!layout::is_trade(b[8]) & (cell::get(b, at, 8) != 0))
}

fn numbers(b: &[u8]) -> Numbers
    requires { length b.now ≡ 138 }
    ensures { result ≡ numbers_in b.now }
{
    Numbers {
        timestamp: cell::get(b, 0, 8),
        contracts: cell::get(b, 86, 6),
        date: cell::get(b, 99, 2),
        year: cell::get(b, 101, 2),
        strike: cell::get(b, 104, 6),
        price: cell::get(b, 110, 8),
        match_id: cell::get(b, 120, 8),
        cross_id: cell::get(b, 129, 8),
    }
}

// The bytes stand where they stand in a line, so what makes a line's record makes theirs.
#[tactic(auto, unfolding(crate::specs::Images::record_in))]
pub fn load(b: &[u8]) -> Record
    requires { length b.now ≡ 138 }
    ensures { result ≡ record_in b.now }
{
    record::record_of(b, numbers(b))
}

// The bytes of a piece that was read as r, and the numbers over them.
pub fn store(r: Record, piece: &[u8], out: &mut [u8])
    requires piece_value { read piece.now ≡ value (line r) }
    requires in_bounds { 138 ≤ length out.old }
    ensures { out.new ≡ sets out.old 0 (image_of r) }
{
    run::store(out, 0, &piece[0..layout::FIELDS]);
    put_numbers(r, out);
}

#[tactic(auto, unfolding(crate::specs::Images::numbers_set))]
fn put_numbers(r: Record, out: &mut [u8])
    requires { 138 ≤ length out.old }
    ensures { out.new ≡ numbers_set r out.old }
{
    let trade = record::trade_of(r.event);
    cell::put(out, 0, 8, r.timestamp);
    cell::put(out, 86, 6, r.contracts);
    cell::put(out, 99, 2, r.date);
    cell::put(out, 101, 2, r.year);
    cell::put(out, 104, 6, r.strike);
    cell::put(out, 110, 10, r.price);
    cell::put(out, 120, 9, trade.match_id);
    cell::put(out, 129, 9, trade.cross_id);
}
