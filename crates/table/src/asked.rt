// What a host asks of a table: where the order with a key stands, and the order or the quote row at a place.
ghost use Rattle.std.specs.Prelude.{true, false, ◌≡◌, MatchResult};
ghost use Rattle.refusal.specs.declared.Refusal.TheVariants.{Damaged};
ghost use Rattle.section.specs.Sections.{Holds};
ghost use Rattle.table.specs.Promises.{Copies, CopiesOf, CopiesRow, LooksUp};
ghost use Rattle.table.specs.Tables.{sound};

use crate::{damage, header};
use refusal::Refusal;
use section::Section;
use slot::KEY;

fn undamaged(t: &[u8]) -> Result<(), Refusal>
    ensures { MatchResult result (λ _. sound t.now ≡ true) (λ e. (sound t.now ≡ false) × (e ≡ Damaged)) }
{
    if !damage::is_sound(t) {
        return Err(Refusal::Damaged);
    }
    Ok(())
}

// A key is its Source and its Token, one behind the other, as a slot has them.
pub fn look_up(t: &[u8], key: &[u8]) -> Result<usize, Refusal>
    ensures { LooksUp t.now key.now result }
{
    undamaged(t)?;
    if key.len() != KEY {
        return Err(Refusal::UnknownKey);
    }
    slot::find(t, header::count(t) as usize, key).ok_or(Refusal::UnknownKey)
}

// Record i of the n that a section has, as it stands there.
fn copy(t: &[u8], c: Section, n: usize, i: usize, out: &mut [u8]) -> Result<(), Refusal>
    requires t_value { sound t.now ≡ true }
    requires holds { Holds c t.now n }
    ensures { CopiesOf c n t.now i out.old result out.new }
{
    if out.len() < c.width {
        return Err(Refusal::NoRoom);
    }
    if n <= i {
        return Err(Refusal::UnknownKey);
    }
    run::store(out, 0, section::record(t, c, i));
    Ok(())
}

// The 80 bytes of an order as they stand in its slot (docs/LAYOUT.md).
pub fn copy_order(t: &[u8], i: usize, out: &mut [u8]) -> Result<(), Refusal>
    ensures { Copies t.now i out.old result out.new }
{
    undamaged(t)?;
    copy(t, slot::slots(), header::count(t) as usize, i, out)
}

// The 49 bytes of a quote row as they stand (docs/LAYOUT.md).
pub fn copy_row(t: &[u8], i: usize, out: &mut [u8]) -> Result<(), Refusal>
    ensures { CopiesRow t.now i out.old result out.new }
{
    undamaged(t)?;
    let rows = quote_slot::rows(header::base(t.len()));
    copy(t, rows, header::row_count(t), i, out)
}
