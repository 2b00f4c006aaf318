// The family sheet, written into a lent buffer from a lent table.
#![tactic(auto)]

ghost use Rattle.std.specs.Prelude.{◌+◌, ◌^◌, ◌<◌, ◌≡◌, true};
ghost use Rattle.table.specs.Tables.{sound};
ghost use Rattle.sheet.specs.Pages.{Pages, page_of};
ghost use Rattle.sheet.specs.Promises.{Sheets};

mod family;
mod kin;
mod quotes;
mod room;
mod walk;

use kin::Orders;
use refusal::Refusal;
use row::heading;
use table::{LIMIT, damage, header};

// The most orders that the walk has room for.
const ORDERS: usize = LIMIT as usize;

// Where the walk over the orders stands: the first order of the family, the order whose row is next, and the two numbers of that row.
#[derive(Clone, Copy)]
struct Turn {
    root: usize,
    place: usize,
    family: u64,
    rank: u64,
}

impl Turn {
    // At the younger order, whose place is given.
    fn below(self, place: usize) -> Turn
        requires { self.rank + 1 < 2 ^ 64 }
        ensures { result ≡ record { root = self.root; place = place; family = self.family; rank = self.rank + 1 } }
    {
        Turn {
            place,
            rank: self.rank + 1,
            ..self
        }
    }
}

// Some rows: how many bytes were written, and where the walk then stands.
#[derive(Clone, Copy)]
struct Stretch {
    wrote: usize,
    next: Option<Turn>,
}

// Any bytes for a table, any buffer. On a refusal not one byte is changed.
pub fn write(t: &[u8], out: &mut [u8]) -> Result<usize, Refusal>
    ensures { Sheets t.now out.old result out.new }
{
    if !damage::is_sound(t) {
        return Err(Refusal::Damaged);
    }
    write_sound(t, out)
}

// For a caller that holds the table sound by proof: the same promise, and no damage check is paid.
pub fn write_sound(t: &[u8], out: &mut [u8]) -> Result<usize, Refusal>
    requires { sound t.now ≡ true }
    ensures { Sheets t.now out.old result out.new }
{
    let n = header::count(t) as usize;
    let families = walk::count_roots(t, n);
    let head = heading::length(n as u64, families);
    let below = quotes::length(t);
    if out.len() < head + below {
        return Err(Refusal::NoRoom);
    }
    let mut kin = [0u16; ORDERS];
    kin::note_all(t, n, &mut kin);
    let orders = Orders { t, n, kin: &kin };
    let first = orders.start();
    if !room::rows_fit(&orders, first, n, out.len() - head - below) {
        return Err(Refusal::NoRoom);
    }
    let wrote = heading::write(n as u64, families, out);
    let rows = family::rows(&orders, first, n, &mut out[wrote..]);
    let end = wrote + rows;
    let lines = quotes::write(t, &mut out[end..]);
    Ok(end + lines)
}

// A page of the sheet without its heading: so many rows behind the first ones, which are passed over.
pub fn page_sound(t: &[u8], passed: usize, most: usize, out: &mut [u8]) -> Result<usize, Refusal>
    requires { sound t.now ≡ true }
    ensures { Pages (page_of t.now passed most) out.old result out.new }
{
    let n = header::count(t) as usize;
    let mut kin = [0u16; ORDERS];
    kin::note_all(t, n, &mut kin);
    let orders = Orders { t, n, kin: &kin };
    let first = orders.skip(passed);
    if !room::rows_fit(&orders, first, most, out.len()) {
        return Err(Refusal::NoRoom);
    }
    Ok(family::rows(&orders, first, most, out))
}
