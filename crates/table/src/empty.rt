// Making the empty table in a lent buffer.
ghost use Rattle.table.specs.Promises.{Makes};

use crate::{TABLE, header};
use refusal::Refusal;

// Only the header is written: free slots keep whatever they hold.
pub fn make_empty(t: &mut [u8]) -> Result<(), Refusal>
    ensures { Makes t.old result t.new }
{
    if t.len() < TABLE {
        return Err(Refusal::NoRoom);
    }
    if header::limit(t.len()) == 0 {
        return Err(Refusal::Damaged);
    }
    header::clear(t);
    Ok(())
}
