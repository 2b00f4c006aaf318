// One order more in a lent table.
ghost use Rattle.std.specs.Prelude.{◌≡◌};
ghost use Rattle.table.specs.Changes.{appended};
ghost use Rattle.slot.specs.Places.{SlotInside};
ghost use Rattle.table.specs.Tables.{count_in};

use crate::header;
use order::Order;

// Its slot is stored before the count says that it is there.
pub fn append(t: &mut [u8], o: Order)
    requires { SlotInside (count_in t.old) t.old }
    ensures { t.new ≡ appended o t.old }
{
    let n = header::count(t);
    slot::store(t, n as usize, o);
    header::put_count(t, n + 1);
}
