// The younger order of each order, noted in one pass: so a walk over all orders looks at each of them once.
ghost use Rattle.std.specs.Prelude.{◌≤◌, ◌<◌, ◌≡◌, length};
ghost use Rattle.slot.specs.Places.{slot_at};
ghost use Rattle.sheet.specs.Kin.{Kin, Notes, younger_order};
ghost use Rattle.sheet.specs.Walk.{elders_in};

// The first n orders of a table, and the younger one of each.
#[derive(Drop)]
pub struct Orders<'a> {
    pub t: &'a [u8],
    pub n: usize,
    pub kin: &'a [u16],
    pub ghost noted: { Kin n t.now kin.now },
}

impl Orders<'_> {
    // 0 is noted where there is none, since the first order is nobody's younger one: two bytes an order are enough (fixed memory).
    pub fn younger(&self, i: usize) -> Option<usize>
        requires { i < self.now.n }
        ensures { result ≡ younger_order (elders_in self.now.n self.now.t.now) i }
    {
        match self.kin[i] {
            0 => None,
            place => Some(place as usize),
        }
    }
}

// The order at place i is noted as the younger one of its elder, unless one is noted there; its own is not known yet. An elder that is not an earlier
// order is passed over.
fn note(kin: &mut [u16], i: usize, e: u64)
    requires i_in_bounds { i < length kin.old }
    requires i_bound { i < 65536 }
    ensures { Notes i e kin.old kin.new }
{
    kin[i] = 0;
    if e == 0 {
        return;
    }
    if (i as u64) < e {
        return;
    }
    let elder = e as usize - 1;
    if kin[elder] != 0 {
        return;
    }
    kin[elder] = i as u16;
}

// Whatever was noted before.
pub fn note_all(t: &[u8], n: usize, kin: &mut [u16])
    requires n_in_bounds { slot_at n ≤ length t.now }
    requires n_in_bounds_2 { n ≤ length kin.old }
    requires n_bound { n ≤ 65536 }
    ensures { Kin n t.now kin.new }
{
    for i in 0..n {
        note(kin, i, slot::elder_at(t, i));
    }
}
