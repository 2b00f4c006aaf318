// Numbers in groups of seven bits (02, 2): read at a place of lent bytes, and written there.
#![tactic(auto)]

ghost use Rattle.std.specs.Prelude.{◌+◌, ◌≤◌, ◌<◌, ◌≡◌, length, drop};
ghost use Rattle.groups.specs.Taken.{joined};
ghost use Rattle.groups.specs.Groups.{Puts, ReadsAll, above, groups_in, if_in64, number_bytes, number_in, taken_at};

// What 1 in the tenth group counts. More there, or a group more, is above 64 bits.
const TENTH: u64 = 9_223_372_036_854_775_808;

// The number at a place and the place behind it, if the bytes there are one: in the fewest groups, and one that 64 bits hold.
// Most have one group, so that one is answered in front of the loop.
pub fn get(s: &[u8], at: usize) -> Option<(u64, usize)>
    requires { at ≤ length s.now }
    ensures { result ≡ taken_at at (number_in (drop at s.now)) }
{
    if at == s.len() {
        return None;
    }
    let b = s[at];
    if b < 128 {
        return Some((b as u64, at + 1));
    }
    longer(s, at, (b - 128) as u64)
}

// The number at a place whose low group says that there are more.
fn longer(s: &[u8], at: usize, low: u64) -> Option<(u64, usize)>
    requires at_in_bounds { at < length s.now }
    requires low_bound { low < 128 }
    ensures { result ≡ taken_at at (if_in64 (above low (groups_in 9 (drop (at + 1) s.now)))) }
{
    let mut value = low;
    let mut unit: u64 = 128;
    for i in at + 1..s.len() {
        let b = s[i];
        if unit == TENTH {
            if b == 1 {
                return Some((value + TENTH, i + 1));
            }
            return None;
        }
        if b == 0 {
            return None;
        }
        if b < 128 {
            return Some((value + unit * b as u64, i + 1));
        }
        value += unit * (b - 128) as u64;
        unit *= 128;
    }
    None
}

// As many numbers as are lent, one behind another from a place on; the place behind them, if they are there.
pub fn get_all(s: &[u8], at: usize, values: &mut [u64]) -> Option<usize>
    requires { at ≤ length s.now }
    ensures { ReadsAll s.now at values.old result values.new }
{
    let mut place = at;
    for v in values.iter_mut() {
        let (value, next) = get(s, place)?;
        *v = value;
        place = next;
    }
    Some(place)
}

// A number to a place; the place behind it.
pub fn put(out: &mut [u8], at: usize, v: u64) -> usize
    requires { at + length (number_bytes v) ≤ length out.old }
    ensures { Puts (number_bytes v) at out.old result out.new }
{
    let mut rest = v;
    let mut i = at;
    while 128 <= rest {
        out[i] = (128 + rest % 128) as u8;
        rest /= 128;
        i += 1;
    }
    out[i] = rest as u8;
    i + 1
}

// Numbers, one behind another from a place on; the place behind them.
pub fn put_all(out: &mut [u8], at: usize, values: &[u64]) -> usize
    requires { at + length (joined number_bytes values.now) ≤ length out.old }
    ensures { Puts (joined number_bytes values.now) at out.old result out.new }
{
    let mut place = at;
    for v in values {
        place = put(out, place, *v);
    }
    place
}
