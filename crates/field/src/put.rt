// A number or a price written into a lent buffer, at its place.
ghost use Rattle.std.specs.Prelude.{◌+◌, ◌≤◌, ◌%◌, ◌≡◌, cond, eqb, length};
ghost use Rattle.std.proofs.lemmas.List.Edits.{sets};
ghost use Rattle.field.specs.Number.{price_text, filled as number_filled};

// The byte left of a digit: the fill where nothing is left of the number.
fn mark(v: u64, fill: u8) -> u8
    ensures { result ≡ cond (eqb v 0) fill (48 + v % 10) }
{
    if v == 0 { fill } else { 48 + (v % 10) as u8 }
}

// From the right, since that is where the digits fall out.
pub fn filled(out: &mut [u8], at: usize, width: usize, v: u64, fill: u8)
    requires { at + width ≤ length out.old }
    ensures { out.new ≡ sets out.old at (number_filled fill width v) }
{
    if width == 0 {
        return;
    }
    out[at + (width - 1)] = 48 + (v % 10) as u8;
    let mut rest = v / 10;
    for left in (0..width - 1).rev() {
        out[at + left] = mark(rest, fill);
        rest = rest / 10;
    }
}

pub fn price(out: &mut [u8], at: usize, width: usize, v: u64)
    requires { (4 ≤ width) × (at + width ≤ length out.old) }
    ensures { out.new ≡ sets out.old at (price_text width v) }
{
    filled(out, at, width - 4, v / 10000, b' ');
    filled(out, at + (width - 4), 4, v % 10000, b'0');
}
