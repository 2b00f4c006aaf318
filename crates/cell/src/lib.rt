// Numbers and runs of bytes at an offset of a lent buffer. What they mean is not known here.
#![tactic(auto)]

ghost use Rattle.std.specs.Prelude.{◌+◌, ◌≤◌, ◌≡◌, length};
ghost use Rattle.std.proofs.lemmas.List.Edits.{sets};
ghost use Rattle.run.specs.Runs.{part};
ghost use Rattle.cell.specs.Cells.{le, le_bytes};

// The number of w bytes, little end first.
pub fn get(s: &[u8], at: usize, w: usize) -> u64
    requires w_in_bounds { at + w ≤ length s.now }
    requires w_bound { w ≤ 8 }
    ensures { result ≡ le (part s.now at w) }
{
    let mut v: u64 = 0;
    for i in (0..w).rev() {
        v = v * 256 + u64::from(s[at + i]);
    }
    v
}

// A number into w bytes; what does not fit is dropped.
pub fn put(out: &mut [u8], at: usize, w: usize, v: u64)
    requires { at + w ≤ length out.old }
    ensures { out.new ≡ sets out.old at (le_bytes w v) }
{
    let mut rest = v;
    for i in 0..w {
        out[at + i] = (rest % 256) as u8;
        rest /= 256;
    }
}
