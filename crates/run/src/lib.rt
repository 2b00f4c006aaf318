// Runs of bytes in lent buffers: stored, copied, compared, searched. What they mean is not known here.
#![tactic(auto)]

ghost use Rattle.std.specs.Prelude.{◌+◌, ◌*◌, ◌≤◌, ◌<◌, ◌≡◌, [], ◌∷◌, length};
ghost use Rattle.std.specs.Int.{from_le_bytes, w64};
ghost use Rattle.std.proofs.lemmas.List.Edits.{sets};
ghost use Rattle.run.specs.Runs.{part, all, is_zero, member as runs_member, same as runs_same};
ghost use Rattle.run.specs.Words.{SameUpTo};

pub fn store(out: &mut [u8], at: usize, s: &[u8])
    requires { at + length s.now ≤ length out.old }
    ensures { out.new ≡ sets out.old at s.now }
{
    // Not `copy_from_slice`: of a run of any length that is a call of `memmove`, which the archive would ask of its host.
    for i in 0..s.len() {
        out[at + i] = s[i];
    }
}

pub fn byte(out: &mut [u8], at: usize, b: u8)
    requires { at < length out.old }
    ensures { out.new ≡ sets out.old at (b ∷ []) }
{
    out[at] = b;
}

// All of a run into a buffer of its length.
pub fn copy(out: &mut [u8], s: &[u8])
    requires { length s.now ≡ length out.old }
    ensures { out.new ≡ s.now }
{
    out.copy_from_slice(s);
}

// The N bytes from an offset on.
pub fn array<const N: usize>(s: &[u8], at: usize) -> [u8; N]
    requires { at + N ≤ length s.now }
    ensures { result ≡ part s.now at N }
{
    let mut bytes = [0; N];
    bytes.copy_from_slice(&s[at..at + N]);
    bytes
}

// No early exit, so that it is vectorised.
pub fn member(b: u8, s: &[u8]) -> bool
    ensures { result ≡ runs_member b s.now }
{
    let mut found = false;
    for x in s {
        found |= b == *x;
    }
    found
}

// Eight bytes as one number: the compiler loads them at once.
fn word(s: &[u8], at: usize) -> u64
    requires { at + 8 ≤ length s.now }
    ensures { result ≡ from_le_bytes w64 (part s.now at 8) }
{
    u64::from_le_bytes(array(s, at))
}

// Whether the first words of a run are those from an offset on.
fn same_words(s: &[u8], at: usize, other: &[u8], words: usize) -> bool
    requires other_in_bounds { at + length other.now ≤ length s.now }
    requires words_in_bounds { 8 * words ≤ length other.now }
    ensures { SameUpTo s.now at other.now result (8 * words) }
{
    let mut good = true;
    for j in 0..words {
        good &= word(s, at + 8 * j) == word(other, 8 * j);
    }
    good
}

// Whether the bytes from an offset on are those of a run: eight at a time, then the rest. No early exit.
pub fn same_at(s: &[u8], at: usize, other: &[u8]) -> bool
    requires { at + length other.now ≤ length s.now }
    ensures { result ≡ runs_same (part s.now at (length other.now)) other.now }
{
    let words = other.len() / 8;
    let mut good = same_words(s, at, other, words);
    for i in 8 * words..other.len() {
        good &= s[at + i] == other[i];
    }
    good
}

// Whether two runs of one length are the same.
pub fn same(s: &[u8], other: &[u8]) -> bool
    requires { length s.now ≡ length other.now }
    ensures { result ≡ runs_same s.now other.now }
{
    same_at(s, 0, other)
}

// Whether w bytes from an offset on are all 0. No early exit, so that it is vectorised.
pub fn zeros(s: &[u8], at: usize, w: usize) -> bool
    requires { at + w ≤ length s.now }
    ensures { result ≡ all is_zero (part s.now at w) }
{
    let mut good = true;
    for b in &s[at..at + w] {
        good &= *b == 0;
    }
    good
}
