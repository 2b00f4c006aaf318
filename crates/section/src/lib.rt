// Records of equal width at equal distances in lent bytes. What a record means is not known here.
#![tactic(auto)]

ghost use Rattle.std.specs.Prelude.{◌≡◌, length};
ghost use Rattle.std.proofs.lemmas.List.Edits.{sets};
ghost use Rattle.run.specs.Runs.{same as runs_same};
ghost use Rattle.section.specs.Sections.{start_of, record_of, Inside};

// Where the first record begins, how far on the next one does, and how wide each is. A key that stands in each record is a section too.
#[derive(Clone, Copy)]
pub struct Section {
    pub first: usize,
    pub step: usize,
    pub width: usize,
}

fn start(t: &[u8], c: Section, i: usize) -> usize
    requires { Inside c t.now i }
    ensures { result ≡ start_of c i }
{
    c.first + c.step * i
}

// Record i as it is lent.
pub fn record(t: &[u8], c: Section, i: usize) -> &[u8]
    requires { Inside c t.now i }
    ensures { result.now ≡ record_of c t.now i }
{
    let at = start(t, c, i);
    &t[at..at + c.width]
}

// Whether record i is the bytes given.
pub fn same(t: &[u8], c: Section, i: usize, bytes: &[u8]) -> bool
    requires inside { Inside c t.now i }
    requires bytes_len { length bytes.now ≡ c.width }
    ensures { result ≡ runs_same (record_of c t.now i) bytes.now }
{
    run::same_at(t, start(t, c, i), bytes)
}

// An append is a store at the number of the records that are there.
pub fn store(t: &mut [u8], c: Section, i: usize, bytes: &[u8])
    requires inside { Inside c t.old i }
    requires bytes_len { length bytes.now ≡ c.width }
    ensures { t.new ≡ sets t.old (start_of c i) bytes.now }
{
    let at = start(t, c, i);
    run::store(t, at, bytes);
}
