// Lookup by key with no index.
ghost use Rattle.std.specs.Prelude.{◌≡◌, length};
ghost use Rattle.section.specs.Sections.{Holds};
ghost use Rattle.index.specs.Searches.{earliest, place_no};

use section::Section;

// The earliest of the first n records with the key.
pub fn scan(t: &[u8], keys: Section, n: usize, key: &[u8]) -> Option<usize>
    requires holds { Holds keys t.now n }
    requires key_len { length key.now ≡ keys.width }
    ensures { place_no result ≡ earliest keys t.now n key.now }
{
    for i in 0..n {
        if section::same(t, keys, i, key) {
            return Some(i);
        }
    }
    None
}
