// Whether keys all differ.
ghost use Rattle.std.specs.Prelude.{◌≡◌, ◌<◌, ◌==◌};
ghost use Rattle.section.specs.Sections.{record_of};
ghost use Rattle.index.specs.Searches.{earliest, all_distinct};

use crate::Index;

impl Index<'_> {
    // Whether no record before record i has its key: its key then leads to it.
    fn is_earliest(&self, i: usize) -> bool
        requires { i < self.now.n }
        ensures { result ≡ (earliest self.now.keys self.now.t.now i (record_of self.now.keys self.now.t.now i) == 0) }
    {
        self.find(section::record(self.t, self.keys, i)) == Some(i)
    }

    // Whether no two records have one key. Asked of the index that is there, so that building it is no dearer for a caller that does not ask.
    pub fn distinct(&self) -> bool
        ensures { result ≡ all_distinct self.now.keys self.now.t.now self.now.n }
    {
        let mut differ = true;
        for i in 0..self.n {
            differ &= self.is_earliest(i);
        }
        differ
    }
}
