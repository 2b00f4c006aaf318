// The table in hand.

// Room for the longest.
const ROOM: usize = 47_400;

// It is the first len of these bytes.
#[derive(Drop)]
pub struct Table {
    bytes: [u8; ROOM],
    len: usize,
}

impl Table {
    pub fn empty() -> Table {
        Table {
            bytes: [0; ROOM],
            len: 0,
        }
    }

    // Always there: `take` lets no longer one in.
    pub fn in_hand(&mut self) -> Option<&mut [u8]> {
        let len = self.len;
        self.bytes.get_mut(..len)
    }

    // Another table in its place, if there is room.
    pub fn take(&mut self, s: &[u8]) -> Option<()> {
        self.bytes.get_mut(..s.len())?.copy_from_slice(s);
        self.len = s.len();
        Some(())
    }
}
