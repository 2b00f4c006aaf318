// The cutter: pieces of a slice from a number on. A reader is taken apart and handed to it.
ghost use Rattle.std.specs.Prelude.{◌≡◌};
ghost use Rattle.reader.specs.Starting.{place_behind};
ghost use Rattle.reader.specs.Handed.{VeryBytes};

// The place behind the piece that starts at a place; at or past the end the place itself.
pub fn behind(text: &[u8], at: usize) -> usize
    ensures { result ≡ place_behind text.now at }
{
    piece::next(text, at).unwrap_or(at)
}

// The piece that starts at a place; at or past the end the empty end of the text.
pub fn cut(text: &[u8], at: usize) -> &[u8]
    ensures { VeryBytes text.entry at result }
{
    match piece::next(text, at) {
        Some(end) => &text[at..end],
        None => &text[text.len()..],
    }
}
