// A text in one call: its pieces are booked one after another, behind one damage check and by one index.
#![tactic(auto)]

ghost use Rattle.std.specs.Prelude.{◌≡◌, true};
ghost use Rattle.refusal.specs.Answer.{answer_of, code_of};
ghost use Rattle.book_all.specs.Promises.{BooksAll};
ghost use Rattle.lookup.specs.Lent.{SameLent};

use lookup::Day;
use refusal::Refusal;
use table::damage;

// How much of a text was used.
#[derive(Clone, Copy)]
pub struct Used {
    pub bytes: usize,
    pub pieces: usize,
}

// The answer to a piece as one number.
fn answer(x: Result<(), Refusal>) -> u32
    ensures { result ≡ code_of (answer_of x) }
{
    match x {
        Ok(()) => 0,
        Err(y) => refusal::code(y),
    }
}

// Until the text ends or the answers are full. The table is sound by proof: no piece pays for a damage check.
fn book_pieces(day: &mut Day<'_>, text: &[u8], answers: &mut [u32]) -> Used
    ensures books { BooksAll day.old.table.now text.now answers.old (Ok result) day.new.table.now answers.new }
    ensures same { SameLent day.old day.new }
{
    let mut bytes = 0;
    for pieces in 0..answers.len() {
        if text.len() <= bytes {
            return Used { bytes, pieces };
        }
        let cut = piece::cut(text, bytes);
        let said = book::book_sound(day, &text[bytes..cut.end], cut.plain);
        answers[pieces] = answer(said);
        bytes = cut.end;
    }
    let pieces = answers.len();
    Used { bytes, pieces }
}

// Any bytes for a table, any text, any number of answers. A damaged table is refused before anything.
#[tactic(auto, using(table::proofs::Limits::limit_most))]
pub fn book(t: &mut [u8], text: &[u8], answers: &mut [u32]) -> Result<Used, Refusal>
    ensures { BooksAll t.old text.now answers.old result t.new answers.new }
{
    if !damage::is_sound(t) {
        return Err(Refusal::Damaged);
    }
    let mut heads = [0; lookup::HEADS];
    let mut nexts = [0; lookup::NEXTS];
    let mut day = lookup::indexed(t, &mut heads, &mut nexts);
    Ok(book_pieces(&mut day, text, answers))
}
