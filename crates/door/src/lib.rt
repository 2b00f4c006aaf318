// The door for hosts: every public operation over numbers, byte slices and lent numbers. Each answers 0, or the refusal's number plus 256 times its
// field; a refusal changes no lent number and no lent byte. `door_c` hands each to C.
#![tactic(auto)]

ghost use Rattle.std.specs.Prelude.{◌≡◌, ◌≤◌, length};
ghost use Rattle.refusal.specs.Answer.{answer_of, code_of};
ghost use Rattle.layout.specs.Line.{unlawful};
ghost use Rattle.image.specs.Images.{record_in, sooner};
ghost use Rattle.door.specs.Promises.{BooksAllIn, BooksIn, Checks, Clocks, Empties, Finds, NextPieces, OrdersAt, QuotesAt, Reads, SheetsIn, StrikeForms, StrikeValues, Writes};

use line::Said;
use refusal::Refusal;
use table::damage;

const DONE: u32 = 0;

// An answer as one number.
fn code_of<T: Drop>(answer: Result<T, Refusal>) -> u32
    ensures { result ≡ code_of (answer_of answer) }
{
    match answer {
        Ok(_) => DONE,
        Err(x) => refusal::code(x),
    }
}

// A piece as the 138 bytes of its record; kind is then 1. The end of the day is kind 0 and writes no record.
pub fn skurzelt_read(piece: &[u8], record: &mut [u8], kind: &mut u64) -> u32
    ensures { Reads piece.now «record».old kind.old result «record».new kind.new }
{
    if record.len() < image::RECORD {
        return refusal::code(Refusal::NoRoom);
    }
    match line::read(piece) {
        Ok(Said::EndOfDay) => {
            *kind = 0;
            DONE
        }
        Ok(Said::Line(r)) => {
            image::store(r, piece, record);
            *kind = 1;
            DONE
        }
        Err(x) => refusal::code(x),
    }
}

// The first field in the way of writing, where odd is that of the first byte without meaning: the rules are looked at for it only where there is one.
fn first_field(b: &[u8], odd: u8) -> u8
    requires b_len { length b.now ≡ 138 }
    requires le_odd { 1 ≤ odd }
    ensures { result ≡ sooner odd (unlawful (record_in b.now)) }
{
    match writing::check(image::load(b)) {
        Err(Refusal::Field(n)) => n.min(odd),
        _ => odd,
    }
}

// A record of 138 bytes as its line.
pub fn skurzelt_write(record: &[u8], line: &mut [u8]) -> u32
    ensures { Writes «record».now line.old result line.new }
{
    if line.len() < layout::LINE {
        return refusal::code(Refusal::NoRoom);
    }
    if record.len() != image::RECORD {
        return refusal::code(Refusal::Field(24));
    }
    match image::unmeant(record) {
        Some(odd) => refusal::code(Refusal::Field(first_field(record, odd))),
        None => code_of(writing::write(image::load(record), line)),
    }
}

pub fn skurzelt_strike_value(denominator: u8, strike: u64, value: &mut u64) -> u32
    ensures { StrikeValues denominator strike value.old result value.new }
{
    let answer = line::strike_value(denominator, strike);
    if let Ok(v) = answer {
        *value = v;
    }
    code_of(answer)
}

pub fn skurzelt_strike_form(value: u64, denominator: &mut u64, strike: &mut u64) -> u32
    ensures { StrikeForms value denominator.old strike.old result denominator.new strike.new }
{
    let answer = line::strike_form(value);
    if let Ok(f) = answer {
        *denominator = f.denominator as u64;
        *strike = f.digits;
    }
    code_of(answer)
}

pub fn skurzelt_clock(
    timestamp: u64,
    hours: &mut u64,
    minutes: &mut u64,
    seconds: &mut u64,
    milliseconds: &mut u64,
) -> u32
    ensures { Clocks timestamp hours.old minutes.old seconds.old milliseconds.old result hours.new minutes.new seconds.new milliseconds.new }
{
    let answer = line::clock(timestamp);
    if let Ok(t) = answer {
        *hours = t.hours;
        *minutes = t.minutes;
        *seconds = t.seconds;
        *milliseconds = t.milliseconds;
    }
    code_of(answer)
}

pub fn skurzelt_empty_table(table: &mut [u8]) -> u32
    ensures { Empties table.old result table.new }
{
    code_of(table::make_empty(table))
}

pub fn skurzelt_check_table(table: &[u8]) -> u32
    ensures { Checks table.now result }
{
    if damage::is_sound(table) {
        return DONE;
    }
    refusal::code(Refusal::Damaged)
}

// The place of the earliest order with a key.
pub fn skurzelt_find_order(table: &[u8], key: &[u8], place: &mut u64) -> u32
    ensures { Finds table.now key.now place.old result place.new }
{
    let answer = table::look_up(table, key);
    if let Ok(i) = answer {
        *place = i as u64;
    }
    code_of(answer)
}

// The 80 bytes of the order at a place.
pub fn skurzelt_order_at(table: &[u8], place: u64, order: &mut [u8]) -> u32
    ensures { OrdersAt table.now place order.old result order.new }
{
    code_of(table::copy_order(table, place as usize, order))
}

// The 49 bytes of the quote row at a place.
pub fn skurzelt_quote_at(table: &[u8], place: u64, row: &mut [u8]) -> u32
    ensures { QuotesAt table.now place row.old result row.new }
{
    code_of(table::copy_row(table, place as usize, row))
}

pub fn skurzelt_book(table: &mut [u8], piece: &[u8]) -> u32
    ensures { BooksIn table.old piece.now result table.new }
{
    code_of(book::book(table, piece))
}

// A text in one call: answers has 0 or a refusal for each piece, used is how many bytes of the text were used, booked how many pieces.
pub fn skurzelt_book_all(
    table: &mut [u8],
    text: &[u8],
    answers: &mut [u32],
    used: &mut u64,
    booked: &mut u64,
) -> u32
    ensures { BooksAllIn table.old text.now answers.old used.old booked.old result table.new answers.new used.new booked.new }
{
    let answer = book_all::book(table, text, answers);
    if let Ok(u) = answer {
        *used = u.bytes as u64;
        *booked = u.pieces as u64;
    }
    code_of(answer)
}

// The family sheet; written is how many bytes it has.
pub fn skurzelt_sheet(table: &[u8], out: &mut [u8], written: &mut u64) -> u32
    ensures { SheetsIn table.now out.old written.old result out.new written.new }
{
    let answer = sheet::write(table, out);
    if let Ok(n) = answer {
        *written = n as u64;
    }
    code_of(answer)
}

// The place behind the piece that starts at a place; where nothing is left, that place.
pub fn skurzelt_next_piece(text: &[u8], at: u64, end: &mut u64) -> u32
    ensures { NextPieces text.now at result end.new }
{
    *end = piece::next(text, at as usize).unwrap_or(at as usize) as u64;
    DONE
}
