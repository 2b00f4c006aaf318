// What C calls: each function of the door under its own name, with its clauses. include/skurzelt.h says it for people.
#![tactic(auto)]

ghost use Rattle.door.specs.Promises.{BooksAllIn, BooksIn, Checks, Clocks, Empties, Finds, NextPieces, OrdersAt, QuotesAt, Reads, SheetsIn, StrikeForms, StrikeValues, Writes};

#[unsafe(no_mangle)]
pub extern "C" fn skurzelt_read(piece: &[u8], record: &mut [u8], kind: &mut u64) -> u32
    ensures { Reads piece.now «record».old kind.old result «record».new kind.new }
{
    door::skurzelt_read(piece, record, kind)
}

#[unsafe(no_mangle)]
pub extern "C" fn skurzelt_write(record: &[u8], line: &mut [u8]) -> u32
    ensures { Writes «record».now line.old result line.new }
{
    door::skurzelt_write(record, line)
}

#[unsafe(no_mangle)]
pub extern "C" fn skurzelt_strike_value(denominator: u8, strike: u64, value: &mut u64) -> u32
    ensures { StrikeValues denominator strike value.old result value.new }
{
    door::skurzelt_strike_value(denominator, strike, value)
}

#[unsafe(no_mangle)]
pub extern "C" fn skurzelt_strike_form(value: u64, denominator: &mut u64, strike: &mut u64) -> u32
    ensures { StrikeForms value denominator.old strike.old result denominator.new strike.new }
{
    door::skurzelt_strike_form(value, denominator, strike)
}

#[unsafe(no_mangle)]
pub extern "C" fn skurzelt_clock(
    timestamp: u64,
    hours: &mut u64,
    minutes: &mut u64,
    seconds: &mut u64,
    milliseconds: &mut u64,
) -> u32
    ensures { Clocks timestamp hours.old minutes.old seconds.old milliseconds.old result hours.new minutes.new seconds.new milliseconds.new }
{
    door::skurzelt_clock(timestamp, hours, minutes, seconds, milliseconds)
}

#[unsafe(no_mangle)]
pub extern "C" fn skurzelt_empty_table(table: &mut [u8]) -> u32
    ensures { Empties table.old result table.new }
{
    door::skurzelt_empty_table(table)
}

#[unsafe(no_mangle)]
pub extern "C" fn skurzelt_check_table(table: &[u8]) -> u32
    ensures { Checks table.now result }
{
    door::skurzelt_check_table(table)
}

#[unsafe(no_mangle)]
pub extern "C" fn skurzelt_find_order(table: &[u8], key: &[u8], place: &mut u64) -> u32
    ensures { Finds table.now key.now place.old result place.new }
{
    door::skurzelt_find_order(table, key, place)
}

#[unsafe(no_mangle)]
pub extern "C" fn skurzelt_order_at(table: &[u8], place: u64, order: &mut [u8]) -> u32
    ensures { OrdersAt table.now place order.old result order.new }
{
    door::skurzelt_order_at(table, place, order)
}

#[unsafe(no_mangle)]
pub extern "C" fn skurzelt_quote_at(table: &[u8], place: u64, row: &mut [u8]) -> u32
    ensures { QuotesAt table.now place row.old result row.new }
{
    door::skurzelt_quote_at(table, place, row)
}

#[unsafe(no_mangle)]
pub extern "C" fn skurzelt_book(table: &mut [u8], piece: &[u8]) -> u32
    ensures { BooksIn table.old piece.now result table.new }
{
    door::skurzelt_book(table, piece)
}

#[unsafe(no_mangle)]
pub extern "C" fn skurzelt_book_all(
    table: &mut [u8],
    text: &[u8],
    answers: &mut [u32],
    used: &mut u64,
    booked: &mut u64,
) -> u32
    ensures { BooksAllIn table.old text.now answers.old used.old booked.old result table.new answers.new used.new booked.new }
{
    door::skurzelt_book_all(table, text, answers, used, booked)
}

#[unsafe(no_mangle)]
pub extern "C" fn skurzelt_sheet(table: &[u8], out: &mut [u8], written: &mut u64) -> u32
    ensures { SheetsIn table.now out.old written.old result out.new written.new }
{
    door::skurzelt_sheet(table, out, written)
}

#[unsafe(no_mangle)]
pub extern "C" fn skurzelt_next_piece(text: &[u8], at: u64, end: &mut u64) -> u32
    ensures { NextPieces text.now at result end.new }
{
    door::skurzelt_next_piece(text, at, end)
}
