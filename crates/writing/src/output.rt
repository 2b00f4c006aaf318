// Writing a record. The fields are written a group at a time, as they are read and checked.
ghost use Rattle.std.specs.Prelude.{◌+◌, ◌≤◌, ◌≡◌, length};
ghost use Rattle.std.proofs.lemmas.List.Edits.{sets};
ghost use Rattle.writing.specs.Promises.{Write};
ghost use Rattle.writing.specs.Writes.{id_text, line_from};

use crate::lawful;
use field::put;
use layout::Record;
use refusal::Refusal;

// Any record, into a buffer of any length. On a refusal no byte of it is changed.
pub fn write(r: Record, out: &mut [u8]) -> Result<(), Refusal>
    ensures { Write r out.old result out.new }
{
    if out.len() < layout::LINE {
        return Err(Refusal::NoRoom);
    }
    lawful::check(r)?;
    event_fields(r, out);
    Ok(())
}

// A match or cross id, blank where the event carries none.
fn id(out: &mut [u8], at: usize, trade: bool, v: u64)
    requires { at + 9 ≤ length out.old }
    ensures { out.new ≡ sets out.old at (id_text trade v) }
{
    if trade {
        put::filled(out, at, 9, v, b' ');
    } else {
        run::store(out, at, b"         ");
    }
}

// Fields 1 to 6.
fn event_fields(r: Record, out: &mut [u8])
    requires { 140 ≤ length out.old }
    ensures { out.new ≡ sets out.old 0 (line_from 0 r) }
{
    let trade = record::trade_of(r.event);
    put::filled(out, 0, 8, r.timestamp, b' ');
    run::byte(out, 8, record::type_of(r.event));
    run::store(out, 9, &r.firm);
    run::byte(out, 13, r.capacity);
    run::byte(out, 14, r.position);
    run::byte(out, 15, trade.liquidity);
    account_fields(r, out);
}

// Fields 7 to 12.
fn account_fields(r: Record, out: &mut [u8])
    requires { 140 ≤ length out.old }
    ensures { out.new ≡ sets out.old 16 (line_from 6 r) }
{
    run::store(out, 16, &r.account);
    run::store(out, 20, &r.member);
    run::store(out, 25, &r.clearing);
    run::store(out, 30, &r.source);
    run::store(out, 36, &r.token);
    run::store(out, 56, &r.replaced);
    order_fields(r, out);
}

// Fields 13 to 17.
fn order_fields(r: Record, out: &mut [u8])
    requires { 140 ≤ length out.old }
    ensures { out.new ≡ sets out.old 76 (line_from 12 r) }
{
    run::store(out, 76, &r.reference);
    run::byte(out, 85, r.side);
    put::filled(out, 86, 6, r.contracts, b' ');
    run::store(out, 92, &r.root);
    run::byte(out, 98, r.month);
    price_fields(r, out);
}

// Fields 18 to 22: the date and year, the strike, the price.
fn price_fields(r: Record, out: &mut [u8])
    requires { 140 ≤ length out.old }
    ensures { out.new ≡ sets out.old 99 (line_from 17 r) }
{
    put::filled(out, 99, 2, r.date, b'0');
    put::filled(out, 101, 2, r.year, b'0');
    run::byte(out, 103, r.denominator);
    put::filled(out, 104, 6, r.strike, b'0');
    put::price(out, 110, 10, r.price);
    trade_fields(r, out);
}

// Fields 23 and 24, and the end of the line.
fn trade_fields(r: Record, out: &mut [u8])
    requires { 140 ≤ length out.old }
    ensures { out.new ≡ sets out.old 120 (line_from 22 r) }
{
    let trade = record::trade_of(r.event);
    let on = layout::is_trade(record::type_of(r.event));
    id(out, 120, on, trade.match_id);
    id(out, 129, on, trade.cross_id);
    run::store(out, layout::FIELDS, b"\r\n");
}
