// Whether a record is lawful. The fields are checked a group at a time, as they are read.
ghost use Rattle.std.specs.Prelude.{◌≡◌};
ghost use Rattle.layout.specs.Line.{unlawful};
ghost use Rattle.writing.specs.Writes.{check_of, check_group};

use field::verbatim;
use layout::{Record, keep};
use refusal::Refusal;

// Refused with the first unlawful field, if there is one.
pub fn check(r: Record) -> Result<(), Refusal>
    ensures { result ≡ check_of (unlawful r) }
{
    event_fields(r)?;
    account_fields(r)?;
    order_fields(r)?;
    price_fields(r)?;
    trade_fields(r)?;
    Ok(())
}

// Fields 1 to 6. Field 2 is lawful in any record, since an event has no other type.
fn event_fields(r: Record) -> Result<(), Refusal>
    ensures { result ≡ check_group 0 6 r }
{
    let trade = record::trade_of(r.event);
    let on = layout::is_trade(record::type_of(r.event));
    keep(layout::within(r.timestamp, 0, layout::LAST_TIMESTAMP), 1)?;
    keep(verbatim::text(&r.firm), 3)?;
    keep(run::member(r.capacity, &layout::CAPACITIES), 4)?;
    keep(run::member(r.position, &layout::POSITIONS), 5)?;
    keep(layout::liquidity(&[trade.liquidity], on), 6)?;
    Ok(())
}

// Fields 7 to 12.
fn account_fields(r: Record) -> Result<(), Refusal>
    ensures { result ≡ check_group 6 12 r }
{
    let on = layout::is_replace(record::type_of(r.event));
    keep(verbatim::text_or_blank(&r.account), 7)?;
    keep(verbatim::digits_or_blank(&r.member), 8)?;
    keep(verbatim::digits_or_blank(&r.clearing), 9)?;
    keep(verbatim::text(&r.source), 10)?;
    keep(verbatim::text(&r.token), 11)?;
    keep(layout::replaced(&r.replaced, on), 12)?;
    Ok(())
}

// Fields 13 to 17.
fn order_fields(r: Record) -> Result<(), Refusal>
    ensures { result ≡ check_group 12 17 r }
{
    keep(verbatim::hex(&r.reference), 13)?;
    keep(run::member(r.side, &layout::SIDES), 14)?;
    let contracts = layout::within(r.contracts, layout::LEAST_CONTRACTS, layout::MOST_CONTRACTS);
    keep(contracts, 15)?;
    keep(verbatim::text(&r.root), 16)?;
    keep(run::member(r.month, &layout::MONTHS), 17)?;
    Ok(())
}

// Fields 18 to 22: the date and year, the strike, the price.
fn price_fields(r: Record) -> Result<(), Refusal>
    ensures { result ≡ check_group 17 22 r }
{
    keep(
        layout::within(r.date, layout::FIRST_DATE, layout::LAST_DATE),
        18,
    )?;
    keep(layout::within(r.year, 0, layout::LAST_YEAR), 19)?;
    keep(run::member(r.denominator, &layout::DENOMINATORS), 20)?;
    keep(layout::lawful_strike(r.denominator, r.strike), 21)?;
    keep(layout::within(r.price, 0, layout::MOST_PRICE), 22)?;
    Ok(())
}

// Fields 23 and 24.
fn trade_fields(r: Record) -> Result<(), Refusal>
    ensures { result ≡ check_group 22 24 r }
{
    let trade = record::trade_of(r.event);
    keep(layout::within(trade.match_id, 0, layout::MOST_ID), 23)?;
    keep(layout::within(trade.cross_id, 0, layout::MOST_ID), 24)?;
    Ok(())
}
