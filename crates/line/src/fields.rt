// Reading a piece. The fields are read a group at a time: a chain of all 24 is more than the prover takes at once. Each field reader's answer is taken apart by
// `let .. else`, whose else returns refusal 3 with the field's number: 01, Which places take which form.
ghost use Rattle.std.specs.Prelude.{◌≡◌, true, length};
ghost use Rattle.run.specs.Runs.{same};
ghost use Rattle.layout.specs.Line.{crlf, printable};
ghost use Rattle.line.specs.Groups.{group, numbers_by, timestamp_of, none_by, contracts_of, series_of, ids_of, grouped, line_by};
ghost use Rattle.line.specs.Promises.{Read};

use crate::Said;
use field::{Class, digits, verbatim};
use layout::Numbers;
use refusal::Refusal;

// A piece of any length and content. It is refused by the first rule that it breaks.
pub fn read(piece: &[u8]) -> Result<Said, Refusal>
    ensures { Read piece.now result }
{
    read_in(piece, false)
}

// The same for a piece whose fields may be known to be printable: those of a plain one are not looked through again.
pub fn read_in(piece: &[u8], plain: bool) -> Result<Said, Refusal>
    requires { plain ≡ true → printable piece.now ≡ true }
    ensures { Read piece.now result }
{
    if is_crlf(piece) {
        return Ok(Said::EndOfDay);
    }
    if piece.len() != layout::LINE {
        return Err(Refusal::NoLine);
    }
    if !is_crlf(&piece[layout::FIELDS..]) {
        return Err(Refusal::NoLine);
    }
    if !is_printable(piece, plain) {
        return Err(Refusal::BadByte);
    }
    by_fields(piece)
}

fn is_crlf(s: &[u8]) -> bool
    ensures { result ≡ same s.now crlf }
{
    s.len() == 2 && (s[0] == b'\r') & (s[1] == b'\n')
}

fn is_printable(piece: &[u8], plain: bool) -> bool
    requires piece_len { length piece.now ≡ 140 }
    requires piece_value { plain ≡ true → printable piece.now ≡ true }
    ensures { result ≡ printable piece.now }
{
    plain || verbatim::all_of(&piece[0..layout::FIELDS], Class::Printable)
}

// The reading of a line by its fields.
fn by_fields(s: &[u8]) -> Result<Said, Refusal>
    requires s_len { length s.now ≡ 140 }
    requires s_value { printable s.now ≡ true }
    ensures { result ≡ line_by (group 0 24 s.now) }
{
    let n = numbers(s)?;
    Ok(Said::Line(record::record_of(s, n)))
}

// The numbers of all groups. Each group is asked before any answer is looked at: behind an early exit a call counts as rare, so
// that it is not inlined and its answer goes through memory.
fn numbers(s: &[u8]) -> Result<Numbers, Refusal>
    requires s_len { length s.now ≡ 140 }
    requires s_value { printable s.now ≡ true }
    ensures { result ≡ grouped s.now }
{
    let event = event_fields(s);
    let account = account_fields(s);
    let order = order_fields(s);
    let price = price_fields(s);
    let trade = trade_fields(s);
    let a = event?;
    account?;
    let c = order?;
    let d = price?;
    let e = trade?;
    Ok(Numbers {
        timestamp: a.timestamp,
        contracts: c.contracts,
        match_id: e.match_id,
        cross_id: e.cross_id,
        ..d
    })
}

// Fields 1 to 6.
fn event_fields(s: &[u8]) -> Result<Numbers, Refusal>
    requires s_len { length s.now ≡ 140 }
    requires s_value { printable s.now ≡ true }
    ensures { result ≡ numbers_by timestamp_of (group 0 6 s.now) }
{
    let Some(timestamp) = digits::number(&s[0..8], 0, layout::LAST_TIMESTAMP) else {
        return Err(Refusal::Field(1));
    };
    let true = verbatim::code(&s[8..9], &layout::TYPES) else {
        return Err(Refusal::Field(2));
    };
    let true = verbatim::text_in(&s[9..13]) else {
        return Err(Refusal::Field(3));
    };
    let true = verbatim::code(&s[13..14], &layout::CAPACITIES) else {
        return Err(Refusal::Field(4));
    };
    let true = verbatim::code(&s[14..15], &layout::POSITIONS) else {
        return Err(Refusal::Field(5));
    };
    let true = layout::liquidity(&s[15..16], layout::is_trade(s[8])) else {
        return Err(Refusal::Field(6));
    };
    Ok(Numbers {
        timestamp,
        ..Numbers::default()
    })
}

// Fields 7 to 12.
fn account_fields(s: &[u8]) -> Result<(), Refusal>
    requires s_len { length s.now ≡ 140 }
    requires s_value { printable s.now ≡ true }
    ensures { result ≡ none_by (group 6 12 s.now) }
{
    let true = verbatim::text_or_blank_in(&s[16..20]) else {
        return Err(Refusal::Field(7));
    };
    let true = verbatim::digits_or_blank(&s[20..25]) else {
        return Err(Refusal::Field(8));
    };
    let true = verbatim::digits_or_blank(&s[25..30]) else {
        return Err(Refusal::Field(9));
    };
    let true = verbatim::text_in(&s[30..36]) else {
        return Err(Refusal::Field(10));
    };
    let true = verbatim::text_in(&s[36..56]) else {
        return Err(Refusal::Field(11));
    };
    let true = layout::replaced(&s[56..76], layout::is_replace(s[8])) else {
        return Err(Refusal::Field(12));
    };
    Ok(())
}

// Fields 13 to 17.
fn order_fields(s: &[u8]) -> Result<Numbers, Refusal>
    requires s_len { length s.now ≡ 140 }
    requires s_value { printable s.now ≡ true }
    ensures { result ≡ numbers_by contracts_of (group 12 17 s.now) }
{
    let true = verbatim::hex(&s[76..85]) else {
        return Err(Refusal::Field(13));
    };
    let true = verbatim::code(&s[85..86], &layout::SIDES) else {
        return Err(Refusal::Field(14));
    };
    let contracts = digits::number(&s[86..92], layout::LEAST_CONTRACTS, layout::MOST_CONTRACTS);
    let Some(contracts) = contracts else {
        return Err(Refusal::Field(15));
    };
    let true = verbatim::text_in(&s[92..98]) else {
        return Err(Refusal::Field(16));
    };
    let true = verbatim::code(&s[98..99], &layout::MONTHS) else {
        return Err(Refusal::Field(17));
    };
    Ok(Numbers {
        contracts,
        ..Numbers::default()
    })
}

// Fields 18 to 22: the date and year, the strike, the price.
fn price_fields(s: &[u8]) -> Result<Numbers, Refusal>
    requires { length s.now ≡ 140 }
    ensures { result ≡ numbers_by series_of (group 17 22 s.now) }
{
    let Some(date) = digits::exactly(&s[99..101], layout::FIRST_DATE, layout::LAST_DATE) else {
        return Err(Refusal::Field(18));
    };
    let Some(year) = digits::exactly(&s[101..103], 0, layout::LAST_YEAR) else {
        return Err(Refusal::Field(19));
    };
    let true = verbatim::code(&s[103..104], &layout::DENOMINATORS) else {
        return Err(Refusal::Field(20));
    };
    let least = layout::least_strike(s[103]);
    let Some(strike) = digits::exactly(&s[104..110], least, layout::MOST_STRIKE) else {
        return Err(Refusal::Field(21));
    };
    let Some(price) = digits::price(&s[110..120]) else {
        return Err(Refusal::Field(22));
    };
    Ok(Numbers {
        date,
        year,
        strike,
        price,
        ..Numbers::default()
    })
}

// Fields 23 and 24.
fn trade_fields(s: &[u8]) -> Result<Numbers, Refusal>
    requires { length s.now ≡ 140 }
    ensures { result ≡ numbers_by ids_of (group 22 24 s.now) }
{
    let trade = layout::is_trade(s[8]);
    let Some(match_id) = layout::id(&s[120..129], trade) else {
        return Err(Refusal::Field(23));
    };
    let Some(cross_id) = layout::id(&s[129..138], trade) else {
        return Err(Refusal::Field(24));
    };
    Ok(Numbers {
        match_id,
        cross_id,
        ..Numbers::default()
    })
}
