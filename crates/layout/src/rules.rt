// The table of 01, The line, as code has it: the length of a line, its code lists and bounds, once each, and the fields whose rule goes by the type or the denominator.
ghost use Rattle.std.specs.Prelude.{◌≤◌, ◌&&◌, ◌≡◌, eqb, leb, length};
ghost use Rattle.message.specs.Rule.{code, text, verbatim as rule_verbatim};
ghost use Rattle.layout.specs.Layout.{is_trade, liquidities, least_strike};
ghost use Rattle.layout.specs.Strikes.{lawful_strike};
ghost use Rattle.layout.specs.ByType.{bytes_on, id_on};
ghost use Rattle.layout.specs.Kept.{kept};

use field::{digits, verbatim};
use refusal::Refusal;

// A line in bytes, CR LF included, and its fields alone.
pub const LINE: usize = 140;

pub const FIELDS: usize = 138;

// Where the Source begins, and where the Token ends that stands behind it: between them is the key of a line.
pub const SOURCE: usize = 30;

pub const REPLACED: usize = 56;

pub const TYPES: [u8; 6] = *b"AEXCUR";

pub const CAPACITIES: [u8; 8] = *b"CFMPBOJN";

pub const POSITIONS: [u8; 2] = *b"OC";

const LIQUIDITIES: [u8; 6] = *b"AROarJ";

pub const SIDES: [u8; 2] = *b"BS";

pub const MONTHS: [u8; 24] = *b"ABCDEFGHIJKLMNOPQRSTUVWX";

pub const DENOMINATORS: [u8; 5] = *b"ABCDE";

// The bounds. A least that doesn't stand here is 0.
pub const LAST_TIMESTAMP: u64 = 86_399_999;

pub const LEAST_CONTRACTS: u64 = 1;

pub const MOST_CONTRACTS: u64 = 999_999;

pub const FIRST_DATE: u64 = 1;

pub const LAST_DATE: u64 = 31;

pub const LAST_YEAR: u64 = 99;

pub const MOST_STRIKE: u64 = 999_999;

pub const MOST_PRICE: u64 = 9_999_999_999;

pub const MOST_ID: u64 = 999_999_999;

pub fn within(v: u64, least: u64, most: u64) -> bool
    ensures { result ≡ (leb least v && leb v most) }
{
    (least <= v) & (v <= most)
}

// Liquidity, Match Id and Cross Id stand on E and C.
pub fn is_trade(t: u8) -> bool
    ensures { result ≡ is_trade t }
{
    (t == b'E') | (t == b'C')
}

// The replaced token stands on U.
pub fn is_replace(t: u8) -> bool
    ensures { result ≡ eqb t 85 }
{
    t == b'U'
}

pub fn liquidity(s: &[u8], trade: bool) -> bool
    ensures { result ≡ bytes_on trade (code liquidities) s.now }
{
    if trade {
        verbatim::code(s, &LIQUIDITIES)
    } else {
        verbatim::blank(s)
    }
}

pub fn replaced(s: &[u8], replace: bool) -> bool
    ensures { result ≡ bytes_on replace (rule_verbatim text) s.now }
{
    if replace {
        verbatim::text(s)
    } else {
        verbatim::blank(s)
    }
}

// An id may be any number that its bytes hold, so none is too large. Who does not ask for it then does not pay for it.
pub fn id(s: &[u8], trade: bool) -> Option<u64>
    requires { length s.now ≤ 9 }
    ensures { result ≡ id_on trade s.now }
{
    if trade {
        digits::spaced(s)
    } else {
        verbatim::blank(s).then_some(0)
    }
}

// Under A to D the first of a strike's digits isn't 0; under E not all of them are.
pub fn least_strike(denominator: u8) -> u64
    ensures { result ≡ least_strike denominator }
{
    if denominator == b'E' { 1 } else { 100_000 }
}

// A strike's six digits under a denominator.
pub fn lawful_strike(denominator: u8, digits: u64) -> bool
    ensures { result ≡ lawful_strike denominator digits }
{
    within(digits, least_strike(denominator), MOST_STRIKE)
}

// A field that keeps its rule, or the refusal that names it.
pub fn keep(lawful: bool, field: u8) -> Result<(), Refusal>
    ensures { result ≡ kept lawful field }
{
    if lawful {
        Ok(())
    } else {
        Err(Refusal::Field(field))
    }
}
