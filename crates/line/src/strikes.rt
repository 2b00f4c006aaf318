// A strike's value in hundred-thousandths of a dollar, and the form of a value.
ghost use Rattle.std.specs.Prelude.{◌≡◌};
ghost use Rattle.layout.specs.Strikes.{unit as strikes_unit};
ghost use Rattle.line.specs.Promises.{StrikeValued, StrikeFormed};
ghost use Rattle.line.specs.Groups.{form_of};

use layout::{Strike, keep};
use refusal::Refusal;

// What one of a strike's digits counts for.
fn unit(denominator: u8) -> u64
    ensures { result ≡ strikes_unit denominator }
{
    match denominator {
        b'A' => 10000,
        b'B' => 1000,
        b'C' => 100,
        b'D' => 10,
        _ => 1,
    }
}

// Refused where no line can have the denominator, field 20, or the digits under it, field 21.
#[tactic(auto, unfolding(layout::specs::Strikes::strike_value))]
pub fn strike_value(denominator: u8, digits: u64) -> Result<u64, Refusal>
    ensures { StrikeValued denominator digits result }
{
    keep(run::member(denominator, &layout::DENOMINATORS), 20)?;
    keep(layout::lawful_strike(denominator, digits), 21)?;
    Ok(digits * unit(denominator))
}

// The form under one code, if it is one.
fn form_under(denominator: u8, value: u64) -> Option<Strike>
    ensures { result ≡ form_of denominator value }
{
    let unit = unit(denominator);
    let digits = value / unit;
    ((value % unit == 0) & layout::lawful_strike(denominator, digits)).then_some(Strike {
        denominator,
        digits,
    })
}

// Refused where no code and digits have the value.
#[tactic(auto, unfolding(layout::specs::Strikes::strike_form))]
pub fn strike_form(value: u64) -> Result<Strike, Refusal>
    ensures { StrikeFormed value result }
{
    form_under(b'E', value)
        .or(form_under(b'D', value))
        .or(form_under(b'C', value))
        .or(form_under(b'B', value))
        .or(form_under(b'A', value))
        .ok_or(Refusal::Field(21))
}
