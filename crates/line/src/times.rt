// The time of day that a timestamp means.
ghost use Rattle.line.specs.Promises.{Clocked};

use layout::{Clock, keep};
use refusal::Refusal;

// A timestamp is in milliseconds. Refused where no line can have it, field 1.
#[tactic(auto, unfolding(layout::specs::Clocks::clock))]
pub fn clock(timestamp: u64) -> Result<Clock, Refusal>
    ensures { Clocked timestamp result }
{
    keep(layout::within(timestamp, 0, layout::LAST_TIMESTAMP), 1)?;
    Ok(Clock {
        hours: timestamp / 3600000,
        minutes: timestamp / 60000 % 60,
        seconds: timestamp / 1000 % 60,
        milliseconds: timestamp % 1000,
    })
}
