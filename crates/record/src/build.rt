// The record that bytes say at the places of the layout, its numbers read apart.
ghost use Rattle.std.specs.Prelude.{◌≤◌, ◌≡◌, length};
ghost use Rattle.layout.specs.Records.{event_from, record_from};

use crate::event::event_of;
use layout::{Event, Numbers, Record, Trade};
use run::array;

fn event(s: &[u8], n: Numbers) -> Event
    requires { 138 ≤ length s.now }
    ensures { result ≡ event_from n s.now }
{
    let trade = Trade {
        liquidity: s[15],
        match_id: n.match_id,
        cross_id: n.cross_id,
    };
    event_of(s[8], trade)
}

// Of a line, or of the 138 bytes that a host gives, lawful or not.
pub fn record_of(s: &[u8], n: Numbers) -> Record
    requires { 138 ≤ length s.now }
    ensures { result ≡ record_from n s.now }
{
    Record {
        timestamp: n.timestamp,
        event: event(s, n),
        firm: array(s, 9),
        capacity: s[13],
        position: s[14],
        account: array(s, 16),
        member: array(s, 20),
        clearing: array(s, 25),
        source: array(s, 30),
        token: array(s, 36),
        replaced: array(s, 56),
        reference: array(s, 76),
        side: s[85],
        contracts: n.contracts,
        root: array(s, 92),
        month: s[98],
        date: n.date,
        year: n.year,
        denominator: s[103],
        strike: n.strike,
        price: n.price,
    }
}
