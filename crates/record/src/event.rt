// An event from its letter and its trade, and back.
ghost use Rattle.std.specs.Prelude.{◌≡◌};
ghost use Rattle.layout.specs.Records.{event_of, trade_of, type_of};

use layout::{Event, Trade};

pub(crate) fn event_of(t: u8, trade: Trade) -> Event
    ensures { result ≡ event_of t trade }
{
    match t {
        b'A' => Event::Accepted,
        b'E' => Event::Executed(trade),
        b'X' => Event::Cancelled,
        b'C' => Event::Broken(trade),
        b'U' => Event::Replaced,
        _ => Event::Repriced,
    }
}

// The letter of an event.
pub fn type_of(event: Event) -> u8
    ensures { result ≡ type_of event }
{
    match event {
        Event::Accepted => b'A',
        Event::Executed(_) => b'E',
        Event::Cancelled => b'X',
        Event::Broken(_) => b'C',
        Event::Replaced => b'U',
        Event::Repriced => b'R',
    }
}

// Where an event carries no trade, the blank liquidity and ids of 0, which are lawful.
pub fn trade_of(event: Event) -> Trade
    ensures { result ≡ trade_of event }
{
    match event {
        Event::Executed(trade) | Event::Broken(trade) => trade,
        _ => Trade {
            liquidity: b' ',
            match_id: 0,
            cross_id: 0,
        },
    }
}
