// What the conditions of refusals 7 to 12 ask of a line: of its event, and of the order that it speaks of, by value.
ghost use Rattle.std.specs.Prelude.{◌≡◌};
ghost use Rattle.order.specs.Figure.{Sound};
ghost use Rattle.day.specs.History.{is_execution, is_maker, is_new, is_replace};
ghost use Rattle.day.specs.Quotes.{is_fill};
ghost use Rattle.day.specs.Machine.{found, differs as machine_differs, not_open, not_executed};
ghost use Rattle.book.specs.Plans.{order_with};

use layout::{Event, Record};
use slot::Asked;

pub fn is_new(event: Event) -> bool
    ensures { result ≡ is_new event }
{
    matches!(event, Event::Accepted)
}

pub fn is_maker(event: Event) -> bool
    ensures { result ≡ is_maker event }
{
    matches!(event, Event::Accepted | Event::Replaced)
}

pub fn is_execution(event: Event) -> bool
    ensures { result ≡ is_execution event }
{
    matches!(event, Event::Executed(_))
}

// E and C.
pub fn is_fill(event: Event) -> bool
    ensures { result ≡ is_fill event }
{
    matches!(event, Event::Executed(_) | Event::Broken(_))
}

pub fn is_replace(event: Event) -> bool
    ensures { result ≡ is_replace event }
{
    matches!(event, Event::Replaced)
}

pub fn differs(a: Asked, r: Record) -> bool
    ensures { result ≡ machine_differs r (found (order_with a)) }
{
    !((a.side == r.side) & (a.series == order::series_of(r)))
}

pub fn not_open(a: Asked, r: Record) -> bool
    ensures { result ≡ not_open r (found (order_with a)) }
{
    let left = a.figures.open;
    match r.event {
        Event::Executed(_) | Event::Cancelled => left < r.contracts,
        Event::Replaced | Event::Repriced => left == 0,
        Event::Accepted | Event::Broken(_) => false,
    }
}

pub fn not_executed(a: Asked, r: Record) -> bool
    requires { Sound a.figures }
    ensures { result ≡ not_executed r (found (order_with a)) }
{
    let unbroken = a.figures.executed - a.figures.broken;
    match r.event {
        Event::Broken(_) => unbroken < r.contracts,
        _ => false,
    }
}
