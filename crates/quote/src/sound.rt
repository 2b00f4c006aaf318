// When a token names a quote, and what a stored row may be. A stored number is any that its bytes can say, not only what a line can.
ghost use Rattle.std.specs.Prelude.{◌≡◌, length};
ghost use Rattle.quote.specs.Quotes.{lawful_quote, names_quote, sound_row};

use crate::{ID, MOST_EXECUTED, Quote, QuoteRow};
use field::verbatim;

#[tactic(auto, unfolding(crate::specs::Quotes::names_quote))]
pub fn names_quote(token: &[u8]) -> bool
    requires { length token.now ≡ 20 }
    ensures { result ≡ names_quote token.now }
{
    let (id, padding) = token.split_at(ID);
    verbatim::hex(id) & verbatim::blank(padding)
}

fn lawful_quote(q: Quote) -> bool
    ensures { result ≡ lawful_quote q }
{
    verbatim::text(&q.key.source)
        & names_quote(&q.key.token)
        & run::member(q.side, &layout::SIDES)
        & order::lawful_series(q.series)
}

pub fn sound_row(w: QuoteRow) -> bool
    ensures { result ≡ sound_row w }
{
    lawful_quote(w.quote) & layout::within(w.executed, 1, MOST_EXECUTED) & (w.broken <= w.executed)
}
