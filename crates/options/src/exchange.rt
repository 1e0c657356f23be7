// The whole exchange of options, from the operands of an ask to what both ends hold.
ghost use Rattle.std.specs.Prelude.{◌≡◌};
ghost use Rattle.grammar.specs.Grammar.{pairs};
ghost use Rattle.options.specs.Agreement.{Offers};
ghost use Rattle.options.specs.Listing.{listed};
ghost use Rattle.options.specs.Exchange.{Hears, Exchanges};

use crate::accept::accept_pairs;
use crate::asked::{Ask, ask_options};
use crate::encode::{encode_oack, encode_options};
use crate::offer::{Offer, answer_pairs};
use option_pairs::values::Options;
use terms::agreed::Agreed;
use terms::patience::Patience;
use terms::refusal::Refusal;

// What each end holds after the exchange.
#[derive(Clone, Copy)]
pub struct Exchange {
    pub shield: Agreed,
    pub cabin: Agreed,
}

// What the cabin makes of the options that the shield asks.
fn hear_request(asked: Options, own: Patience) -> Result<Offer, Refusal>
    ensures { Offers own (pairs (listed asked)) result }
{
    let request = encode_options(asked);
    answer_pairs(request.as_slice(), own)
}

// A struct of what was asked and the end's own patience is no plainer: this call and the acceptance alone take both.
// What the shield holds once the cabin has answered: by the OACK, or unagreed values without one.
fn hear_answer(asked: Options, own: Patience, answer: Options) -> Result<Agreed, Refusal>
    ensures { Hears asked own answer result }
{
    let Some(oack) = encode_oack(answer) else {
        return Ok(Agreed::unagreed(own));
    };
    accept_pairs(asked, own, oack.as_slice())
}

// The shield writes its options, the cabin reads them and writes its answer, the shield reads that.
pub fn exchange_options(ask: Ask, shield: Patience, cabin: Patience) -> Result<Exchange, Refusal>
    ensures { Exchanges shield cabin ask.blksize ask.timeout ask.windowsize result }
{
    let asked = ask_options(ask, shield)?;
    let offer = hear_request(asked, cabin)?;
    let held = hear_answer(asked, shield, offer.answer)?;
    Ok(Exchange {
        shield: held,
        cabin: offer.agreed,
    })
}
