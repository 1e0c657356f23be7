// What the two ends hold after an exchange of options.
use crate::example::Case;
use crate::outcome::{Outcome, compare};
use grammar::message::Message;
use options::accept::accept_pairs;
use options::asked::{Ask, ask_options};
use options::exchange::{Exchange, exchange_options};
use std::{fmt, io};
use terms::agreed::Agreed;
use terms::patience::Patience;
use terms::refusal::Refusal;
use wire::reading::read;

// An OACK that answers an ask.
#[derive(Clone, Copy, Debug)]
pub struct Oack {
    pub ask: Ask,
    pub bytes: &'static [u8],
}

// What an end holds.
#[derive(Clone, Copy)]
struct Held(Agreed);

impl fmt::Display for Held {
    fn fmt<W: fmt::Write>(&self, f: &mut fmt::Formatter<W>) -> fmt::Result {
        let Agreed {
            block_size,
            window,
            patience: Patience { wait, tries },
        } = self.0;
        write!(
            f,
            "block size {block_size}, window {window}, wait {wait}, tries {tries}"
        )
    }
}

// What a shield of standard patience makes of the OACK to its ask.
fn hear_oack(oack: Oack) -> Result<Agreed, Refusal> {
    let own = Patience::standard();
    let asked = ask_options(oack.ask, own)?;
    match read(oack.bytes)? {
        Message::Oack { pairs } => accept_pairs(asked, own, pairs),
        _ => Err(Refusal::NotExpected),
    }
}

impl Case for Oack {
    // Hears the OACK; the words are what the shield then holds.
    fn judge(&self, rt: &HostRuntime, words: &str) -> io::Result<bool> {
        compare(rt, "shield", Outcome(hear_oack(*self).map(Held)), words)
    }
}

// An ask is the case of a whole exchange.
impl Case for Ask {
    // Runs the exchange between ends of standard patience; the words are what each then holds.
    fn judge(&self, rt: &HostRuntime, words: &str) -> io::Result<bool> {
        let own = Patience::standard();
        let exchange = exchange_options(*self, own, own);
        let shield = Outcome(exchange.map(|both| Held(both.shield)));
        let shield_is_right = compare(rt, "shield", shield, words)?;
        let Ok(both) = exchange else {
            return Ok(shield_is_right);
        };
        let cabin_is_right = compare(rt, "cabin", Held(both.cabin), words)?;
        let came = if agree(both) { "alike" } else { "not alike" };
        let is_alike = compare(rt, "both ends", came, "alike")?;
        Ok(shield_is_right && cabin_is_right && is_alike)
    }
}

// Whether both ends hold the same block size, window and wait.
fn agree(exchange: Exchange) -> bool {
    let Exchange { shield, cabin } = exchange;
    shield.block_size == cabin.block_size
        && shield.window == cabin.window
        && shield.patience.wait == cabin.patience.wait
}
