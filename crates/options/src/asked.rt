// The options that an ask may send.
ghost use Rattle.std.specs.Prelude.{◌≡◌, ◌&&◌, ◌||◌};
ghost use Rattle.terms.specs.Patiences.{legal_patience};
ghost use Rattle.options.specs.Agreement.{given, may_ask, Asked};

use option_pairs::values::{Options, PerOption};
use terms::patience::{Patience, is_legal_patience};
use terms::refusal::Refusal;

// The operands of an ask. A rule of the project has 0 for an option that is not asked.
pub type Ask = PerOption<u32>;

fn given(n: u32) -> Option<u32>
    ensures { result ≡ given n }
{
    (n != 0).then_some(n)
}

fn may_ask(ask: Ask, tries: u8) -> bool
    ensures { result ≡ may_ask tries ask.blksize ask.timeout ask.windowsize }
{
    matches!(ask.blksize, 0 | 8..=1468)
        && (ask.timeout == 0 || is_legal_patience(ask.timeout, u32::from(tries)))
        && ask.windowsize <= 16
}

// The options of an ask; the timeout has to be legal with the end's own tries.
pub fn ask_options(ask: Ask, own: Patience) -> Result<Options, Refusal>
    ensures { Asked own.tries ask.blksize ask.timeout ask.windowsize result }
{
    if !may_ask(ask, own.tries) {
        return Err(Refusal::OutOfRange);
    }
    Ok(Options {
        blksize: given(ask.blksize),
        timeout: given(ask.timeout),
        windowsize: given(ask.windowsize),
    })
}
