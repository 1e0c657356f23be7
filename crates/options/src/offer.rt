// What the cabin answers to the options of a request.
ghost use Rattle.std.specs.Prelude.{◌≡◌};
ghost use Rattle.options.specs.Agreement.{cut_to, kept_if_legal, answered, Offers};

use crate::settled::settle;
use option_pairs::scan::scan_options;
use option_pairs::values::{Options, Ranges};
use terms::agreed::Agreed;
use terms::patience::{Patience, is_legal_patience};
use terms::refusal::Refusal;

// The options answered, which go into the OACK, and what the cabin then holds.
#[derive(Clone, Copy)]
pub struct Offer {
    pub answer: Options,
    pub agreed: Agreed,
}

fn cut_to(most: u32, wanted: Option<u32>) -> Option<u32>
    ensures { result ≡ cut_to most wanted }
{
    wanted.map(|n| n.min(most))
}

fn kept_if_legal(wanted: Option<u32>, tries: u8) -> Option<u32>
    ensures { result ≡ kept_if_legal tries wanted }
{
    wanted.filter(|wait| is_legal_patience(*wait, u32::from(tries)))
}

// Block size cut to 1,468 and window to 16; the timeout alike if it is legal with the end's own tries, else passed over.
pub fn answer(wanted: Options, own: Patience) -> Options
    ensures { result ≡ answered own.tries wanted }
{
    Options {
        blksize: cut_to(1468, wanted.blksize),
        timeout: kept_if_legal(wanted.timeout, own.tries),
        windowsize: cut_to(16, wanted.windowsize),
    }
}

// What the cabin makes of the option pairs of a request: other names and invalid values are passed over.
pub fn answer_pairs(pairs: &[u8], own: Patience) -> Result<Offer, Refusal>
    ensures { Offers own pairs.now result }
{
    let scan = scan_options(pairs, Ranges::of_request())?;
    let answer = answer(scan.found, own);
    let agreed = settle(answer, own)?;
    Ok(Offer { answer, agreed })
}
