// Whether the shield accepts an OACK, and what it then holds.
ghost use Rattle.std.specs.Prelude.{◌≡◌};
ghost use Rattle.options.specs.Agreement.{Accepting};

use crate::settled::settle;
use option_pairs::scan::scan_options;
use option_pairs::values::{Options, Ranges};
use terms::agreed::Agreed;
use terms::patience::Patience;
use terms::refusal::Refusal;

// Accepted is an OACK each of whose options was asked, once, with a value that fits what was asked.
pub fn accept_pairs(asked: Options, own: Patience, pairs: &[u8]) -> Result<Agreed, Refusal>
    ensures { Accepting asked own pairs.now result }
{
    let scan = scan_options(pairs, Ranges::of_answer(asked)).map_err(|why| match why {
        Refusal::Malformed => why,
        _ => Refusal::OptionsNotAccepted,
    })?;
    if !scan.all_valid {
        return Err(Refusal::OptionsNotAccepted);
    }
    // As the function's value, without the `?`, it was tried, and the proof didn't close.
    let agreed = settle(scan.found, own).map_err(|_| Refusal::OptionsNotAccepted)?;
    Ok(agreed)
}
