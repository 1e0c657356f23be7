// What an end holds as agreed by the options of an OACK.
ghost use Rattle.std.specs.Prelude.{◌≡◌};
ghost use Rattle.options.specs.Agreement.{Settles};

use option_pairs::values::Options;
use terms::agreed::Agreed;
use terms::patience::Patience;
use terms::refusal::Refusal;

// Without an option, blocks have 512 bytes, the window is 1 and the wait is the end's own.
pub fn settle(options: Options, own: Patience) -> Result<Agreed, Refusal>
    ensures { Settles own options result }
{
    let wait = options.timeout.unwrap_or(u32::from(own.wait));
    let patience = own.with_wait(wait)?;
    let block_size = options.blksize.unwrap_or(512);
    let window = options.windowsize.unwrap_or(1);
    Agreed::new(block_size, window, patience)
}
