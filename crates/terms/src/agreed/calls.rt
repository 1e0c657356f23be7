// Making and reading agreed values.
ghost use Rattle.std.specs.Prelude.{◌≡◌, Ok};
ghost use Rattle.terms.specs.Agreements.{Agrees};

use crate::agreed::Agreed;
use crate::patience::Patience;
use crate::refusal::Refusal;

impl Agreed {
    pub fn new(block_size: u32, window: u32, patience: Patience) -> Result<Agreed, Refusal>
        ensures { Agrees block_size window patience result }
    {
        match (block_size, window) {
            (8..=1468, 1..=16) => Ok(Agreed {
                block_size: block_size as u16,
                window: window as u16,
                patience,
            }),
            _ => Err(Refusal::OutOfRange),
        }
    }

    // What holds where no option is agreed: blocks of 512 bytes, window 1 and the end's own patience.
    pub fn unagreed(own: Patience) -> Agreed
        ensures { Agrees 512 1 own (Ok result) }
    {
        Agreed {
            block_size: 512,
            window: 1,
            patience: own,
        }
    }
}
