// What the two ends of a transfer hold as agreed: block size 8 to 1,468, window 1 to 16, and patience.
ghost use Rattle.std.specs.Prelude.{◌≡◌, true};
ghost use Rattle.terms.specs.Sizes.{legal_sizes};

use crate::patience::Patience;

#[derive(Clone, Copy)]
pub struct Agreed {
    // bytes of a full block
    pub block_size: u16,
    // blocks that may be out unacknowledged
    pub window: u16,
    pub patience: Patience,
    ghost legal: { legal_sizes block_size window ≡ true },
}

mod calls;
