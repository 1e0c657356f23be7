// The name of an item: 1 to 32 bytes, each 33 to 126. No other name can be made.
ghost use Rattle.std.specs.Prelude.{◌≡◌, true};
ghost use Rattle.terms.specs.Names.{legal_name};
ghost use Rattle.terms.specs.Short.{held};

use crate::short_bytes::ShortBytes;

#[derive(Clone, Copy)]
pub struct Name {
    text: ShortBytes<32>,
    ghost legal: { legal_name (held text) ≡ true },
}

mod calls;

pub use calls::is_legal_name;
