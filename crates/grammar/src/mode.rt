// The mode of a request: how the bytes of an item travel.
ghost use Rattle.std.specs.Prelude.{◌≡◌};
ghost use Rattle.grammar.specs.Modes.{mode_word, Moded};

use terms::refusal::Refusal;

#[derive(Clone, Copy, PartialEq, Eq, Debug)]
pub enum Mode {
    // byte for byte
    Octet,
}

impl Mode {
    // The mode that the bytes name, A to Z taken as a to z.
    pub fn read(bytes: &[u8]) -> Result<Mode, Refusal>
        ensures { Moded bytes.now result }
    {
        if bytes.eq_ignore_ascii_case(b"octet") {
            Ok(Mode::Octet)
        } else {
            Err(Refusal::UnsupportedMode)
        }
    }

    // The word that a request has for the mode.
    pub fn text(self) -> &'static [u8]
        ensures { result.now ≡ mode_word self }
    {
        match self {
            Mode::Octet => b"octet",
        }
    }
}
