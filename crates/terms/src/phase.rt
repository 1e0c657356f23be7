// The phase of a transfer.
ghost use Rattle.std.specs.Prelude.{◌≡◌, Some};
ghost use Rattle.terms.specs.Phases.{phase_word, ended, blame};

use crate::cause::Cause;
use std::fmt;

#[derive(Clone, Copy, PartialEq, Eq, Debug)]
pub enum Phase {
    // its request is out
    Asked,
    // a read request was accepted with options, whose OACK is out
    Offered,
    // its DATA is out
    Sending,
    // DATA is awaited
    Receiving,
    // the peer acknowledged the last block: the peer has filed the item
    Confirmed,
    // the item is filed here
    Filed,
    Failed(Cause),
}

impl Phase {
    // The word that reports use. A trait for the words of phases, roles and sides is no plainer: no code is generic over them.
    pub fn word(self) -> &'static str
        ensures { result.now ≡ phase_word self }
    {
        match self {
            Phase::Asked => "ASKED",
            Phase::Offered => "OFFERED",
            Phase::Sending => "SENDING",
            Phase::Receiving => "RECEIVING",
            Phase::Confirmed => "CONFIRMED",
            Phase::Filed => "FILED",
            Phase::Failed(_) => "FAILED",
        }
    }

    // Whether a transfer in this phase has ended.
    pub fn has_ended(self) -> bool
        ensures { result ≡ ended self }
    {
        matches!(self, Phase::Confirmed | Phase::Filed | Phase::Failed(_))
    }

    // The number of the cause of a failed transfer, 0 for any other: a rule of the project has reports show a number for each transfer.
    pub fn blame(self) -> u8
        ensures { result ≡ blame self }
    {
        match self {
            Phase::Failed(why) => why.number(),
            _ => 0,
        }
    }
}

// The word.
impl fmt::Display for Phase {
    ghost output = { λ x. Some (phase_word x) };

    fn fmt<W: fmt::Write>(&self, f: &mut fmt::Formatter<W>) -> fmt::Result {
        f.write_str(self.word())
    }
}
