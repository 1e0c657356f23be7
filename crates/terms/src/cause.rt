// Why a transfer failed: what refused it, or its peer's silence, or its peer's ERROR.
ghost use Rattle.std.specs.Prelude.{◌≡◌};
ghost use Rattle.terms.specs.Refusals.{NumberedBy};
ghost use Rattle.terms.specs.Causes.{cause_number};
ghost use Rattle.terms.specs.declared.cause.Cause.TheVariants.{Refused};

use crate::refusal::Refusal;

#[derive(Clone, Copy, PartialEq, Eq, Debug)]
pub enum Cause {
    // a refusal met while the transfer heard a datagram
    Refused(Refusal),
    // no try was left when the wait ran out
    Silence,
    // the peer sent an ERROR
    PeerError,
}

impl Cause {
    // As for refusals, a trait for numbers is no plainer.
    pub fn number(self) -> u8
        ensures { result ≡ cause_number self }
    {
        match self {
            Cause::Refused(why) => why.number(),
            Cause::Silence => 40,
            Cause::PeerError => 41,
        }
    }
}

// A refusal becomes the cause of the same number.
impl From<Refusal> for Cause {
    ghost from_gives = { λ e r. r ≡ Refused e };

    fn from(why: Refusal) -> Cause {
        Cause::Refused(why)
    }
}

// The cause of that number; a number that none has is out of range.
impl TryFrom<u8> for Cause {
    type Error = Refusal;

    ghost try_from_gives = { NumberedBy cause_number };

    fn try_from(n: u8) -> Result<Cause, Refusal> {
        match n {
            40 => Ok(Cause::Silence),
            41 => Ok(Cause::PeerError),
            _ => Ok(Refusal::try_from(n)?.into()),
        }
    }
}
