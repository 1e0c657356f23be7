// Making and reading patience.
ghost use Rattle.std.specs.Prelude.{◌≡◌, ◌+◌, ◌*◌, ◌≤◌};
ghost use Rattle.terms.specs.Patiences.{legal_patience};
ghost use Rattle.terms.specs.Patient.{Patient, Standard};

use crate::patience::Patience;
use crate::refusal::Refusal;

// Whether a wait, in seconds, and tries make a patience.
pub fn is_legal_patience(wait: u32, tries: u32) -> bool
    ensures { result ≡ legal_patience wait tries }
{
    matches!(wait, 1..=255) && tries <= 15 && (tries + 1) * wait <= 1530
}

impl Patience {
    pub fn new(wait: u32, tries: u32) -> Result<Patience, Refusal>
        ensures { Patient wait tries result }
    {
        if !is_legal_patience(wait, tries) {
            return Err(Refusal::OutOfRange);
        }
        Ok(Patience {
            wait: wait as u8,
            tries: tries as u8,
        })
    }

    // The patience of an end set up without figures.
    pub fn standard() -> Patience
        ensures { Standard result }
    {
        Patience { wait: 5, tries: 5 }
    }

    // The same tries with another wait.
    pub fn with_wait(self, wait: u32) -> Result<Patience, Refusal>
        ensures { Patient wait self.tries result }
    {
        Patience::new(wait, u32::from(self.tries))
    }

    // The seconds of silence after which a transfer gives up.
    pub fn total(self) -> u16
        ensures value { result ≡ (self.tries + 1) * self.wait }
        ensures bound { result ≤ 1530 }
    {
        (u16::from(self.tries) + 1) * u16::from(self.wait)
    }
}
