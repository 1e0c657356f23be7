// The two ends of the line: the shield asks, the cabin serves.
ghost use Rattle.std.specs.Prelude.{◌≡◌, Some};
ghost use Rattle.terms.specs.Refusals.{NumberedBy};
ghost use Rattle.terms.specs.Sides.{side_number, side_word, opposite};

use crate::refusal::Refusal;
use std::fmt;

#[derive(Clone, Copy, PartialEq, Eq, Debug)]
pub enum Side {
    Shield = 0,
    Cabin = 1,
}

impl Side {
    // As for refusals, a trait for numbers is no plainer.
    pub fn number(self) -> u8
        ensures { result ≡ side_number self }
    {
        self as u8
    }

    // The word that scripts and output use. A trait for words is no plainer: no code is generic over them.
    pub fn word(self) -> &'static str
        ensures { result.now ≡ side_word self }
    {
        match self {
            Side::Shield => "shield",
            Side::Cabin => "cabin",
        }
    }

    // The side at the other end of the line.
    pub fn opposite(self) -> Side
        ensures { result ≡ opposite self }
    {
        match self {
            Side::Shield => Side::Cabin,
            Side::Cabin => Side::Shield,
        }
    }
}

// The side of that number; a number that neither has is out of range.
impl TryFrom<u8> for Side {
    type Error = Refusal;

    ghost try_from_gives = { NumberedBy side_number };

    fn try_from(n: u8) -> Result<Side, Refusal> {
        match n {
            0 => Ok(Side::Shield),
            1 => Ok(Side::Cabin),
            _ => Err(Refusal::OutOfRange),
        }
    }
}

// The word.
impl fmt::Display for Side {
    ghost output = { λ x. Some (side_word x) };

    fn fmt<W: fmt::Write>(&self, f: &mut fmt::Formatter<W>) -> fmt::Result {
        f.write_str(self.word())
    }
}
