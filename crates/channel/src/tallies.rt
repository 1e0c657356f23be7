// How many datagrams each side has put.
ghost use Rattle.std.specs.Prelude.{◌≡◌};
ghost use Rattle.terms.specs.declared.side.Side.{Side};
ghost use Rattle.channel.specs.Meaning.{Raised};
ghost use Rattle.channel.specs.Tallies.{tally_in};

use terms::side::Side;

#[derive(Clone, Copy, Debug)]
pub struct Tallies {
    shield: u32,
    cabin: u32,
}

impl Tallies {
    // Nothing was put.
    pub fn new() -> Tallies
        ensures { (side : Side) → tally_in result side ≡ 0 }
    {
        Tallies {
            shield: 0,
            cabin: 0,
        }
    }

    pub fn of(self, side: Side) -> u32
        ensures { result ≡ tally_in self side }
    {
        match side {
            Side::Shield => self.shield,
            Side::Cabin => self.cabin,
        }
    }

    // One more for a side, but never past the largest number.
    pub fn raise(&mut self, side: Side)
        ensures { Raised side (tally_in self.old) (tally_in self.new) }
    {
        match side {
            Side::Shield => self.shield = self.shield.saturating_add(1),
            Side::Cabin => self.cabin = self.cabin.saturating_add(1),
        }
    }
}
