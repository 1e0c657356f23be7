// The calls of a channel, and what they mean.
ghost use Rattle.std.specs.Prelude.{◌≡◌, ℕ, IfOk, Option, OnOk};
ghost use Rattle.terms.specs.declared.side.Side.{Side};
ghost use Rattle.channel.specs.Packet.{Packet, Body, packet, body, handed};
ghost use Rattle.channel.specs.Meaning.{Put, Take};

use crate::datagram::Header;
use terms::refusal::Refusal;
use terms::side::Side;

// Datagrams on their way between the two sides, and how many each side has put. A refused call changes nothing.
pub trait Channel {
    // what may still be handed out
    ghost afloat: { Self → Packet → Type 0 };

    // how many datagrams a side has put
    ghost tally: { Self → Side → ℕ };

    // what a put of that packet makes of a channel
    ghost posts: { Self → Packet → Self → Type 0 };

    // what a take for that side hands out, and makes of a channel
    ghost hands: { Self → Side → Option Body → Self → Type 0 };

    // Puts a datagram of at most 1,472 bytes.
    fn put(&mut self, from: Side, source: u16, target: u16, bytes: &[u8]) -> Result<(), Refusal>
        ensures meaning { Put afloat tally self.old self.new (packet from (body source target bytes.now)) result }
        ensures step { OnOk result (posts self.old (packet from (body source target bytes.now)) self.new) };

    // Takes a datagram for a side, if one is at hand, and writes its bytes to the front of a buffer of at least 1,472.
    fn take(&mut self, side: Side, buf: &mut [u8]) -> Result<Option<Header>, Refusal>
        ensures meaning { Take afloat tally self.old self.new side buf.old buf.new result }
        ensures step { IfOk result (λ o. hands self.old side (handed o buf.new) self.new) };

    // How many datagrams a side has put.
    fn tally_of(&self, side: Side) -> u32
        ensures { result ≡ tally self.now side };
}
