// Datagrams put one after the other, on any channel.
ghost use Rattle.std.specs.Prelude.{replicate};
ghost use Rattle.channel.specs.Packet.{packet, body};
ghost use Rattle.channel.specs.Sent.{SentAll, SentInTurn};

use crate::interface::Channel;
use terms::refusal::Refusal;
use terms::side::Side;

// Puts one datagram so many times.
pub fn put_repeatedly<C: Channel>(
    channel: &mut C,
    from: Side,
    source: u16,
    target: u16,
    bytes: &[u8],
    times: usize,
) -> Result<(), Refusal>
    ensures { SentAll C.posts channel.old channel.new (packet from (body source target bytes.now)) times result }
{
    for _ in 0..times {
        channel.put(from, source, target, bytes)?;
    }
    Ok(())
}

// What was put up to a state, and what was put from there on, was put in this order.
pub fn puts_in_turn<C: Channel>(_channel: &C)
    ensures { SentInTurn C.posts }
{}
