// The tap: it hands every call on, and records the datagrams that pass, in order, in memory that the caller lends.
ghost use Rattle.std.specs.Prelude.{◌≡◌, [], map};
ghost use Rattle.channel.specs.Packet.{packet, body};
ghost use Rattle.tap.specs.Recorded.{recorded, passed, Noted, tap_posts, tap_hands};

use channel::datagram::{Datagram, Header};
use channel::interface::Channel;
use terms::refusal::Refusal;
use terms::side::Side;

// Which way a datagram passed.
#[derive(Clone, Copy, PartialEq, Eq, Debug)]
pub enum Way {
    // it was put on the channel
    Put,
    // it was taken off
    Taken,
}

// A datagram that passed, with the side that it comes from.
#[derive(Clone, Copy)]
pub struct Passed {
    pub way: Way,
    pub from: Side,
    pub datagram: Datagram,
}

// The first `count` of the entries are in use. What passes once they are full is not recorded.
#[derive(Drop)]
pub struct Tap<'a, C> {
    channel: C,
    entries: &'a mut [Passed],
    count: usize,
}

impl Passed {
    // An empty datagram that the shield put, to fill memory with.
    pub fn empty() -> Passed
        ensures { passed result ≡ record { way = Way.Put; packet = packet Side.Shield (body 0 0 []) } }
    {
        Passed {
            way: Way::Put,
            from: Side::Shield,
            datagram: Datagram::empty(),
        }
    }
}

impl<'a, C> Tap<'a, C> {
    // Nothing is recorded yet.
    pub fn new(channel: C, entries: &'a mut [Passed]) -> Tap<'a, C>
        ensures below { result.channel ≡ channel }
        ensures empty { recorded result ≡ [] }
    {
        Tap {
            channel,
            entries,
            count: 0,
        }
    }

    // What is recorded, in order.
    pub fn entries(&self) -> &[Passed]
        ensures { map passed result.now ≡ recorded self.now }
    {
        &self.entries[..self.count.min(self.entries.len())]
    }

    // The channel below.
    pub fn below(&self) -> &C
        ensures { result.now ≡ self.now.channel }
    {
        &self.channel
    }

    // Records a datagram, while an entry is free.
    fn note(&mut self, entry: Passed)
        ensures noted { Noted (passed entry) self.old self.new }
        ensures below { self.new.channel ≡ self.old.channel }
    {
        let at = self.count;
        if at < self.entries.len() {
            self.entries[at] = entry;
            self.count = at + 1;
        }
    }
}

// Whatever is below, the tap is a channel of the same meaning.
impl<'a, C: Channel> Channel for Tap<'a, C> {
    ghost afloat = { λ t. C.afloat t.channel };

    ghost tally = { λ t. C.tally t.channel };

    ghost posts = { tap_posts C.posts };

    ghost hands = { tap_hands C.hands };

    fn put(&mut self, from: Side, source: u16, target: u16, bytes: &[u8]) -> Result<(), Refusal> {
        let datagram = Datagram::new(source, target, bytes)?;
        self.channel.put(from, source, target, bytes)?;
        self.note(Passed {
            way: Way::Put,
            from,
            datagram,
        });
        Ok(())
    }

    fn take(&mut self, side: Side, buf: &mut [u8]) -> Result<Option<Header>, Refusal> {
        let Some(header) = self.channel.take(side, buf)? else {
            return Ok(None);
        };
        let datagram = Datagram::new(header.source, header.target, &buf[..header.len])?;
        self.note(Passed {
            way: Way::Taken,
            from: side.opposite(),
            datagram,
        });
        Ok(Some(header))
    }

    fn tally_of(&self, side: Side) -> u32 {
        self.channel.tally_of(side)
    }
}
