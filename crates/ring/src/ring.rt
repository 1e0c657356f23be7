// The ring, and its calls as a channel.
ghost use Rattle.std.specs.Prelude.{◌≡◌, ◌<◌, ◌≤◌, length, MatchResult};
ghost use Rattle.std.specs.Option.{option_map};
ghost use Rattle.channel.specs.Packet.{holds};
ghost use Rattle.ring.specs.Waiting.{waiting, places_for, Fresh, Appended, Removed};
ghost use Rattle.ring.specs.Meaning.{ring_afloat, ring_tally, ring_posts, ring_hands};

use channel::datagram::{DATAGRAM_MAX, Datagram, Header};
use channel::interface::Channel;
use channel::tallies::Tallies;
use queue::queue::Queue;
use terms::refusal::Refusal;
use terms::side::Side;

// How many datagrams can wait for one side.
pub const PLACES: usize = 16;

// That each queue has 16 places is said where a ring is made, and each call says that the places stay.
#[derive(Drop)]
pub struct Ring<'a> {
    to_shield: Queue<'a, Datagram>,
    to_cabin: Queue<'a, Datagram>,
    tallies: Tallies,
}

impl<'a> Ring<'a> {
    // An empty ring over memory of two times 16 places. Memory past those stays unused.
    pub fn new(memory: &'a mut [Datagram]) -> Result<Ring<'a>, Refusal>
        ensures { MatchResult result (λ r. (32 ≤ length memory.old) × Fresh r) (λ e. (length memory.old < 32) × (e ≡ Refusal.OutOfRange)) }
    {
        if memory.len() < 2 * PLACES {
            return Err(Refusal::OutOfRange);
        }
        let (shield, rest) = memory.split_at_mut(PLACES);
        let (cabin, _) = rest.split_at_mut(PLACES);
        Ok(Ring {
            to_shield: Queue::new(shield),
            to_cabin: Queue::new(cabin),
            tallies: Tallies::new(),
        })
    }

    // Adds a datagram behind those that wait for a side, or loses it while all places are in use there.
    fn append(&mut self, side: Side, datagram: Datagram)
        ensures queues { Appended side (holds datagram) self.old self.new }
        ensures tallies { self.new.tallies ≡ self.old.tallies }
    {
        let _kept = match side {
            Side::Shield => self.to_shield.push(datagram),
            Side::Cabin => self.to_cabin.push(datagram),
        };
    }

    // Takes the datagram that has waited longest for a side.
    fn remove(&mut self, side: Side) -> Option<Datagram>
        ensures queues { Removed side (option_map holds result) self.old self.new }
        ensures tallies { self.new.tallies ≡ self.old.tallies }
    {
        match side {
            Side::Shield => self.to_shield.pop(),
            Side::Cabin => self.to_cabin.pop(),
        }
    }
}

impl<'a> Channel for Ring<'a> {
    ghost afloat = { ring_afloat };

    ghost tally = { ring_tally };

    ghost posts = { ring_posts };

    ghost hands = { ring_hands };

    fn put(&mut self, from: Side, source: u16, target: u16, bytes: &[u8]) -> Result<(), Refusal> {
        let datagram = Datagram::new(source, target, bytes)?;
        self.tallies.raise(from);
        self.append(from.opposite(), datagram);
        Ok(())
    }

    fn take(&mut self, side: Side, buf: &mut [u8]) -> Result<Option<Header>, Refusal> {
        let Some(front) = buf.first_chunk_mut::<DATAGRAM_MAX>() else {
            return Err(Refusal::ShortBuffer);
        };
        match self.remove(side) {
            Some(datagram) => Ok(Some(datagram.write_to(front))),
            None => Ok(None),
        }
    }

    fn tally_of(&self, side: Side) -> u32 {
        self.tallies.of(side)
    }
}
