// The drawer, and its calls as a channel.
ghost use Rattle.std.specs.Prelude.{◌≡◌, ◌<◌, ◌≤◌, [], length, MatchResult, slice_get};
ghost use Rattle.std.specs.Option.{option_map};
ghost use Rattle.channel.specs.Packet.{packet, body, holds};
ghost use Rattle.queue.specs.Queued.{queued};
ghost use Rattle.drawer.specs.Keeping.{keeps, packet_of, for_side, Fresh, OneKept, Drawn};
ghost use Rattle.drawer.specs.Meaning.{drawer_afloat, drawer_tally, drawer_posts, drawer_hands};

use channel::datagram::{DATAGRAM_MAX, Datagram, Header};
use channel::interface::Channel;
use channel::tallies::Tallies;
use queue::queue::Queue;
use terms::refusal::Refusal;
use terms::side::Side;

// How many datagrams a drawer keeps.
pub const KEPT_MAX: usize = 32;

// A datagram that is kept, with the side that it comes from.
#[derive(Clone, Copy)]
pub struct Kept {
    from: Side,
    datagram: Datagram,
}

// The first `count` of the slots are in use. That there are 32 is said where a drawer is made, and each call says that they stay.
#[derive(Drop)]
pub struct Drawer<'a> {
    slots: &'a mut [Kept],
    count: usize,
    picks: Queue<'a, usize>,
    tallies: Tallies,
}

impl Kept {
    // An empty datagram of the shield, to fill memory with.
    pub fn empty() -> Kept
        ensures { packet_of result ≡ packet Side.Shield (body 0 0 []) }
    {
        Kept {
            from: Side::Shield,
            datagram: Datagram::empty(),
        }
    }
}

impl<'a> Drawer<'a> {
    // An empty drawer over memory of 32 places, that will hand out by the picks. Memory past those stays unused.
    pub fn new(memory: &'a mut [Kept], picks: Queue<'a, usize>) -> Result<Drawer<'a>, Refusal>
        ensures { MatchResult result (λ d. (32 ≤ length memory.old) × Fresh (queued picks.entry) d) (λ e. (length memory.old < 32) × (e ≡ Refusal.OutOfRange)) }
    {
        if memory.len() < KEPT_MAX {
            return Err(Refusal::OutOfRange);
        }
        let (slots, _) = memory.split_at_mut(KEPT_MAX);
        Ok(Drawer {
            slots,
            count: 0,
            picks,
            tallies: Tallies::new(),
        })
    }

    // Keeps a datagram, while a slot is free.
    fn keep(&mut self, from: Side, datagram: Datagram)
        ensures kept { OneKept (packet from (holds datagram)) self.old self.new }
        ensures tallies { self.new.tallies ≡ self.old.tallies }
    {
        let at = self.count;
        if at < self.slots.len() {
            self.slots[at] = Kept { from, datagram };
            self.count = at + 1;
        }
    }

    // The datagram of a number, if it is kept and is for a side.
    fn find(&self, side: Side, pick: usize) -> Option<Datagram>
        ensures { option_map holds result ≡ for_side side (slice_get (keeps self.now) pick) }
    {
        if pick >= self.count || pick >= self.slots.len() {
            return None;
        }
        let kept = self.slots[pick];
        if kept.from == side.opposite() {
            Some(kept.datagram)
        } else {
            None
        }
    }

    // Uses up a pick, if any is left, and finds its datagram.
    fn draw(&mut self, side: Side) -> Option<Datagram>
        ensures drawn { Drawn side (option_map holds result) self.old self.new }
        ensures tallies { self.new.tallies ≡ self.old.tallies }
    {
        let pick = self.picks.pop()?;
        self.find(side, pick)
    }
}

impl<'a> Channel for Drawer<'a> {
    ghost afloat = { drawer_afloat };

    ghost tally = { drawer_tally };

    ghost posts = { drawer_posts };

    ghost hands = { drawer_hands };

    fn put(&mut self, from: Side, source: u16, target: u16, bytes: &[u8]) -> Result<(), Refusal> {
        let datagram = Datagram::new(source, target, bytes)?;
        self.tallies.raise(from);
        self.keep(from, datagram);
        Ok(())
    }

    fn take(&mut self, side: Side, buf: &mut [u8]) -> Result<Option<Header>, Refusal> {
        let Some(front) = buf.first_chunk_mut::<DATAGRAM_MAX>() else {
            return Err(Refusal::ShortBuffer);
        };
        match self.draw(side) {
            Some(datagram) => Ok(Some(datagram.write_to(front))),
            None => Ok(None),
        }
    }

    fn tally_of(&self, side: Side) -> u32 {
        self.tallies.of(side)
    }
}
