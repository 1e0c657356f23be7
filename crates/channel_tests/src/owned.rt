// A site owns its channel by value, whether it names the kind of channel or not.
ghost use Rattle.std.specs.Prelude.{◌≡◌, OnOk};
ghost use Rattle.channel.specs.Meaning.{raised};
ghost use Rattle.ring.specs.Meaning.{ring_tally};
ghost use Rattle.drawer.specs.Meaning.{drawer_tally};

use channel::datagram::Datagram;
use channel::interface::Channel;
use drawer::drawer::{Drawer, Kept};
use queue::queue::Queue;
use ring::ring::Ring;
use std::test::Fail;
use terms::refusal::Refusal;
use terms::side::Side;

#[derive(Drop)]
struct Site<C> {
    channel: C,
    visits: u32,
}

impl<C: Channel> Site<C> {
    fn visit(&mut self) -> Result<(), Refusal>
        ensures { OnOk result (C.tally self.new.channel Side.Shield ≡ raised (C.tally self.old.channel Side.Shield)) }
    {
        self.visits = self.visits.saturating_add(1);
        self.channel.put(Side::Shield, 7, 69, b"one")
    }
}

#[derive(Drop)]
struct Pair<'a> {
    ring: Ring<'a>,
    drawer: Drawer<'a>,
    visits: u32,
}

impl<'a> Pair<'a> {
    fn visit(&mut self) -> Result<(), Refusal>
        ensures ring { OnOk result (ring_tally self.new.ring Side.Shield ≡ raised (ring_tally self.old.ring Side.Shield)) }
        ensures drawer { OnOk result (drawer_tally self.new.drawer Side.Cabin ≡ raised (drawer_tally self.old.drawer Side.Cabin)) }
    {
        self.visits = self.visits.saturating_add(1);
        self.ring.put(Side::Shield, 7, 69, b"one")?;
        self.drawer.put(Side::Cabin, 7, 69, b"one")
    }
}

#[test]
fn a_channel_by_value(rt: HostRuntime) -> Result<(), Fail> {
    let mut places = [Datagram::empty(); 32];
    let mut site = Site {
        channel: Ring::new(&mut places)?,
        visits: 0,
    };
    site.visit()?;
    let Site { channel, visits } = site;
    assert_eq!(rt; visits, 1);
    let mut kept = [Kept::empty(); 32];
    let mut numbers = [0; 1];
    let mut pair = Pair {
        ring: channel,
        drawer: Drawer::new(&mut kept, Queue::new(&mut numbers))?,
        visits,
    };
    pair.visit()?;
    assert_eq!(rt; pair.ring.tally_of(Side::Shield), 2);
    assert_eq!(rt; pair.drawer.tally_of(Side::Cabin), 1);
    assert_eq!(rt; pair.visits, 2);
    Ok(())
}
