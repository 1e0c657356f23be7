// A tap over a ring and over a drawer.
use channel::datagram::Datagram;
use channel::interface::Channel;
use drawer::drawer::{Drawer, Kept};
use queue::queue::Queue;
use ring::ring::Ring;
use std::process::Abort;
use std::test::Fail;
use tap::tap::{Passed, Tap, Way};
use terms::refusal::Refusal;
use terms::side::Side::{self, Cabin, Shield};

const PASSED: [(Way, Side, u16); 4] = [
    (Way::Put, Shield, 1),
    (Way::Put, Cabin, 2),
    (Way::Taken, Shield, 1),
    (Way::Put, Shield, 3),
];

// Puts three datagrams and takes one in between; the tap has room for four entries, so the last take passes unrecorded.
fn watch<C: Channel + Drop>(rt: &impl Abort, channel: C) -> Result<(), Fail> {
    let mut entries = [Passed::empty(); 4];
    let mut tap = Tap::new(channel, &mut entries);
    let mut buf = [0; 1472];
    tap.put(Shield, 1, 69, b"one")?;
    tap.put(Cabin, 2, 69, b"two")?;
    assert!(rt; tap.take(Cabin, &mut buf)?.is_some());
    tap.put(Shield, 3, 69, b"three")?;
    assert_eq!(rt; tap.put(Shield, 4, 69, &[7; 1473]), Err(Refusal::Malformed));
    assert!(rt; tap.take(Shield, &mut buf)?.is_some());
    assert_eq!(rt; tap.tally_of(Shield), 2);
    assert_eq!(rt; tap.entries().len(), 4);
    for (entry, (way, from, source)) in tap.entries().iter().zip(PASSED) {
        let mut front = [0; 1472];
        assert_eq!(rt; entry.way, way);
        assert_eq!(rt; entry.from, from);
        assert_eq!(rt; entry.datagram.write_to(&mut front).source, source);
    }
    Ok(())
}

#[test]
fn a_tap_records_what_passes(rt: HostRuntime) -> Result<(), Fail> {
    let mut memory = [Datagram::empty(); 32];
    watch(&rt, Ring::new(&mut memory)?)?;
    let mut memory = [Kept::empty(); 32];
    let mut places = [0; 2];
    let mut picks = Queue::new(&mut places);
    assert!(rt; picks.push(0) && picks.push(1));
    watch(&rt, Drawer::new(&mut memory, picks)?)
}
