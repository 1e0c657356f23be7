// A script of calls with the answers to expect, run on any channel.
use Answer::{Count, Done, Got};
use channel::datagram::{Datagram, Header};
use channel::interface::Channel;
use drawer::drawer::{Drawer, Kept};
use queue::queue::Queue;
use ring::ring::Ring;
use std::process::Abort;
use std::test::Fail;
use terms::refusal::Refusal;
use terms::refusal::Refusal::{Malformed, ShortBuffer};
use terms::side::Side::{self, Cabin, Shield};

// A call. A datagram goes from a source to 69, and has so many bytes, each of them 7; a buffer has so many bytes.
#[derive(Clone, Copy, Debug)]
pub enum Step {
    Put(Side, u16, usize),
    Take(Side, usize),
    Tally(Side),
}

// What a call answers. Of a datagram that was handed out it is the source and how many bytes it has.
#[derive(Clone, Copy, PartialEq, Eq, Debug)]
pub enum Answer {
    Done(Result<(), Refusal>),
    Got(Result<Option<(u16, usize)>, Refusal>),
    Count(u32),
}

// Takes into a buffer of zeros, and tests that the datagram stands at its front and that the rest is untouched.
fn take<C: Channel>(rt: &impl Abort, channel: &mut C, side: Side, room: usize) -> Answer {
    let mut buf = [0; 2000];
    let taken = channel.take(side, &mut buf[..room.min(2000)]);
    let len = match taken {
        Ok(Some(header)) => {
            assert_eq!(rt; header.target, 69);
            header.len
        }
        _ => 0,
    };
    for (i, byte) in buf.iter().enumerate() {
        assert_eq!(rt; *byte, if i < len { 7 } else { 0 });
    }
    Got(taken.map(|header| header.map(|header: Header| (header.source, header.len))))
}

fn call<C: Channel>(rt: &impl Abort, channel: &mut C, step: Step) -> Answer {
    let bytes = [7; 1473];
    match step {
        Step::Put(from, source, len) => {
            Done(channel.put(from, source, 69, &bytes[..len.min(1473)]))
        }
        Step::Take(side, room) => take(rt, channel, side, room),
        Step::Tally(side) => Count(channel.tally_of(side)),
    }
}

pub(crate) fn run<C: Channel>(rt: &impl Abort, channel: &mut C, rows: &[(Step, Answer)]) {
    for (step, expected) in rows {
        assert_eq!(rt; call(rt, channel, *step), *expected, "{step:?}");
    }
}

const ROWS: [(Step, Answer); 17] = [
    (Step::Take(Shield, 1471), Got(Err(ShortBuffer))),
    (Step::Put(Shield, 7, 0), Done(Ok(()))),
    (Step::Put(Shield, 8, 1), Done(Ok(()))),
    (Step::Put(Shield, 9, 1472), Done(Ok(()))),
    (Step::Put(Shield, 10, 1473), Done(Err(Malformed))),
    (Step::Tally(Shield), Count(3)),
    (Step::Tally(Cabin), Count(0)),
    (Step::Take(Cabin, 1471), Got(Err(ShortBuffer))),
    (Step::Take(Cabin, 0), Got(Err(ShortBuffer))),
    (Step::Take(Cabin, 1472), Got(Ok(Some((7, 0))))),
    (Step::Take(Cabin, 2000), Got(Ok(Some((8, 1))))),
    (Step::Take(Cabin, 2000), Got(Ok(Some((9, 1472))))),
    (Step::Take(Cabin, 2000), Got(Ok(None))),
    (Step::Put(Cabin, 69, 5), Done(Ok(()))),
    (Step::Take(Shield, 1472), Got(Ok(Some((69, 5))))),
    (Step::Tally(Shield), Count(3)),
    (Step::Tally(Cabin), Count(1)),
];

#[test]
fn both_channels_answer_alike(rt: HostRuntime) -> Result<(), Fail> {
    let mut places = [Datagram::empty(); 32];
    run(&rt, &mut Ring::new(&mut places)?, &ROWS);
    let mut kept = [Kept::empty(); 32];
    let mut numbers = [0; 8];
    let mut picks = Queue::new(&mut numbers);
    for pick in [0, 1, 2, 3, 3] {
        assert!(rt; picks.push(pick));
    }
    run(&rt, &mut Drawer::new(&mut kept, picks)?, &ROWS);
    Ok(())
}
