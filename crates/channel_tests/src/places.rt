// The places of a ring.
use crate::script::Answer::{self, Count, Done, Got};
use crate::script::{Step, run};
use channel::datagram::Datagram;
use channel::interface::Channel;
use channel::puts::put_repeatedly;
use ring::ring::Ring;
use std::test::Fail;
use terms::refusal::Refusal::OutOfRange;
use terms::side::Side::{Cabin, Shield};

// After 17 puts by the shield.
const FULL: [(Step, Answer); 4] = [
    (Step::Tally(Shield), Count(17)),
    (Step::Put(Cabin, 3, 1), Done(Ok(()))),
    (Step::Take(Shield, 1472), Got(Ok(Some((3, 1))))),
    (Step::Take(Shield, 1472), Got(Ok(None))),
];

#[test]
fn the_seventeenth_is_lost(rt: HostRuntime) -> Result<(), Fail> {
    let mut places = [Datagram::empty(); 32];
    let mut ring = Ring::new(&mut places)?;
    for source in 100..117 {
        ring.put(Shield, source, 69, &[7])?;
    }
    run(&rt, &mut ring, &FULL);
    for source in 100..116 {
        run(
            &rt,
            &mut ring,
            &[(Step::Take(Cabin, 1472), Got(Ok(Some((source, 1)))))],
        );
    }
    run(&rt, &mut ring, &[(Step::Take(Cabin, 1472), Got(Ok(None)))]);
    Ok(())
}

#[test]
fn a_place_is_free_after_a_take(rt: HostRuntime) -> Result<(), Fail> {
    let mut places = [Datagram::empty(); 40];
    let mut ring = Ring::new(&mut places)?;
    put_repeatedly(&mut ring, Shield, 5, 69, &[7, 7], 16)?;
    for _ in 0..100 {
        run(
            &rt,
            &mut ring,
            &[
                (Step::Take(Cabin, 2000), Got(Ok(Some((5, 2))))),
                (Step::Put(Shield, 5, 2), Done(Ok(()))),
            ],
        );
    }
    put_repeatedly(&mut ring, Shield, 6, 69, &[7], 3)?;
    for _ in 0..16 {
        run(
            &rt,
            &mut ring,
            &[(Step::Take(Cabin, 1472), Got(Ok(Some((5, 2)))))],
        );
    }
    run(&rt, &mut ring, &[(Step::Take(Cabin, 1472), Got(Ok(None)))]);
    Ok(())
}

#[test]
fn a_ring_wants_32_places(rt: HostRuntime) -> Result<(), Fail> {
    let mut places = [Datagram::empty(); 32];
    for (len, refusal) in [(0, Some(OutOfRange)), (31, Some(OutOfRange)), (32, None)] {
        assert_eq!(rt; Ring::new(&mut places[..len]).err(), refusal);
    }
    Ok(())
}
