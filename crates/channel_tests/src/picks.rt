// The picks of a drawer.
use crate::script::Answer::{self, Done, Got};
use crate::script::{Step, run};
use channel::interface::Channel;
use channel::puts::put_repeatedly;
use drawer::drawer::{Drawer, Kept};
use queue::queue::Queue;
use std::test::Fail;
use terms::refusal::Refusal::OutOfRange;
use terms::side::Side::{Cabin, Shield};

// By the picks 1, 0, 0, 2, 2, 9, 0: late, repeated, for the other side and then for its own, past what is kept, and again.
const PICKED: [(Step, Answer); 11] = [
    (Step::Put(Shield, 7, 1), Done(Ok(()))),
    (Step::Put(Shield, 8, 2), Done(Ok(()))),
    (Step::Put(Cabin, 9, 3), Done(Ok(()))),
    (Step::Take(Cabin, 1472), Got(Ok(Some((8, 2))))),
    (Step::Take(Cabin, 1472), Got(Ok(Some((7, 1))))),
    (Step::Take(Cabin, 2000), Got(Ok(Some((7, 1))))),
    (Step::Take(Cabin, 1472), Got(Ok(None))),
    (Step::Take(Shield, 1472), Got(Ok(Some((9, 3))))),
    (Step::Take(Cabin, 1472), Got(Ok(None))),
    (Step::Take(Cabin, 1472), Got(Ok(Some((7, 1))))),
    (Step::Take(Cabin, 1472), Got(Ok(None))),
];

#[test]
fn a_pick_for_each_take(rt: HostRuntime) -> Result<(), Fail> {
    let mut kept = [Kept::empty(); 32];
    let mut numbers = [1, 0, 0, 2, 2, 9, 0];
    let picks_wanted = numbers;
    let mut picks = Queue::new(&mut numbers);
    for pick in picks_wanted {
        assert!(rt; picks.push(pick));
    }
    run(&rt, &mut Drawer::new(&mut kept, picks)?, &PICKED);
    Ok(())
}

#[test]
fn the_first_32_are_kept(rt: HostRuntime) -> Result<(), Fail> {
    let mut kept = [Kept::empty(); 40];
    let mut numbers = [0; 2];
    let mut picks = Queue::new(&mut numbers);
    for pick in [32, 31] {
        assert!(rt; picks.push(pick));
    }
    let mut drawer = Drawer::new(&mut kept, picks)?;
    put_repeatedly(&mut drawer, Shield, 5, 69, &[7], 31)?;
    drawer.put(Shield, 6, 69, &[7])?;
    drawer.put(Shield, 7, 69, &[7])?;
    run(
        &rt,
        &mut drawer,
        &[
            (Step::Tally(Shield), Answer::Count(33)),
            (Step::Take(Cabin, 1472), Got(Ok(None))),
            (Step::Take(Cabin, 1472), Got(Ok(Some((6, 1))))),
        ],
    );
    Ok(())
}

#[test]
fn a_drawer_wants_32_places(rt: HostRuntime) -> Result<(), Fail> {
    let mut kept = [Kept::empty(); 32];
    for (len, refusal) in [(0, Some(OutOfRange)), (31, Some(OutOfRange)), (32, None)] {
        let mut numbers = [0; 1];
        let picks = Queue::new(&mut numbers);
        assert_eq!(rt; Drawer::new(&mut kept[..len], picks).err(), refusal);
    }
    Ok(())
}
