// The memory of a slot store.
use crate::script::Answer::{self, Count, Done, Item};
use crate::script::{Step, run};
use slots::table::SlotStore;
use std::test::Fail;
use store::slip;
use terms::refusal::Refusal::{DraftState, NoDraftFree, NotTaken, OutOfRange};

// Memory, and the size of a slot.
const SIZES: [(usize, usize); 6] = [(0, 0), (15, 0), (16, 1), (31, 1), (8191, 511), (8192, 512)];

#[test]
fn a_draft_fills_its_slot(rt: HostRuntime) -> Result<(), Fail> {
    for (bytes, size) in SIZES {
        let mut store = SlotStore::new(rt.alloc(), bytes)?;
        assert_eq!(rt; store.slot_size(), size);
        run(
            &rt,
            &mut store,
            &[
                (Step::Open(2), Done(Ok(()))),
                (Step::Append(2, size), Done(Ok(()))),
                (Step::Append(2, 0), Done(Ok(()))),
                (Step::Append(2, 1), Done(Err(NotTaken))),
                (Step::File(2, b'a'), Done(Ok(()))),
                (Step::Size(0), Count(Ok(size))),
            ],
        );
    }
    Ok(())
}

const FULL: [(Step, Answer); 4] = [
    (Step::Open(0), Done(Err(NoDraftFree))),
    (Step::Find(b'p'), Item(Some(15))),
    (Step::Size(15), Count(Ok(1))),
    (Step::Size(16), Count(Err(OutOfRange))),
];

#[test]
fn sixteen_items_fill_a_store(rt: HostRuntime) -> Result<(), Fail> {
    let mut store = SlotStore::new(rt.alloc(), 16)?;
    for name in b'a'..=b'p' {
        slip::lay_in(&mut store, &[name], b"x")?;
    }
    run(&rt, &mut store, &FULL);
    Ok(())
}

const INTERLEAVED: [(Step, Answer); 16] = [
    (Step::Open(0), Done(Ok(()))),
    (Step::Open(1), Done(Ok(()))),
    (Step::Open(2), Done(Ok(()))),
    (Step::Open(3), Done(Ok(()))),
    (Step::Open(4), Done(Ok(()))),
    (Step::Append(4, 4), Done(Ok(()))),
    (Step::Append(0, 3), Done(Ok(()))),
    (Step::Append(4, 1), Done(Err(NotTaken))),
    (Step::Append(0, 1), Done(Ok(()))),
    (Step::Strike(2), Done(Ok(()))),
    (Step::Append(2, 1), Done(Err(DraftState))),
    (Step::File(4, b'e'), Done(Ok(()))),
    (Step::File(0, b'a'), Done(Ok(()))),
    (Step::Find(b'e'), Item(Some(0))),
    (Step::Find(b'a'), Item(Some(1))),
    (Step::Open(2), Done(Ok(()))),
];

#[test]
fn drafts_interleave(rt: HostRuntime) -> Result<(), Fail> {
    let mut store = SlotStore::new(rt.alloc(), 16 * 4)?;
    run(&rt, &mut store, &INTERLEAVED);
    Ok(())
}
