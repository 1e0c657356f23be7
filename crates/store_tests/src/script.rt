// A script of calls with the answers to expect, run on both stores.
use Answer::{Count, Done, Item};
use pages::table::PagedStore;
use slots::table::SlotStore;
use std::process::Abort;
use std::test::Fail;
use store::interface::Store;
use terms::refusal::Refusal;
use terms::refusal::Refusal::{DraftState, IllegalName, NameInUse, OutOfRange};

// A call. A name is one byte, and a piece is so many bytes.
#[derive(Clone, Copy, Debug)]
pub enum Step {
    Find(u8),
    Size(usize),
    Read(usize, usize),
    Open(usize),
    Append(usize, usize),
    File(usize, u8),
    Strike(usize),
}

// What a call answers: the number of an item, a count of bytes, or that it is done.
#[derive(Clone, Copy, PartialEq, Eq, Debug)]
pub enum Answer {
    Item(Option<usize>),
    Count(Result<usize, Refusal>),
    Done(Result<(), Refusal>),
}

fn call<S: Store>(store: &mut S, step: Step) -> Answer {
    let text = [b'x'; 1469];
    let mut buf = [0; 100];
    match step {
        Step::Find(name) => Item(store.find(&[name])),
        Step::Size(item) => Count(store.size(item)),
        Step::Read(item, from) => Count(store.read(item, from, &mut buf)),
        Step::Open(draft) => Done(store.open(draft)),
        Step::Append(draft, len) => Done(store.append(draft, &text[0..len.min(1469)])),
        Step::File(draft, name) => Done(store.file(draft, &[name])),
        Step::Strike(draft) => Done(store.strike(draft)),
    }
}

pub(crate) fn run<S: Store>(rt: &impl Abort, store: &mut S, rows: &[(Step, Answer)]) {
    for (step, expected) in rows {
        assert_eq!(rt; call(store, *step), *expected, "{step:?}");
    }
}

const ROWS: [(Step, Answer); 34] = [
    (Step::Find(b'a'), Item(None)),
    (Step::Size(0), Count(Err(OutOfRange))),
    (Step::Open(5), Done(Err(OutOfRange))),
    (Step::Append(5, 1), Done(Err(OutOfRange))),
    (Step::File(5, b'a'), Done(Err(OutOfRange))),
    (Step::Strike(5), Done(Err(OutOfRange))),
    (Step::Append(0, 1), Done(Err(DraftState))),
    (Step::File(0, b' '), Done(Err(DraftState))),
    (Step::Strike(0), Done(Err(DraftState))),
    (Step::Open(0), Done(Ok(()))),
    (Step::Open(0), Done(Err(DraftState))),
    (Step::Open(4), Done(Ok(()))),
    (Step::Append(0, 1469), Done(Err(OutOfRange))),
    (Step::Append(0, 1468), Done(Ok(()))),
    (Step::Append(4, 0), Done(Ok(()))),
    (Step::Append(4, 63), Done(Ok(()))),
    (Step::Append(4, 64), Done(Ok(()))),
    (Step::Append(4, 65), Done(Ok(()))),
    (Step::File(0, b' '), Done(Err(IllegalName))),
    (Step::File(0, 127), Done(Err(IllegalName))),
    (Step::File(0, b'a'), Done(Ok(()))),
    (Step::File(0, b'a'), Done(Err(DraftState))),
    (Step::File(4, b'a'), Done(Err(NameInUse))),
    (Step::File(4, b'b'), Done(Ok(()))),
    (Step::Find(b'b'), Item(Some(1))),
    (Step::Size(0), Count(Ok(1468))),
    (Step::Size(1), Count(Ok(192))),
    (Step::Size(2), Count(Err(OutOfRange))),
    (Step::Read(1, 0), Count(Ok(100))),
    (Step::Read(1, 150), Count(Ok(42))),
    (Step::Read(1, 192), Count(Ok(0))),
    (Step::Read(1, 193), Count(Err(OutOfRange))),
    (Step::Read(2, 0), Count(Err(OutOfRange))),
    (Step::Open(3), Done(Ok(()))),
];

#[test]
fn both_stores_answer_alike(rt: HostRuntime) -> Result<(), Fail> {
    run(&rt, &mut SlotStore::new(rt.alloc(), 16 * 1468)?, &ROWS);
    run(&rt, &mut PagedStore::new(rt.alloc(), 256)?, &ROWS);
    Ok(())
}
