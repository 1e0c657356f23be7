// The pages of a paged store.
use crate::script::Answer::{self, Count, Done};
use crate::script::{Step, run};
use pages::setup::SetupError;
use pages::table::PagedStore;
use std::test::Fail;
use terms::refusal::Refusal::{NotTaken, OutOfRange};

// Three pages.
const SPENT: [(Step, Answer); 16] = [
    (Step::Open(0), Done(Ok(()))),
    (Step::Open(1), Done(Ok(()))),
    (Step::Append(0, 63), Done(Ok(()))),
    (Step::Append(1, 65), Done(Ok(()))),
    (Step::Append(0, 1), Done(Ok(()))),
    (Step::Append(0, 1), Done(Err(NotTaken))),
    (Step::Append(0, 0), Done(Ok(()))),
    (Step::Append(1, 63), Done(Ok(()))),
    (Step::Append(1, 1), Done(Err(NotTaken))),
    (Step::Strike(1), Done(Ok(()))),
    (Step::Append(0, 129), Done(Err(NotTaken))),
    (Step::Append(0, 128), Done(Ok(()))),
    (Step::File(0, b'a'), Done(Ok(()))),
    (Step::Size(0), Count(Ok(192))),
    (Step::Open(0), Done(Ok(()))),
    (Step::Append(0, 1), Done(Err(NotTaken))),
];

#[test]
fn pages_are_spent_and_given_back(rt: HostRuntime) -> Result<(), Fail> {
    let mut store = PagedStore::new(rt.alloc(), 3)?;
    run(&rt, &mut store, &SPENT);
    Ok(())
}

#[test]
fn at_most_256_pages(rt: HostRuntime) -> Result<(), Fail> {
    assert_eq!(rt; PagedStore::new(rt.alloc(), 256)?.page_limit(), 256);
    assert_eq!(rt; PagedStore::new(rt.alloc(), 0)?.page_limit(), 0);
    assert_eq!(rt;
        PagedStore::new(rt.alloc(), 257).err(),
        Some(SetupError::Refused(OutOfRange))
    );
    Ok(())
}
