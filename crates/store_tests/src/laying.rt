// Items laid in through a slip, and refusals passed on.
use pages::table::PagedStore;
use slots::table::SlotStore;
use std::process::Abort;
use std::test::Fail;
use store::fault::Fault;
use store::interface::Store;
use store::{fault, slip};
use terms::refusal::Refusal;

fn text() -> [u8; 3000] {
    std::array::from_fn(|i| ((i % 256) as u8).wrapping_mul(7))
}

// Lays in 3,000 bytes and reads a part of them back.
fn lay_and_read<S: Store>(rt: &impl Abort, store: &mut S) -> Result<(), Fail> {
    let text = text();
    slip::lay_in(store, b"log", &text)?;
    let mut buf = [0; 64];
    assert_eq!(rt; store.read(0, 1440, &mut buf)?, 64);
    assert_eq!(rt; &buf[0..64], &text[1440..1504]);
    assert_eq!(rt;
        slip::lay_in(store, b"log", b"again"),
        Err(Refusal::NameInUse)
    );
    assert_eq!(rt;
        slip::lay_in(store, b"", b"none"),
        Err(Refusal::IllegalName)
    );
    assert_eq!(rt; store.find(b"log"), Some(0));
    Ok(())
}

#[test]
fn an_item_of_any_length(rt: HostRuntime) -> Result<(), Fail> {
    lay_and_read(&rt, &mut SlotStore::new(rt.alloc(), 16 * 3000)?)?;
    lay_and_read(&rt, &mut PagedStore::new(rt.alloc(), 100)?)
}

#[test]
fn a_refused_item_leaves_nothing(rt: HostRuntime) -> Result<(), Fail> {
    let mut store = SlotStore::new(rt.alloc(), 16 * 2999)?;
    assert_eq!(rt;
        slip::lay_in(&mut store, b"log", &text()),
        Err(Refusal::NotTaken)
    );
    assert_eq!(rt; store.find(b"log"), None);
    let slip = slip::begin(&mut store)?;
    let refused = slip::file(&mut store, slip, b"a b");
    assert_eq!(rt; refused, Err(Refusal::IllegalName));
    assert_eq!(rt; store.open(4), Ok(()));
    Ok(())
}

#[test]
fn a_refusal_keeps_its_number(rt: HostRuntime) -> Result<(), Fail> {
    let mut store = PagedStore::new(rt.alloc(), 1)?;
    store.open(0)?;
    for (len, block, work, taken) in [
        (64, 64, 1472, Ok(64)),
        (1, 64, 1472, Err(29)),
        (65, 64, 1472, Err(7)),
        (1, 64, 1471, Err(9)),
    ] {
        let told = fault::hear(&mut store, 0, &[0; 65][0..len], block, work);
        assert_eq!(rt; told.map_err(|why| why.number()), taken);
    }
    Ok(())
}
