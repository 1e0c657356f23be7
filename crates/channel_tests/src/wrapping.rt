// The queue, round its places many times.
use queue::queue::Queue;
use std::test::Fail;

#[test]
fn first_in_first_out(rt: HostRuntime) -> Result<(), Fail> {
    let mut slots = [0u32; 3];
    let mut queue = Queue::new(&mut slots);
    for n in 0..1000 {
        assert!(rt; queue.push(n));
        if n >= 2 {
            assert_eq!(rt; queue.pop(), Some(n - 2));
        }
    }
    assert_eq!(rt; queue.len(), 2);
    assert!(rt; queue.push(1000));
    assert!(rt; !queue.push(1001));
    for n in 998..1001 {
        assert_eq!(rt; queue.pop(), Some(n));
    }
    assert_eq!(rt; queue.pop(), None);
    Ok(())
}

#[test]
fn no_places(rt: HostRuntime) -> Result<(), Fail> {
    let mut slots: [u8; 0] = [];
    let mut queue = Queue::new(&mut slots);
    assert!(rt; !queue.push(1));
    assert_eq!(rt; queue.pop(), None);
    assert_eq!(rt; queue.len(), 0);
    Ok(())
}
