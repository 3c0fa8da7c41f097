// Ten words, as worked out by hand.
use crate::CodeSpace;
use rj_num::NoMemory;

#[test]
fn ten_words(rt: HostRuntime) -> Result<(), NoMemory> {
    let alloc = rt.alloc();
    let mut space = CodeSpace::new(alloc, 10)?;
    let (low, high) = (space.take(4), space.take(4));
    assert!(rt; low == Some(0) && high == Some(4));
    space.reserve(alloc, 1)?;
    space.give(0, 4);
    assert!(rt; space.take(5) == None && space.largest() == 4);
    space.reserve(alloc, 1)?;
    space.give(4, 4);
    assert!(rt; space.count() == 10 && space.ranges().len() == 1);
    assert!(rt; space.take(10) == Some(0));
    Ok(())
}
