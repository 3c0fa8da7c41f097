// Levels as worked out by hand for the marks 10 and 100.
use crate::{Marks, Quiet, ReoptPolicy, level_of};
use std::alloc::AllocError;

#[test]
fn marks_10_and_100(rt: HostRuntime) -> Result<(), AllocError> {
    let alloc = rt.alloc();
    assert!(rt; Marks::new(vec![in alloc; 5, 4]?).is_none());
    let Some(mut marks) = Marks::new(vec![in alloc; 10, 100]?) else {
        panic!(rt; "the marks rise");
    };
    for (level, entries, next) in [
        (1, 9, None),
        (1, 10, Some(2)),
        (2, 10, None),
        (1, 100, Some(3)),
    ] {
        assert!(rt; marks.next(0, level, entries) == next, "at {entries}");
    }
    let mut boxed: Box<dyn ReoptPolicy + Send> = Box::new(alloc, marks)?;
    assert!(rt; level_of(&mut boxed, 99) == 2);
    assert!(rt; Quiet.next(0, 0, 1000) == Some(1) && Quiet.next(0, 1, 1000).is_none());
    Ok(())
}
