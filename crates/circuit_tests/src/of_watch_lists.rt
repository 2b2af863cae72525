use std::test::Fail;
use watch_lists::{Watch, WatchLists};

#[test]
fn lists_keep_their_watches(rt: HostRuntime) -> Result<(), Fail> {
    let mut lists = WatchLists::new(rt.alloc(), 3)?;
    let one = Watch {
        clause: 4,
        blocker: 9,
    };
    let two = Watch {
        clause: 7,
        blocker: 2,
    };
    lists.push(1, one)?;
    lists.push(1, one)?;
    let both = lists.len(1) == 2;
    assert!(rt; both);
    lists.set(1, 1, two);
    lists.swap_remove(1, 0);
    let single = lists.len(1) == 1;
    assert!(rt; single);
    assert_eq!(rt; lists.get(1, 0), two);
    assert_eq!(rt; lists.len(0), 0);
    Ok(())
}
