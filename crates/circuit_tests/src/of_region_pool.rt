use region_pool::{BlockRef, Clauses, Log, Region};
use std::test::Fail;

#[test]
fn a_region_is_its_list_of_blocks(rt: HostRuntime) -> Result<(), Fail> {
    let mut region = Region::new(rt.alloc());
    let first = region.put([1, 2].as_slice())?;
    let second = region.put([3].as_slice())?;
    assert!(rt; region.has(first));
    let inside = region.get(first).len() == 2;
    assert!(rt; inside);
    region.set(first, 0, 9);
    assert_eq!(rt; region.len(), 2);
    assert!(rt; region.has(second));
    assert_eq!(rt; region.get(first), [9, 2].as_slice());
    assert_eq!(rt; region.get(second), [3].as_slice());
    assert!(rt; !region.has(BlockRef { number: 2 }));
    region.reset();
    assert_eq!(rt; region.len(), 0);
    Ok(())
}

#[test]
fn a_put_within_spare_does_not_fail(rt: HostRuntime) -> Result<(), Fail> {
    let mut region = Region::new(rt.alloc());
    region.reserve(4)?;
    assert!(rt; region.spare() >= 4);
    let before = region.put([1, 2, 3].as_slice()).unwrap();
    region.reset();
    let after = region.put([4, 5, 6].as_slice()).unwrap();
    assert_eq!(rt; before, after);
    assert_eq!(rt; region.get(after), [4, 5, 6].as_slice());
    assert_eq!(rt; region.len(), 1);
    Ok(())
}

#[test]
fn many_blocks_keep_their_words(rt: HostRuntime) -> Result<(), Fail> {
    let mut region = Region::new(rt.alloc());
    for number in 0..1000u64 {
        region.put([number, number + 1].as_slice())?;
    }
    assert_eq!(rt; region.len(), 1000);
    for number in 0..1000 {
        let here = BlockRef { number };
        assert!(rt; region.has(here));
        let word = number as u64;
        assert_eq!(rt; region.get(here), [word, word + 1].as_slice());
    }
    Ok(())
}

#[test]
fn clauses_and_lines_are_lent_as_they_were_added(rt: HostRuntime) -> Result<(), Fail> {
    let mut clauses = Clauses::new(rt.alloc(), 2);
    clauses.add([0, 3].as_slice())?;
    clauses.add([].as_slice())?;
    assert_eq!(rt; clauses.variables(), 2);
    assert_eq!(rt; clauses.len(), 2);
    assert_eq!(rt; clauses.clause(0), [0, 3].as_slice());
    assert_eq!(rt; clauses.clause(1).len(), 0);
    let mut log = Log::new(rt.alloc());
    log.add([1].as_slice(), [1, 0].as_slice())?;
    assert_eq!(rt; log.len(), 1);
    assert_eq!(rt; log.literals(0), [1].as_slice());
    assert_eq!(rt; log.hints(0), [1, 0].as_slice());
    Ok(())
}
