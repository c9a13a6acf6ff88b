//! Tables of deleted stamps around the ends of chunks and blocks.

use stamp_table::Stamps;
use std::alloc::{AllocError, Global};
use std::test::Fail;

const ENDS: [u32; 6] = [0, 255, 256, 65_535, 65_536, 69_999];

/// The deleted stamp of a fragment; none where there is no such fragment.
fn stamp(table: &Stamps, i: u32) -> Option<u64> {
    if i < table.len() {
        Some(table.get(i))
    } else {
        None
    }
}

/// The table with a deleted stamp for a fragment that has none; else an equal table.
fn stamped(alloc: Global, table: &Stamps, i: u32, t: u64) -> Result<Stamps, AllocError> {
    if i < table.len() && table.get(i) == 0 && t > 0 {
        table.set(alloc, i, t)
    } else {
        table.copy(alloc)
    }
}

#[test]
fn a_stamp_is_set_in_a_new_table_alone(rt: HostRuntime) -> Result<(), Fail> {
    let old = Stamps::new(rt.alloc(), 70_000)?;
    let mut table = old.copy(rt.alloc())?;
    for i in ENDS {
        table = stamped(rt.alloc(), &table, i, 9)?;
    }
    for i in ENDS {
        assert_eq!(rt;
            (stamp(&old, i), stamp(&table, i)),
            (Some(0), Some(9)),
            "{i}"
        );
    }
    for i in [1, 254, 257, 65_534, 65_537, 69_998] {
        assert_eq!(rt; stamp(&table, i), Some(0), "{i}");
    }
    assert_eq!(rt; stamp(&table, 70_000), None);
    Ok(())
}

/// The length of the table of so many ones, and its last stamp.
fn last_of(alloc: Global, count: u32) -> Result<(u32, Option<u64>), AllocError> {
    let table = Stamps::of(alloc, vec![in alloc; 1; count as usize]?)?;
    Ok((table.len(), stamp(&table, count.saturating_sub(1))))
}

#[test]
fn a_table_is_as_long_as_its_list(rt: HostRuntime) -> Result<(), Fail> {
    assert_eq!(rt; last_of(rt.alloc(), 0)?, (0, None));
    for count in [1, 256, 257, 65_536, 65_537] {
        assert_eq!(rt; last_of(rt.alloc(), count)?, (count, Some(1)));
    }
    Ok(())
}
