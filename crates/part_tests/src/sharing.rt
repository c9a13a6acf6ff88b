//! What is shared by threads, in the snapshots of a view, is `Send` and `Sync`.

use stamp_table::Stamps;
use std::test::Fail;
use uri_table::UriTable;

fn may_cross_threads<T: Send + Sync>(_value: &T) {}

#[test]
fn tables_may_be_shared_by_threads(rt: HostRuntime) -> Result<(), Fail> {
    may_cross_threads(&Stamps::new(rt.alloc(), 1)?);
    may_cross_threads(&UriTable::of(rt.alloc(), Vec::new(rt.alloc()))?);
    Ok(())
}
