ghost use Rattle.std.specs.Prelude.{IfOk};
ghost use Rattle.range_index.specs.Columns.{JoinsOnce};

use std::alloc::{AllocError, Global};

/// The fragments of two lists, each once and in order.
pub(crate) fn distinct(alloc: Global, front: &[u32], back: &[u32]) -> Result<Vec<u32>, AllocError>
    ensures { IfOk result (λ found. JoinsOnce front.now back.now found.items) }
{
    let mut found = Vec::from_slice(alloc, front)?;
    found.extend_from_slice(back)?;
    found.sort_unstable();
    found.dedup();
    Ok(found)
}
