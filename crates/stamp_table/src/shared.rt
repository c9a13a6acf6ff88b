ghost use Rattle.std.specs.Prelude.{◌≡◌, ◌<◌, IfOk, length, map, slice_set};
ghost use Rattle.std.specs.Arc.{arc_value};

use std::alloc::{AllocError, Global};
use std::sync::Arc;

/// The same pieces, shared.
pub(crate) fn share<T: Drop>(alloc: Global, pieces: &[Arc<T>]) -> Result<Vec<Arc<T>>, AllocError>
    ensures { IfOk result (λ shared. map arc_value shared.items ≡ map arc_value pieces.now) }
{
    let mut shared = Vec::with_capacity(alloc, pieces.len())?;
    for piece in pieces {
        shared.push(Arc::try_clone(piece)?)?;
    }
    Ok(shared)
}

/// The same pieces, shared, with another one of this index.
pub(crate) fn share_but<T: Drop>(
    alloc: Global,
    pieces: &[Arc<T>],
    at: usize,
    piece: T,
) -> Result<Vec<Arc<T>>, AllocError>
    requires { at < length pieces.now }
    ensures { IfOk result (λ shared. map arc_value shared.items ≡ slice_set (map arc_value pieces.now) at piece) }
{
    let piece = Arc::new(alloc, piece)?;
    let mut shared = share(alloc, pieces)?;
    shared[at] = piece;
    Ok(shared)
}
