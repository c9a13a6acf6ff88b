//! Why a pool refuses a call.

ghost use Rattle.std.specs.Prelude.{◌≡◌};

use std::alloc::AllocError;
use thiserror::Error;

/// Why a pool took no item and no chain. It is as before then.
#[derive(Clone, Copy, Debug, PartialEq, Eq, Error)]
pub enum PoolRefusal {
    /// There are as many nodes, for an item, or as many chains, for a chain, as the limit `nodes` allows.
    #[error("a pool is full at {nodes}")]
    Full { nodes: u32 },
    #[error("out of memory")]
    Memory,
}

impl From<AllocError> for PoolRefusal {
    ghost use Rattle.post_pool.specs.declared.refusal.PoolRefusal.TheVariants.{Memory};

    ghost from_gives = { λ _ refusal. refusal ≡ Memory };

    fn from(_: AllocError) -> PoolRefusal {
        PoolRefusal::Memory
    }
}
