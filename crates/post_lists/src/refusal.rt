//! Why bytes aren't a term list.

ghost use Rattle.std.specs.Prelude.{◌≡◌};
ghost use Rattle.post_lists.specs.declared.refusal.ListRefusal.TheVariants.{Memory};

use std::alloc::AllocError;
use thiserror::Error;

/// Why bytes aren't a term list.
#[derive(Clone, Copy, Debug, PartialEq, Eq, Error)]
pub enum ListRefusal {
    /// The first byte of the first posting that doesn't fit, or the first byte past the last posting.
    #[error("the bytes aren't a list of postings: place {place} is invalid")]
    Bad { place: u64 },
    #[error("out of memory")]
    Memory,
}

impl From<AllocError> for ListRefusal {
    ghost from_gives = { λ _ why. why ≡ Memory };

    fn from(_e: AllocError) -> ListRefusal {
        ListRefusal::Memory
    }
}
