use std::alloc::{AllocError, AllocFailed};
use transcript::BadKind;

/// Why a line asks nothing.
#[derive(Clone, Copy, Debug, PartialEq, Eq)]
pub enum LineRefusal {
    /// The line has a fault: a byte of it, or for `Query` and `Ops` the number of a node of its JSON.
    Bad { kind: BadKind, place: u64 },
    /// The line has a form that isn't answered yet.
    Later,
    Memory,
}

impl From<AllocError> for LineRefusal {
    ghost use Rattle.std.specs.Prelude.{◌≡◌};
    ghost use Rattle.client_lines.specs.declared.refusal.LineRefusal.TheVariants.{Memory};

    ghost from_gives = { λ _ refusal. refusal ≡ Memory };

    fn from(_: AllocError) -> LineRefusal {
        LineRefusal::Memory
    }
}

impl<T: Drop> From<AllocFailed<T>> for LineRefusal {
    ghost use Rattle.std.specs.Prelude.{◌≡◌};
    ghost use Rattle.client_lines.specs.declared.refusal.LineRefusal.TheVariants.{Memory};

    ghost from_gives = { λ _ refusal. refusal ≡ Memory };

    fn from(_: AllocFailed<T>) -> LineRefusal {
        LineRefusal::Memory
    }
}
