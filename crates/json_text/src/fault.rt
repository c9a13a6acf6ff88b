ghost use Rattle.std.specs.Prelude.{◌≡◌};
ghost use Rattle.json_text.specs.declared.fault.Stop.TheVariants as stop;
ghost use Rattle.json_text.specs.declared.fault.Stop.TheVariants.{Memory};

use std::alloc::{AllocError, AllocFailed};

/// A fault of a text, and how many bytes are left from its place on.
#[derive(Clone, Copy, Debug, PartialEq, Eq)]
pub enum Fault {
    Syntax(usize),
    Utf8(usize),
    Depth(usize),
    Number(usize),
}

/// Why a reading ends early.
#[derive(Debug, Drop)]
pub enum Stop {
    Fault(Fault),
    Memory,
}

impl From<AllocError> for Stop {
    ghost from_gives = { λ _ e. e ≡ Memory };

    fn from(_e: AllocError) -> Stop {
        Stop::Memory
    }
}

impl<T: Drop> From<AllocFailed<T>> for Stop {
    ghost from_gives = { λ _ e. e ≡ Memory };

    fn from(_e: AllocFailed<T>) -> Stop {
        Stop::Memory
    }
}

impl From<Fault> for Stop {
    ghost from_gives = { λ f e. e ≡ stop.Fault f };

    fn from(fault: Fault) -> Stop {
        Stop::Fault(fault)
    }
}
