//! The logs of a directory.

ghost use Rattle.std.specs.Prelude.{◌≡◌};
ghost use Rattle.journal.specs.Gates.{KnowsGates};
ghost use Rattle.log_pair.specs.PairStates.{first_of};

use crate::broken_off::BrokenOff;
use log_pair::LogPair;

/// The logs of a directory: two journals, of which one takes the next entry, and two root logs.
#[derive(Debug, Drop)]
pub struct Journal {
    pub(crate) entries: LogPair,
    pub(crate) roots: LogPair,
    // The last entry of the journal that isn't current, if it has one past the checkpoint. That journal isn't reset
    // then.
    pub(crate) frozen: Option<u64>,
    // What a fault broke off, until a revive has succeeded.
    pub(crate) broken_off: Option<BrokenOff>,
    ghost journals: { first_of entries ≡ 0 },
    ghost root_logs: { first_of roots ≡ 2 },
    ghost known: { KnowsGates entries roots broken_off },
}
