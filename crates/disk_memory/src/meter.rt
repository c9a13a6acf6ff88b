//! A count of calls that a disk, a yard and its builds share.

ghost use Rattle.std.specs.Prelude.{◌≡◌, ℕ, IfOk};
ghost use Rattle.std.specs.Arc.{arc_value};
ghost use Rattle.disk_memory.specs.Plans.{IsVerdict};

use crate::plan::{Plan, Verdict};
use std::alloc::{AllocError, Global};
use std::sync::Arc;
use std::sync::atomic::{AtomicU64, Ordering};

#[derive(Drop)]
struct Calls {
    plan: Plan,
    made: AtomicU64,
}

/// Counts the calls of a disk, a yard and its builds together, and decides by one plan which of them fail.
#[derive(Drop)]
pub struct Meter {
    calls: Arc<Calls>,
}

impl Meter {
    /// A meter that has counted nothing.
    pub fn new(alloc: Global, plan: Plan) -> Result<Self, AllocError>
        ensures { IfOk result (λ meter. (arc_value meter.calls).plan ≡ plan) }
    {
        let calls = Arc::new(
            alloc,
            Calls {
                plan,
                made: AtomicU64::new(0),
            },
        )?;
        Ok(Meter { calls })
    }

    /// A meter that counts the same calls.
    pub fn share(&self) -> Result<Self, AllocError>
        ensures { IfOk result (λ meter. arc_value meter.calls ≡ arc_value self.now.calls) }
    {
        let calls = Arc::try_clone(&self.calls)?;
        Ok(Meter { calls })
    }

    /// How many calls were made.
    pub fn made(&self) -> u64 {
        self.calls.made.load(Ordering::SeqCst)
    }

    /// Counts a call, and decides whether it fails.
    pub fn next(&self) -> Verdict
        ensures { (call : ℕ) × IsVerdict (arc_value self.now.calls).plan call result }
    {
        let call = self.calls.made.fetch_add(1, Ordering::SeqCst);
        self.calls.plan.verdict(call)
    }
}
