//! The calls and the faults of one object.

ghost use Rattle.std.specs.Prelude.{◌≡◌, ◌≤◌, ◌+◌, ◌-◌, ◌^◌, ◌↔◌, IsTrue, min};
ghost use Rattle.std.specs.Bool.{OnTrue, OnFalse};
ghost use Rattle.disk_model.specs.Causes.{Rose};
ghost use Rattle.disk_memory.specs.Plans.{IsVerdict};

use crate::plan::{Plan, Verdict};
use disk_model::Failed;

/// Counts the calls and the faults of one object, by a plan of its own.
#[derive(Drop)]
pub struct Faults {
    pub plan: Plan,
    pub calls: u64,
    pub count: u64,
}

impl Faults {
    /// No call was made yet.
    pub fn new(plan: Plan) -> Self
        ensures plan { result.plan ≡ plan }
        ensures calls { result.calls ≡ 0 }
        ensures none { result.count ≡ 0 }
    {
        Faults {
            plan,
            calls: 0,
            count: 0,
        }
    }

    /// Counts a call. Where it returns false it has counted a fault too.
    pub fn lets(&mut self) -> bool
        ensures planned { IsTrue result ↔ IsVerdict self.old.plan self.old.calls Verdict.Goes }
        ensures plan { self.new.plan ≡ self.old.plan }
        ensures calls { self.new.calls ≡ min (self.old.calls + 1) (2 ^ 64 - 1) }
        ensures goes { OnTrue result (self.new.count ≡ self.old.count) }
        ensures fails { OnFalse result (Rose self.old.count self.new.count) }
        ensures later { self.old.count ≤ self.new.count }
    {
        let call = self.calls;
        self.calls = self.calls.saturating_add(1);
        match self.plan.verdict(call) {
            Verdict::Goes => true,
            Verdict::Fails | Verdict::Stopped => {
                self.fail();
                false
            }
        }
    }

    /// Counts a fault.
    pub fn fail(&mut self) -> Failed
        ensures plan { self.new.plan ≡ self.old.plan }
        ensures calls { self.new.calls ≡ self.old.calls }
        ensures rose { Rose self.old.count self.new.count }
        ensures later { self.old.count ≤ self.new.count }
    {
        self.count = self.count.saturating_add(1);
        Failed
    }
}
