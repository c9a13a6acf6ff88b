//! Which calls are to fail.

ghost use Rattle.std.specs.Prelude.{◌≡◌, ◌↔◌, [], IfOk, IsTrue, None};
ghost use Rattle.disk_memory.specs.Plans.{IsPast, IsListed, IsVerdict};

use std::alloc::{AllocError, Global};

/// Whether a call is done or fails.
#[derive(Clone, Copy, Debug, PartialEq, Eq)]
pub enum Verdict {
    Goes,
    Fails,
    Stopped,
}

/// The calls that are to fail, by their ordinal from 0, and after how many calls everything stops.
#[derive(Debug, Drop)]
pub struct Plan {
    pub failing: Vec<u64>,
    pub stop: Option<u64>,
}

impl Plan {
    /// A plan by which no call fails.
    pub fn none(alloc: Global) -> Plan
        ensures failing { result.failing.items ≡ [] }
        ensures stop { result.stop ≡ None }
    {
        Plan {
            failing: Vec::new(alloc),
            stop: None,
        }
    }

    /// A plan by which these calls fail, and everything stops after so many, if any.
    pub fn of(alloc: Global, failing: &[u64], stop: Option<u64>) -> Result<Plan, AllocError>
        ensures failing { IfOk result (λ plan. plan.failing.items ≡ failing.now) }
        ensures stop { IfOk result (λ plan. plan.stop ≡ stop) }
    {
        let failing = failing.to_vec(alloc)?;
        Ok(Plan { failing, stop })
    }

    /// Whether the call comes after the stop.
    pub fn is_stopped(&self, call: u64) -> bool
        ensures { IsTrue result ↔ IsPast self.now call }
    {
        match self.stop {
            Some(count) => count <= call,
            None => false,
        }
    }

    /// Whether the call is to fail by itself.
    pub fn is_listed(&self, call: u64) -> bool
        ensures { IsTrue result ↔ IsListed self.now call }
    {
        self.failing.contains(&call)
    }

    /// Whether a call is done or fails. The stop goes before the list.
    pub fn verdict(&self, call: u64) -> Verdict
        ensures { IsVerdict self.now call result }
    {
        if self.is_stopped(call) {
            Verdict::Stopped
        } else if self.is_listed(call) {
            Verdict::Fails
        } else {
            Verdict::Goes
        }
    }
}
