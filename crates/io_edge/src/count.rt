ghost use Rattle.std.specs.Prelude.{◌≡◌, ◌≤◌, Ok, IfOk};
ghost use Rattle.disk_model.specs.Causes.{HasCause, Rose};

use disk_model::Failed;
use std::io;

/// How often something failed. The count stays at 2^64-1.
#[derive(Drop)]
pub struct Count {
    rt: HostRuntime,
    pub faults: u64,
}

impl Count {
    /// Nothing failed yet.
    pub fn new(rt: HostRuntime) -> Self
        ensures { result.faults ≡ 0 }
    {
        Count { rt, faults: 0 }
    }

    /// Counts an error, and prints it on standard error with the name of what failed.
    pub fn fail(&mut self, name: &str, error: io::Error) -> Failed
        ensures rose { Rose self.old.faults self.new.faults }
        ensures later { self.old.faults ≤ self.new.faults }
    {
        // Where standard error fails too, the error is only counted.
        let _ = eprintln!(self.rt; "docdb: {name}: {error}");
        self.faults = self.faults.saturating_add(1);
        Failed
    }

    /// The value that the system returned, or an error, which is counted.
    pub fn counted<T: Drop>(&mut self, name: &str, answer: io::Result<T>) -> Result<T, Failed>
        ensures value { IfOk result (λ value. answer ≡ Ok value) }
        ensures cause { HasCause self.old.faults self.new.faults result }
    {
        match answer {
            Ok(value) => Ok(value),
            Err(error) => Err(self.fail(name, error)),
        }
    }
}
