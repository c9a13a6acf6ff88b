//! Reading sealed files.

ghost use Rattle.std.specs.Prelude.{◌≡◌, ◌≤◌, ◌+◌, ℕ, List, length, take, drop, OnOk, IfSome};
ghost use Rattle.disk_model.specs.Causes.{HasCause};

use crate::failed::Failed;
use crate::yard::SealedFile;

/// Reads sealed files, and counts the bytes that it reads.
pub trait Port: Send + Drop {
    type File: SealedFile;

    /// How many bytes were read.
    ghost reads: { Self → ℕ };

    /// How often the port has failed.
    ghost faults: { Self → ℕ };

    /// Fills `out` with the bytes of the file from the place on.
    fn read(&mut self, file: &Self::File, place: u64, out: &mut [u8]) -> Result<(), Failed>
        requires { place + length out.old ≤ Self.File.size file.now }
        ensures bytes { OnOk result (IfSome (Self.File.bytes file.now)
            (λ content. out.new ≡ take (length out.old) (drop place content))) }
        ensures rises { reads self.old ≤ reads self.new }
        ensures reads { reads self.new ≤ reads self.old + length out.old }
        ensures cause { HasCause (faults self.old) (faults self.new) result };

    /// How many bytes were read. The count never falls, and stays at 2^64-1.
    fn reads(&self) -> u64
        ensures { result ≡ reads self.now };

    /// How often the port has failed. The count never falls, and stays at 2^64-1.
    fn faults(&self) -> u64
        ensures { result ≡ faults self.now };
}
