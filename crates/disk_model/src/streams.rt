//! A source and a sink of bytes.

ghost use Rattle.std.specs.Prelude.{◌≡◌, ℕ, List, take, MatchResult, Option};
ghost use Rattle.std.specs.Io.{ReadsAtMost};
ghost use Rattle.std.specs.Io.KnownBytes.{ReadConsumes};
ghost use Rattle.disk_model.specs.Causes.{HasCause};
ghost use Rattle.disk_model.specs.Streams.{Adds};

use crate::failed::Failed;

/// Bytes to be read.
pub trait Source: Send + Drop {
    /// The bytes that are left, where they are told.
    ghost left: { Self → Option (List ℕ) };

    /// How often the source has failed.
    ghost faults: { Self → ℕ };

    /// Takes the next bytes into `out`. A failed read takes none. 0 bytes into a buffer that isn't empty is the end.
    fn read(&mut self, out: &mut [u8]) -> Result<usize, Failed>
        ensures bound { ReadsAtMost result out.new }
        ensures bytes { ReadConsumes (left self.old) (left self.new) result out.new }
        ensures cause { HasCause (faults self.old) (faults self.new) result };

    /// How often the source has failed. The count never falls, and stays at 2^64-1.
    fn faults(&self) -> u64
        ensures { result ≡ faults self.now };
}

/// A place to write to.
pub trait Sink: Send + Drop {
    /// The bytes that were written, where they are told.
    ghost written: { Self → Option (List ℕ) };

    /// How often the sink has failed.
    ghost faults: { Self → ℕ };

    /// Writes the piece. A failed write has added a beginning of it.
    fn write(&mut self, bytes: &[u8]) -> Result<(), Failed>
        ensures bytes { Adds result (written self.old) (written self.new) bytes.now }
        ensures cause { HasCause (faults self.old) (faults self.new) result };

    /// How often the sink has failed. The count never falls, and stays at 2^64-1.
    fn faults(&self) -> u64
        ensures { result ≡ faults self.now };
}
