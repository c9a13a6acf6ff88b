//! The logs of a database: what a read gives, and what a crash may leave.

ghost use Rattle.std.specs.Prelude.{◌≡◌, ◌<◌, ◌≤◌, ◌+◌, ◌^◌, ℕ, length, take, Option, Result, IfOk, OnOk, OnErr};
ghost use Rattle.std.specs.Prelude.{MatchResult, IfSome};
ghost use Rattle.disk_model.specs.Causes.{HasCause};
ghost use Rattle.disk_model.specs.Changes.{Any, OnlyAt, Becomes};
ghost use Rattle.disk_model.specs.Logs.{Image, Writes, Cuts, Torn, MayCut, Follows, HasLogOf, Settled, ReadsAt};
ghost use Rattle.disk_model.specs.Moments.{TakesTime};

use crate::failed::Failed;

/// How many logs a disk has.
pub const LOG_COUNT: u8 = 4;

/// How many bytes a log has at most.
pub const LONGEST_LOG: u64 = 1 << 62;

/// The logs of a database, by number, under one clock. A call on one log changes no other log.
///
/// After a crash, whatever was written to a log since its last sync may be any bytes, and so may all bytes past its old
/// end. A cut since then may have happened or not. The same holds after a call that failed.
pub trait Disk: Send + Drop {
    /// What a read of each log gives. A real disk doesn't tell it.
    ghost seen: { Self → Option Image };

    /// The images that a crash at this moment may leave.
    ghost may_leave: { Self → Image → Type 0 };

    /// The time, as a number that never falls.
    ghost moment: { Self → ℕ };

    /// The images that a crash at some moment since that time might have left.
    ghost left_since: { Self → ℕ → Image → Type 0 };

    /// How often the disk has failed.
    ghost faults: { Self → ℕ };

    /// The length of a log in bytes.
    fn len(&mut self, file: u8) -> Result<u64, Failed>
        requires { file < LOG_COUNT }
        ensures bytes { IfOk result (λ n. IfSome (seen self.old) (λ image. n ≡ length (image file))) }
        ensures bound { IfOk result (λ n. n ≤ 2 ^ 62) }
        ensures seen { seen self.new ≡ seen self.old }
        ensures crash { (c : Image) → may_leave self.new c → may_leave self.old c }
        ensures time { TakesTime moment left_since may_leave self.old self.new }
        ensures cause { HasCause (faults self.old) (faults self.new) result };

    /// Reads bytes of a log into `out`. A read may be short. Into a buffer with room it returns 0 only at the end.
    fn read_at(&mut self, file: u8, place: u64, out: &mut [u8]) -> Result<usize, Failed>
        requires file { file < LOG_COUNT }
        requires place { place ≤ 2 ^ 62 }
        ensures bytes { IfOk result (λ n. IfSome (seen self.old) (λ image. ReadsAt (image file) place n out.new)) }
        ensures bound { IfOk result (λ n. n ≤ length out.new) }
        ensures seen { seen self.new ≡ seen self.old }
        ensures crash { (c : Image) → may_leave self.new c → may_leave self.old c }
        ensures time { TakesTime moment left_since may_leave self.old self.new }
        ensures cause { HasCause (faults self.old) (faults self.new) result };

    /// Writes these bytes, over old ones and past the end.
    fn write_at(&mut self, file: u8, place: u64, bytes: &[u8]) -> Result<(), Failed>
        requires file { file < LOG_COUNT }
        requires place { IfSome (seen self.old) (λ image. place ≤ length (image file)) }
        requires end { place + length bytes.now ≤ 2 ^ 62 }
        ensures written { OnOk result (Becomes (OnlyAt file (Writes place bytes.now)) (seen self.old) (seen self.new)) }
        ensures broken { OnErr result
            (Becomes (OnlyAt file (Torn place (length bytes.now))) (seen self.old) (seen self.new)) }
        ensures crash { Follows (OnlyAt file (Torn place (length bytes.now)))
            (may_leave self.old) (may_leave self.new) }
        ensures time { TakesTime moment left_since may_leave self.old self.new }
        ensures cause { HasCause (faults self.old) (faults self.new) result };

    /// Cuts a log to its first `len` bytes.
    fn cut(&mut self, file: u8, len: u64) -> Result<(), Failed>
        requires file { file < LOG_COUNT }
        requires len { IfSome (seen self.old) (λ image. len ≤ length (image file)) }
        requires end { len ≤ 2 ^ 62 }
        ensures cut { OnOk result (Becomes (OnlyAt file (Cuts len)) (seen self.old) (seen self.new)) }
        ensures broken { OnErr result (Becomes (OnlyAt file (MayCut len)) (seen self.old) (seen self.new)) }
        ensures crash { Follows (OnlyAt file (MayCut len)) (may_leave self.old) (may_leave self.new) }
        ensures time { TakesTime moment left_since may_leave self.old self.new }
        ensures cause { HasCause (faults self.old) (faults self.new) result };

    /// Syncs a log. After `Ok` a crash leaves of it what a read gives.
    fn sync(&mut self, file: u8) -> Result<(), Failed>
        requires { file < LOG_COUNT }
        ensures settled { OnOk result (Settled file (seen self.new) (may_leave self.new)) }
        ensures others { OnOk result (Follows (OnlyAt file Any) (may_leave self.old) (may_leave self.new)) }
        ensures broken { OnErr result ((c : Image) → may_leave self.new c → may_leave self.old c) }
        ensures seen { seen self.new ≡ seen self.old }
        ensures time { TakesTime moment left_since may_leave self.old self.new }
        ensures cause { HasCause (faults self.old) (faults self.new) result };

    /// How often the disk has failed. The count never falls, and stays at 2^64-1.
    fn faults(&self) -> u64
        ensures { result ≡ faults self.now };

    /// What a crash may leave now, it might have left since any earlier time.
    ghost counts_now: { (disk : Self) (t : ℕ) (c : Image) → t ≤ moment disk → may_leave disk c → left_since disk t c };

    /// Since this moment a crash might have left only what it may leave now.
    ghost only_now: { (disk : Self) (c : Image) → left_since disk (moment disk) c → may_leave disk c };

    /// A crash may leave what a read gives.
    ghost reads_now: { (disk : Self) → IfSome (seen disk) (may_leave disk) };

    /// What a crash leaves of one log doesn't depend on what it leaves of the others.
    ghost each_alone: { (disk : Self) (file : ℕ) (other : Image) (old : Image) (new : Image)
        → may_leave disk other → may_leave disk old → HasLogOf file other old new → may_leave disk new };
}
