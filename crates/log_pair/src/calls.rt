//! The calls of a pair that change its logs.

ghost use Rattle.std.specs.Prelude.{◌≡◌, length, OnOk};
ghost use Rattle.frame_log.specs.Calls.{AppendAnswers, ResetAnswers};
ghost use Rattle.log_pair.specs.Calls.{AddsToCurrent, BringsBoth, EmptiesOther, KeepsGates, PairReviveAnswers};
ghost use Rattle.log_pair.specs.Calls.{TrimsOther};
ghost use Rattle.log_pair.specs.PairStates.{current_of, other_of, AreTrimmed, AreWithin};
ghost use Rattle.log_pair.specs.Sparing.{KeepsToPair};

use crate::current::Current;
use crate::pair::LogPair;
use disk_model::Disk;
use frame_log::{Frame, LogRefusal};

impl LogPair {
    /// Adds a frame to the current log. After `Ok` the frame survives every crash.
    ///
    /// It makes four device calls, and takes no memory.
    pub fn append<D: Disk>(&mut self, disk: &mut D, frame: &Frame) -> Result<(), LogRefusal>
        requires within { AreWithin self.old (D.seen disk.old) }
        ensures answer { AppendAnswers D.faults (current_of self.old) (current_of self.new) disk.old disk.new
            (length frame.now) result }
        ensures frames { AddsToCurrent D.Disk frame.now self.old self.new disk.old disk.new result }
        ensures other { other_of self.new ≡ other_of self.old }
        ensures disk { KeepsToPair D.Disk self.new disk.old disk.new }
    {
        match self.current {
            Current::First => self.first.append(disk, frame),
            Current::Second => self.second.append(disk, frame),
        }
    }

    /// Removes all frames of the other log. After `Ok` no crash leaves one.
    ///
    /// It makes four device calls, or none where the other log has no frame, and takes no memory.
    pub fn reset_other<D: Disk>(&mut self, disk: &mut D) -> Result<(), LogRefusal>
        requires within { AreWithin self.old (D.seen disk.old) }
        ensures answer { ResetAnswers D.faults (other_of self.old) (other_of self.new) disk.old disk.new result }
        ensures frames { EmptiesOther D.Disk self.old self.new disk.old disk.new result }
        ensures trimmed { OnOk result (TrimsOther self.old self.new (D.seen disk.old) (D.seen disk.new)
            (D.may_leave disk.old) (D.may_leave disk.new)) }
        ensures current { current_of self.new ≡ current_of self.old }
        ensures disk { KeepsToPair D.Disk self.new disk.old disk.new }
    {
        match self.current {
            Current::First => self.second.reset(disk),
            Current::Second => self.first.reset(disk),
        }
    }

    /// Brings both logs back to their last acknowledged frames. A reset that failed is finished.
    ///
    /// It makes two device calls a log, four where a fault may have opened its gate, and takes no memory: what is
    /// behind the log's last gate is cut off and synced. The log with the lower number comes first. A log that isn't
    /// down keeps its frames.
    pub fn revive<D: Disk>(&mut self, disk: &mut D) -> Result<(), LogRefusal>
        requires within { AreWithin self.old (D.seen disk.old) }
        ensures answer { PairReviveAnswers D.faults self.old self.new disk.old disk.new result }
        ensures frames { BringsBoth D.Disk self.old self.new disk.old disk.new result }
        ensures trimmed { OnOk result (AreTrimmed self.new (D.seen disk.new) (D.may_leave disk.new)) }
        ensures gates { KeepsGates self.old self.new }
        ensures disk { KeepsToPair D.Disk self.new disk.old disk.new }
    {
        self.first.revive(disk)?;
        self.second.revive(disk)
    }
}
