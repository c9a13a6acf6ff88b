//! A log of frames.

ghost use Rattle.std.specs.Prelude.{◌≡◌, ◌≢◌, ◌<◌, ◌≤◌, ◌+◌, ◌^◌, ◌↔◌, [], length, IsTrue, IsSome, IfOk, IfErr, OnOk};
ghost use Rattle.std.specs.Prelude.{OnErr, MatchResult};
ghost use Rattle.disk_model.specs.declared.disk.TheConstants.{LOG_COUNT};

use crate::device::{truncate_synced, write_synced};
use crate::frame::{CLOSED, Frame, OPEN};
use crate::refusal::LogRefusal;
use crate::state::State;
use disk_model::{Disk, Failed, LONGEST_LOG};

/// A log of frames: its number on the disk, and the place of its last gate.
#[derive(Debug, Drop)]
pub struct Log {
    file: u8,
    end: u64,
    state: State,
    ghost is_file: { file < LOG_COUNT },
    ghost short: { end < 2 ^ 62 },
}

impl Log {
    ghost use Rattle.disk_model.specs.Causes.{HasCause};
    ghost use Rattle.frame_log.specs.LogStates.{file_of, end_of, IsUp, IsDown, IsGateUnknown, IsEmpty, IsBlank};
    ghost use Rattle.frame_log.specs.LogStates.{Holds, IsWithin, IsTrimmed, KeepsToLog};
    ghost use Rattle.disk_model.specs.Stretches.{SparesOthers};
    ghost use Rattle.frame_log.specs.Calls.{NotAdmitted, AppendAnswers, ResetAnswers, ReviveAnswers};
    ghost use Rattle.frame_log.specs.Calls.{Adds, Empties, BringsBack, Shuts, TrimsFrames};
    ghost use Rattle.frame_log.specs.declared.refusal.LogRefusal.TheVariants.{Fault};
    ghost use Rattle.frame_log.specs.declared.state.State.TheVariants.{GateUnknown};

    // The log whose last gate is at this place and closed.
    pub(crate) fn ending(file: u8, end: u64) -> Log
        requires file { file < LOG_COUNT }
        requires end { end < 2 ^ 62 }
        ensures place { (file_of result ≡ file) × (end_of result ≡ end) }
        ensures up { IsUp result }
    {
        Log {
            file,
            end,
            state: State::Healthy,
        }
    }

    /// Makes an empty log, whatever bytes the file has.
    ///
    /// Four device calls and no memory: a closed gate is written at the start and synced, what is behind it is cut off
    /// and synced.
    pub fn blank<D: Disk>(disk: &mut D, file: u8) -> Result<Log, Failed>
        requires { file < LOG_COUNT }
        ensures log { IfOk result (λ log. IsBlank file log) }
        ensures empty { IfOk result (λ log. IsSome (D.seen disk.old) → Holds D.Disk log disk.new []) }
        ensures within { IfOk result (λ log. IsWithin log (D.seen disk.new)) }
        ensures others { SparesOthers D.Disk file disk.old disk.new }
        ensures cause { HasCause (D.faults disk.old) (D.faults disk.new) result }
    {
        write_synced(disk, file, 0, &[CLOSED])?;
        truncate_synced(disk, file, 1)?;
        Ok(Log::ending(file, 0))
    }

    /// Whether the log met a fault and wasn't revived.
    pub fn is_down(&self) -> bool
        ensures { IsTrue result ↔ IsDown self.now }
    {
        self.state != State::Healthy
    }

    /// Whether the fault came while the gate was written. A crash may then leave the frame of the append that failed,
    /// or undo the reset that failed.
    pub fn is_gate_unknown(&self) -> bool
        ensures { IsTrue result ↔ IsGateUnknown self.now }
    {
        self.state == State::GateUnknown
    }

    /// Whether the log has no frame.
    pub fn is_empty(&self) -> bool
        ensures { IsTrue result ↔ IsEmpty self.now }
    {
        self.end == 0
    }

    /// The place of the last gate after an append of this frame.
    pub fn end_with(&self, frame: &Frame) -> u64
        ensures { result ≡ end_of self.now + 9 + length frame.now }
    {
        self.end + frame.bytes().len() as u64
    }

    // Refuses a frame whose next gate is at this place, where the log is down or would be too long.
    fn admit(&self, end: u64) -> Result<(), LogRefusal>
        ensures { MatchResult result (λ _. IsUp self.now × (end < 2 ^ 62)) (NotAdmitted self.now end) }
    {
        if self.is_down() {
            return Err(LogRefusal::Down);
        }
        if end >= LONGEST_LOG {
            return Err(LogRefusal::Long { end: self.end });
        }
        Ok(())
    }

    /// Adds a frame. After `Ok` the frame survives every crash.
    ///
    /// Four device calls and no memory: the frame is written behind the closed gate and synced, the gate is opened and
    /// synced.
    pub fn append<D: Disk>(&mut self, disk: &mut D, frame: &Frame) -> Result<(), LogRefusal>
        requires within { IsWithin self.old (D.seen disk.old) }
        ensures answer { AppendAnswers D.faults self.old self.new disk.old disk.new (length frame.now) result }
        ensures frames { Adds D.Disk frame.now self.old self.new disk.old disk.new result }
        ensures disk { KeepsToLog D.Disk self.new disk.old disk.new }
    {
        let end = self.end_with(frame);
        self.admit(end)?;
        self.state = State::Failed;
        write_synced(disk, self.file, self.end + 1, frame.bytes())?;
        self.state = State::GateUnknown;
        write_synced(disk, self.file, self.end, &[OPEN])?;
        self.end = end;
        self.state = State::Healthy;
        Ok(())
    }

    /// Removes all frames. After `Ok` no crash leaves one.
    ///
    /// A log without frames makes no device call. Otherwise there are four, and no memory is taken: a closed gate is
    /// written at the start and synced, what is behind it is cut off and synced.
    pub fn reset<D: Disk>(&mut self, disk: &mut D) -> Result<(), LogRefusal>
        requires within { IsWithin self.old (D.seen disk.old) }
        ensures answer { ResetAnswers D.faults self.old self.new disk.old disk.new result }
        ensures frames { Empties D.Disk self.old self.new disk.old disk.new result }
        ensures trimmed { OnOk result (TrimsFrames self.old self.new (D.seen disk.new) (D.may_leave disk.new)) }
        ensures disk { KeepsToLog D.Disk self.new disk.old disk.new }
    {
        if self.is_down() {
            return Err(LogRefusal::Down);
        }
        if self.is_empty() {
            return Ok(());
        }
        self.end = 0;
        self.state = State::GateUnknown;
        self.revive(disk)
    }

    /// Brings the log back to its last acknowledged frame. A reset that failed is finished.
    ///
    /// It makes two device calls, or four where a fault may have opened the gate, and takes no memory: such a gate is
    /// written closed and synced, then what is behind the gate is cut off and synced. A log that isn't down keeps its
    /// frames.
    pub fn revive<D: Disk>(&mut self, disk: &mut D) -> Result<(), LogRefusal>
        requires within { IsWithin self.old (D.seen disk.old) }
        ensures answer { ReviveAnswers D.faults self.old self.new disk.old disk.new result }
        ensures frames { BringsBack D.Disk self.old self.new disk.old disk.new result }
        ensures trimmed { OnOk result (IsTrimmed self.new (D.seen disk.new) (D.may_leave disk.new)) }
        ensures gate { IsGateUnknown self.new → IsGateUnknown self.old }
        ensures disk { KeepsToLog D.Disk self.new disk.old disk.new }
    {
        self.shut(disk)?;
        self.state = State::Failed;
        truncate_synced(disk, self.file, self.end + 1)?;
        self.state = State::Healthy;
        Ok(())
    }

    // Closes the gate where a fault may have opened it.
    fn shut<D: Disk>(&mut self, disk: &mut D) -> Result<(), LogRefusal>
        requires within { IsWithin self.old (D.seen disk.old) }
        ensures frames { Shuts D.Disk self.old self.new disk.old disk.new }
        ensures disk { KeepsToLog D.Disk self.new disk.old disk.new }
        ensures shut { OnOk result (self.new.state ≢ GateUnknown) }
        ensures gate { IsGateUnknown self.new → IsGateUnknown self.old }
        ensures down { IfErr result (λ refusal. (refusal ≡ Fault) × IsDown self.new) }
        ensures place { (file_of self.new ≡ file_of self.old) × (end_of self.new ≡ end_of self.old) }
        ensures cause { HasCause (D.faults disk.old) (D.faults disk.new) result }
    {
        if !self.is_gate_unknown() {
            return Ok(());
        }
        write_synced(disk, self.file, self.end, &[CLOSED])?;
        self.state = State::Failed;
        Ok(())
    }
}
