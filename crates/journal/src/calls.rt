//! The calls that change the logs.

ghost use Rattle.std.specs.Prelude.{◌≡◌, OnOk, IfErr};
ghost use Rattle.journal.specs.Calls.{Appends, AppendsRoot, Restarts, Revives};
ghost use Rattle.journal.specs.JournalStates.{AreTrimmed, AreUp, AreWithin, HasEmptyRootLog, frozen_after};
ghost use Rattle.frame_log.specs.declared.refusal.LogRefusal.TheVariants.{Down};

use crate::broken_off::BrokenOff;
use crate::journal::Journal;
use disk_model::Disk;
use frame_log::{Frame, LogRefusal};

impl Journal {
    /// Appends an entry's frame to the current journal. After `Ok` the frame survives every crash.
    ///
    /// Makes four device calls, and allocates nothing. Refuses while a log is down.
    pub fn append_entry<D: Disk>(&mut self, disk: &mut D, frame: &Frame) -> Result<(), LogRefusal>
        requires { AreWithin self.old (D.seen disk.old) }
        ensures entry { Appends D.Disk frame.now self.old self.new disk.old disk.new result }
        ensures within { AreWithin self.new (D.seen disk.new) }
    {
        self.check_up()?;
        let result = self.entries.append(disk, frame);
        if self.entries.current().is_gate_unknown() {
            self.broken_off = Some(BrokenOff::Entry);
        }
        result
    }

    /// Appends a root's frame to the empty root log, to the current one if both are empty, and makes that one current.
    /// The root has this checkpoint: a journal that is frozen up to it is so no longer. After `Ok` the frame survives
    /// every crash.
    ///
    /// Makes four device calls, and allocates nothing. Refuses while a log is down.
    pub fn append_root<D: Disk>(
        &mut self,
        disk: &mut D,
        frame: &Frame,
        checkpoint: u64,
    ) -> Result<(), LogRefusal>
        requires within { AreWithin self.old (D.seen disk.old) }
        requires empty { HasEmptyRootLog self.old }
        ensures root { AppendsRoot D.Disk frame.now checkpoint self.old self.new disk.old disk.new result }
        ensures within { AreWithin self.new (D.seen disk.new) }
    {
        self.check_up()?;
        if !self.roots.current().is_empty() {
            self.roots.switch();
        }
        let result = self.roots.append(disk, frame);
        if self.roots.current().is_gate_unknown() {
            self.broken_off = Some(BrokenOff::Root);
        }
        result?;
        self.frozen = still_frozen(self.frozen, checkpoint);
        Ok(())
    }

    /// Brings each log back to its last acknowledged frame. A reset that was broken off is finished.
    ///
    /// Makes two device calls a log, four where a fault may have opened its gate, and allocates nothing: what is behind
    /// the last gate of each log is cut off and synced.
    pub fn revive<D: Disk>(&mut self, disk: &mut D) -> Result<(), LogRefusal>
        requires { AreWithin self.old (D.seen disk.old) }
        ensures revives { Revives D.Disk self.old self.new disk.old disk.new result }
        ensures trimmed { OnOk result (AreTrimmed self.new (D.seen disk.new) (D.may_leave disk.new)) }
        ensures within { AreWithin self.new (D.seen disk.new) }
    {
        self.entries.revive(disk)?;
        self.roots.revive(disk)?;
        self.broken_off = None;
        Ok(())
    }

    // Removes all frames of the journal that isn't current, and makes it the current one.
    pub(crate) fn restart<D: Disk>(&mut self, disk: &mut D) -> Result<(), LogRefusal>
        requires within { AreWithin self.old (D.seen disk.old) }
        requires up { AreUp self.old }
        ensures restarts { Restarts D.Disk self.old self.new disk.old disk.new result }
        ensures trimmed { OnOk result (AreTrimmed self.old (D.seen disk.old) (D.may_leave disk.old)
            → AreTrimmed self.new (D.seen disk.new) (D.may_leave disk.new)) }
        ensures within { AreWithin self.new (D.seen disk.new) }
    {
        if let Err(refusal) = self.entries.reset_other(disk) {
            self.broken_off = Some(BrokenOff::Reset);
            return Err(refusal);
        }
        self.entries.switch();
        Ok(())
    }

    // Refuses while a log is down.
    fn check_up(&self) -> Result<(), LogRefusal>
        ensures up { OnOk result (AreUp self.now) }
        ensures down { IfErr result (λ refusal. (refusal ≡ Down) × (AreUp self.now → ⊥)) }
    {
        if self.is_down() {
            return Err(LogRefusal::Down);
        }
        Ok(())
    }
}

// The last entry of a frozen journal once a root has this checkpoint.
fn still_frozen(frozen: Option<u64>, checkpoint: u64) -> Option<u64>
    ensures { result ≡ frozen_after checkpoint frozen }
{
    match frozen {
        Some(entry) if entry > checkpoint => Some(entry),
        _ => None,
    }
}
