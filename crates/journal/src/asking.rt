//! What is asked of the logs.

ghost use Rattle.std.specs.Prelude.{◌≡◌, ◌+◌, ◌↔◌, length, IsTrue};
ghost use Rattle.journal.specs.JournalStates as states;

use crate::broken_off::BrokenOff;
use crate::journal::Journal;
use frame_log::{Frame, Log};

impl Journal {
    ghost use Rattle.frame_log.specs.LogStates.{end_of};
    ghost use Rattle.journal.specs.JournalStates.{AreUp, current_log, owed_of};

    /// The end that the current journal would have with this frame.
    pub fn end_with(&self, frame: &Frame) -> u64
        ensures { result ≡ end_of (current_log self.now) + 9 + length frame.now }
    {
        self.entries.end_with(frame)
    }

    /// How many logs are to be reset: the older root log if both have frames, and the journal that isn't current if it
    /// has frames and none is past the checkpoint.
    pub fn owed(&self) -> u32
        ensures { result ≡ owed_of self.now }
    {
        let owes_root = has_frames(self.roots.current()) && has_frames(self.roots.other());
        let owes_journal = self.frozen.is_none() && has_frames(self.entries.other());
        u32::from(owes_root) + u32::from(owes_journal)
    }

    /// Whether a log is down.
    pub fn is_down(&self) -> bool
        ensures { IsTrue result ↔ (AreUp self.now → ⊥) }
    {
        self.entries.is_down() || self.roots.is_down()
    }

    /// What a fault broke off, until a revive has succeeded.
    pub fn broken_off(&self) -> Option<BrokenOff>
        ensures { result ≡ self.now.broken_off }
    {
        self.broken_off
    }
}

// Whether a log has frames.
fn has_frames(log: &Log) -> bool
    ensures { result ≡ states.has_frames log.now }
{
    !log.is_empty()
}
