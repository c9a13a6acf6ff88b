//! What is checked before an entry is made.

ghost use Rattle.std.specs.Prelude.{◌≡◌, OnOk, IfOk, IfErr};

use crate::engine::Engine;
use crate::refusal::CommitRefusal;
use disk_model::{Disk, LONGEST_LOG, Yard};
use doc_meaning::LAST_TIMESTAMP;
use doc_model::Ops;
use frame_log::Frame;
use journal_bodies::commit_body;
use live_documents::first_twice;

impl<D: Disk, Y: Yard> Engine<D, Y> {
    ghost use Rattle.doc_engine.specs.Checks.{HasNoRoom, HasRoom, MayEnter, MayNotEnter};
    ghost use Rattle.doc_engine.specs.EngineState.{down_since, front_of, journal_of, read_state};

    // Refuses while a log is down, a URI that is named twice, and an operation that expects another version than the
    // live one.
    pub(crate) fn check(&self, ops: &Ops) -> Result<(), CommitRefusal>
        ensures may { OnOk result (MayEnter (read_state self.now) (down_since self.now) ops.now) }
        ensures refused { IfErr result (MayNotEnter (read_state self.now) (down_since self.now) ops.now) }
    {
        if let Some(faults) = self.down {
            return Err(CommitRefusal::Down { faults });
        }
        if let Some(uri) = first_twice(self.alloc, ops)? {
            return Err(CommitRefusal::Twice { uri });
        }
        if let Some(conflict) = self.live.conflict(self.alloc, ops)? {
            return Err(CommitRefusal::Conflict {
                uri: conflict.uri,
                found: conflict.found,
                front: self.front,
            });
        }
        Ok(())
    }

    // The frame of the next entry, where a timestamp is left and the journal has room. Its length is that under any
    // number.
    pub(crate) fn frame(&self, ops: &Ops) -> Result<Frame, CommitRefusal>
        requires { MayEnter (read_state self.now) (down_since self.now) ops.now }
        ensures room { IfOk result (HasRoom (front_of self.now) (journal_of self.now) ops.now) }
        ensures refused { IfErr result (HasNoRoom (front_of self.now) (journal_of self.now) ops.now) }
    {
        let number = self.front.saturating_add(1);
        let body = commit_body(self.alloc, number, ops)?;
        let frame = Frame::of(self.alloc, &body)?;
        let end = self.journal.end_with(&frame);
        if end >= LONGEST_LOG || self.front >= LAST_TIMESTAMP {
            return Err(CommitRefusal::Spent {
                front: self.front,
                end,
            });
        }
        Ok(frame)
    }
}
