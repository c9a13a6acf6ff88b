//! Commits.

use crate::engine::Engine;
use crate::refusal::CommitRefusal;
use disk_model::{Disk, Yard};
use doc_model::Ops;

impl<D: Disk, Y: Yard> Engine<D, Y> {
    ghost use Rattle.doc_engine.specs.Calls.{AnswersCommit, GrowsByCommit, KeepsRest, SameUnlessFault, SurvivesCommit};

    /// Enters the operations under the next timestamp. After `Ok` the entry survives every crash.
    ///
    /// It takes all memory before the first of four device calls. It takes time n log m for n operations over m live
    /// documents, and in proportion to the bytes of the entry.
    pub fn commit(&mut self, ops: Ops) -> Result<u64, CommitRefusal>
        ensures answers { AnswersCommit self.old self.new ops result }
        ensures growth { GrowsByCommit self.old self.new ops result }
        ensures unchanged { SameUnlessFault self.old self.new result }
        ensures rest { KeepsRest self.old self.new result }
        ensures crash { SurvivesCommit self.old self.new ops result }
    {
        self.check(&ops)?;
        let frame = self.frame(&ops)?;
        let at = self.front + 1;
        let staged = self.live.stage(self.alloc, ops, at)?;
        if self.journal.append_entry(&mut self.disk, &frame).is_err() {
            self.live.take_back(staged);
            self.down = Some(self.disk.faults());
            return Err(CommitRefusal::Fault);
        }
        self.live.settle(staged);
        self.front = at;
        Ok(at)
    }
}
