ghost use Rattle.std.specs.Prelude.{◌≡◌, OnOk};
ghost use Rattle.doc_meaning.specs.History.{after_op, after_ops, after_entry};

use crate::LiveDocuments;
use doc_model::{Entry, Op};
use std::alloc::{AllocError, Global};

impl LiveDocuments {
    /// Applies the entry of a history that is opened: its documents are moved in. After an error it holds some of
    /// the changes.
    pub fn apply(&mut self, alloc: Global, entry: Entry, at: u64) -> Result<(), AllocError>
        ensures { OnOk result (self.new ≡ after_entry at entry self.old) }
    {
        match entry {
            Entry::Commit(ops) => self.apply_all(alloc, ops.into_vec(), at),
            Entry::Forget(_) => Ok(()),
        }
    }

    fn apply_all(&mut self, alloc: Global, ops: Vec<Op>, at: u64) -> Result<(), AllocError>
        ensures { OnOk result (self.new ≡ after_ops at ops.items self.old) }
    {
        for op in ops {
            self.apply_op(alloc, op, at)?;
        }
        Ok(())
    }

    fn apply_op(&mut self, alloc: Global, op: Op, at: u64) -> Result<(), AllocError>
        ensures { OnOk result (self.new ≡ after_op at op self.old) }
    {
        match op {
            Op::Put { document, .. } => {
                self.put(alloc, document, at)?;
            }
            Op::Remove { uri, .. } => self.remove(&uri),
        }
        Ok(())
    }
}
