ghost use Rattle.std.specs.Prelude.{◌≡◌, IfOk};
ghost use Rattle.std.specs.List.{find};
ghost use Rattle.std.specs.Option.{option_copied, option_map};
ghost use Rattle.doc_meaning.specs.Replies.{differs};
ghost use Rattle.live_documents.specs.Conflicts.{conflict_at};

use crate::{Conflict, LiveDocuments};
use doc_model::{Op, Ops};
use std::alloc::{AllocError, Global};

impl LiveDocuments {
    /// The first operation whose live version isn't the one that it expects. It takes memory for its URI alone.
    pub fn conflict(&self, alloc: Global, ops: &Ops) -> Result<Option<Conflict>, AllocError>
        ensures { IfOk result (λ found.
            found ≡ option_map (conflict_at self.now) (find (differs self.now) ops.now)) }
    {
        let Some(op) = self.first_that_differs(ops.as_slice()) else {
            return Ok(None);
        };
        let uri = op.uri().copy(alloc)?;
        let found = self.stamp(op.uri());
        Ok(Some(Conflict { uri, found }))
    }

    fn first_that_differs<'a>(&self, ops: &'a [Op]) -> Option<&'a Op>
        ensures { option_copied result ≡ find (differs self.now) ops.now }
    {
        for op in ops {
            if self.differs(op) {
                return Some(op);
            }
        }
        None
    }

    fn differs(&self, op: &Op) -> bool
        ensures { result ≡ differs self.now op.now }
    {
        match op.expect() {
            Some(stamp) => stamp != self.stamp(op.uri()),
            None => false,
        }
    }
}
