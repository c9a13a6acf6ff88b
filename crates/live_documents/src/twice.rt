ghost use Rattle.std.specs.Prelude.{◌≡◌, [], IfNone, IfOk, IsTrue, map};
ghost use Rattle.doc_model.specs.Operations.{uri_of};
ghost use Rattle.doc_model.specs.Tree.{is_distinct};
ghost use Rattle.doc_meaning.specs.Replies.{first_twice};

use doc_model::{Ops, Text};
use std::alloc::{AllocError, Global};
use std::collections::BTreeSet;

/// The first URI that an earlier operation of a commit named, in time n log n and memory of their number n.
pub fn first_twice(alloc: Global, ops: &Ops) -> Result<Option<Text>, AllocError>
    ensures first { IfOk result (λ found. found ≡ first_twice [] (map uri_of ops.now)) }
    ensures distinct { IfOk result (λ found. IfNone found (IsTrue (is_distinct (map uri_of ops.now)))) }
{
    if let [_] = ops.as_slice() {
        return Ok(None);
    }
    let mut met = BTreeSet::new(alloc);
    for op in ops.as_slice() {
        let uri = op.uri();
        if !met.insert(uri.as_str())? {
            let twice = uri.copy(alloc)?;
            return Ok(Some(twice));
        }
    }
    Ok(None)
}
