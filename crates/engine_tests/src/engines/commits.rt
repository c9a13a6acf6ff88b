//! Commits that are refused.

use super::{MemoryEngine, commit, empty};
use crate::fixtures::put_text;
use doc_engine::CommitRefusal;
use doc_model::Ops;
use std::alloc::Global;
use std::test::Fail;

// A commit that names a URI twice.
fn twice(alloc: Global) -> Result<Ops, Fail> {
    let first = put_text(alloc, "/a", "red fox", None)?;
    let second = put_text(alloc, "/a", "old fox", None)?;
    let mut list = Vec::new(alloc);
    list.push(first)?;
    list.push(second)?;
    Ok(Ops::new(list)?)
}

// The first version of `/a` is the only entry.
fn after_one_commit(alloc: Global) -> Result<MemoryEngine, Fail> {
    let mut engine = empty(alloc)?;
    match commit(alloc, &mut engine, ("/a", "red fox"), Some(0))? {
        Ok(_) => Ok(engine),
        Err(_) => Err("a commit is refused")?,
    }
}

#[test]
fn a_commit_is_refused_that_expects_another_version(rt: HostRuntime) -> Result<(), Fail> {
    let alloc = rt.alloc();
    let mut engine = after_one_commit(alloc)?;
    let refused = commit(alloc, &mut engine, ("/a", "old fox"), Some(0))?;
    assert!(rt;
        matches!(
            &refused,
            Err(CommitRefusal::Conflict {
                found: 1,
                front: 1,
                ..
            })
        )
    );
    Ok(())
}

#[test]
fn a_commit_is_refused_that_names_a_uri_twice(rt: HostRuntime) -> Result<(), Fail> {
    let alloc = rt.alloc();
    let ops = twice(alloc)?;
    let mut engine = empty(alloc)?;
    let refused = engine.commit(ops);
    assert!(rt; matches!(&refused, Err(CommitRefusal::Twice { .. })));
    Ok(())
}
