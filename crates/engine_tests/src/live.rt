//! The live documents beside the plain history of the same entries.

ghost use Rattle.std.specs.Prelude.{IfOk, IsTrue};
ghost use Rattle.std.specs.List.{list_all};
ghost use Rattle.doc_model.specs.Operations.{removes_uri};

use crate::fixtures::{plain_settings, put_text, word};
use doc_model::{Entry, Op, Ops, Query, Text, is_uri};
use live_documents::{LiveDocuments, Staged, first_twice};
use plain_history::{Database, History};
use std::alloc::Global;
use std::process::Abort;
use std::test::Fail;

fn remove(alloc: Global, uri: &str) -> Result<Op, Fail>
    ensures { IfOk result (λ op. IsTrue (removes_uri op)) }
{
    let uri = Text::from_str(alloc, uri)?;
    if !is_uri(uri.as_str()) {
        return Err("no URI".into());
    }
    Ok(Op::Remove { uri, expect: None })
}

// Three documents are put.
fn first_commit(alloc: Global) -> Result<Ops, Fail> {
    let c = put_text(alloc, "/c", "old fox", None)?;
    let a = put_text(alloc, "/a", "red fox", None)?;
    let b = put_text(alloc, "/b", "old owl", None)?;
    let list = vec![in alloc; c, a, b]?;
    Ok(Ops::new(list)?)
}

// One of them is removed, one is replaced, what there isn't is removed, and a new one is put.
fn changes(alloc: Global) -> Result<Vec<Op>, Fail>
    ensures { IfOk result (λ list. IsTrue (list_all removes_uri list.items)) }
{
    let c = remove(alloc, "/c")?;
    let a = put_text(alloc, "/a", "red owl", None)?;
    let x = remove(alloc, "/x")?;
    let d = put_text(alloc, "/d", "new fox", None)?;
    Ok(vec![in alloc; c, a, x, d]?)
}

fn second_commit(alloc: Global) -> Result<Ops, Fail> {
    let list = changes(alloc)?;
    Ok(Ops::new(list)?)
}

// The history of both commits, and of a forget after them.
fn history(alloc: Global) -> Result<History, Fail> {
    let mut history = History::new(alloc, plain_settings(alloc));
    history.push(Entry::Commit(first_commit(alloc)?))?;
    history.push(Entry::Commit(second_commit(alloc)?))?;
    history.push(Entry::Forget(1))?;
    Ok(history)
}

// What that history shows at a timestamp.
fn plain_at(alloc: Global, at: u64) -> Result<Database, Fail> {
    let history = history(alloc)?;
    Ok(history.database_at(alloc, at)?)
}

// The live documents after the first commit.
fn first_three(alloc: Global) -> Result<LiveDocuments, Fail> {
    let ops = first_commit(alloc)?;
    let mut live = LiveDocuments::new(alloc);
    live.apply(alloc, Entry::Commit(ops), 1)?;
    Ok(live)
}

// Stages the second commit.
fn stage_second(alloc: Global, live: &mut LiveDocuments) -> Result<Staged, Fail> {
    let ops = second_commit(alloc)?;
    let None = first_twice(alloc, &ops)? else {
        return Err("a URI is named twice".into());
    };
    Ok(live.stage(alloc, ops, 2)?)
}

// When the version of a URI was created, 0 where there is none.
fn created(plain: &Database, uri: &Text) -> u64 {
    match plain.get(uri) {
        Some(version) => version.created,
        None => 0,
    }
}

// Both have the version of a URI that was created at the same timestamp, or none.
fn check_uri(
    rt: &impl Abort,
    alloc: Global,
    live: &LiveDocuments,
    plain: &Database,
    name: &str,
) -> Result<(), Fail> {
    let uri = Text::from_str(alloc, name)?;
    let found = (live.stamp(&uri), live.get(&uri).is_some());
    let stamp = created(plain, &uri);
    assert_eq!(rt; found, (stamp, stamp > 0), "{name}");
    Ok(())
}

fn check_uris(
    rt: &impl Abort,
    alloc: Global,
    live: &LiveDocuments,
    plain: &Database,
) -> Result<(), Fail> {
    for name in ["/a", "/b", "/c", "/d", "/x"] {
        check_uri(rt, alloc, live, plain, name)?;
    }
    Ok(())
}

// Both find the same URIs.
fn check_query(
    rt: &impl Abort,
    alloc: Global,
    live: &LiveDocuments,
    plain: &Database,
    query: &Query,
) -> Result<(), Fail> {
    let found = live.answer(alloc, query)?;
    let wanted = plain.answer(alloc, query)?;
    assert_eq!(rt; found.as_slice(), wanted.as_slice(), "{query:?}");
    Ok(())
}

fn check_queries(
    rt: &impl Abort,
    alloc: Global,
    live: &LiveDocuments,
    plain: &Database,
) -> Result<(), Fail> {
    for text in ["red", "old", "new", "fox", "owl"] {
        let query = word(alloc, text)?;
        check_query(rt, alloc, live, plain, &query)?;
    }
    check_query(rt, alloc, live, plain, &Query::True)
}

// The live documents are those of the history at a timestamp.
fn check_alike(rt: &impl Abort, alloc: Global, live: &LiveDocuments, at: u64) -> Result<(), Fail> {
    let plain = plain_at(alloc, at)?;
    assert_eq!(rt; live.len(), 3);
    check_uris(rt, alloc, live, &plain)?;
    check_queries(rt, alloc, live, &plain)
}

#[test]
fn a_commit_that_is_settled_is_that_of_the_plain_history(rt: HostRuntime) -> Result<(), Fail> {
    let alloc = rt.alloc();
    let mut live = first_three(alloc)?;
    let staged = stage_second(alloc, &mut live)?;
    live.settle(staged);
    check_alike(&rt, alloc, &live, 2)
}

#[test]
fn a_commit_that_is_taken_back_leaves_nothing(rt: HostRuntime) -> Result<(), Fail> {
    let alloc = rt.alloc();
    let mut live = first_three(alloc)?;
    let staged = stage_second(alloc, &mut live)?;
    live.take_back(staged);
    check_alike(&rt, alloc, &live, 1)
}

#[test]
fn entries_are_applied_like_those_of_the_plain_history(rt: HostRuntime) -> Result<(), Fail> {
    let alloc = rt.alloc();
    let mut live = first_three(alloc)?;
    live.apply(alloc, Entry::Commit(second_commit(alloc)?), 2)?;
    live.apply(alloc, Entry::Forget(1), 3)?;
    check_alike(&rt, alloc, &live, 3)
}
