ghost use Rattle.std.specs.Prelude.{◌≡◌, [], map, IfOk};
ghost use Rattle.std.specs.List.{find};
ghost use Rattle.std.specs.Option.{option_copied};
ghost use Rattle.doc_model.specs.Operations.{uri_of};
ghost use Rattle.doc_model.specs.Tree.{is_among};
ghost use Rattle.doc_meaning.specs.Replies.{first_twice, live_stamp, differs, is_spent};

use crate::{Database, History};
use doc_meaning::{CommitReply, LAST_TIMESTAMP};
use doc_model::{Op, Ops, Text};
use std::alloc::{AllocError, Global};

impl History {
    ghost use Rattle.doc_meaning.specs.Replies.{commit_reply};
    ghost use Rattle.plain_history.specs.Histories.{history_of};

    /// The reply to a commit. `full` says that no log has room for one more entry.
    pub fn commit_reply(
        &self,
        alloc: Global,
        ops: &Ops,
        full: bool,
    ) -> Result<CommitReply, AllocError>
        ensures { IfOk result (λ reply. reply ≡ commit_reply full (history_of self.now) ops.now) }
    {
        if let Some(uri) = first_twice(ops.as_slice()) {
            let uri = uri.copy(alloc)?;
            return Ok(CommitReply::Twice { uri });
        }
        let front = self.front();
        let live = self.database_at(alloc, front)?;
        if let Some(op) = first_conflict(&live, ops.as_slice()) {
            let uri = op.uri().copy(alloc)?;
            let found = live_stamp(&live, op.uri());
            return Ok(CommitReply::Conflict { uri, found, front });
        }
        if self.is_spent(full) {
            Ok(CommitReply::Spent { front })
        } else {
            Ok(CommitReply::Entered { at: front + 1 })
        }
    }

    /// Whether no timestamp is left, or no room in the logs.
    pub fn is_spent(&self, full: bool) -> bool
        ensures { result ≡ is_spent full (history_of self.now) }
    {
        full || LAST_TIMESTAMP <= self.front()
    }
}

/// The first URI that is among those before it.
fn first_twice(ops: &[Op]) -> Option<&Text>
    ensures { option_copied result ≡ first_twice [] (map uri_of ops.now) }
{
    for i in 0..ops.len() {
        if is_named(&ops[..i], ops[i].uri()) {
            return Some(ops[i].uri());
        }
    }
    None
}

fn is_named(ops: &[Op], uri: &Text) -> bool
    ensures { result ≡ is_among (map uri_of ops.now) uri.now }
{
    for op in ops {
        if uri == op.uri() {
            return true;
        }
    }
    false
}

/// The first operation whose live version isn't the one that it expects.
fn first_conflict<'a>(live: &Database, ops: &'a [Op]) -> Option<&'a Op>
    ensures { option_copied result ≡ find (differs live.now) ops.now }
{
    for op in ops {
        if differs(live, op) {
            return Some(op);
        }
    }
    None
}

fn live_stamp(live: &Database, uri: &Text) -> u64
    ensures { result ≡ live_stamp live.now uri.now }
{
    match live.get(uri) {
        Some(version) => version.created,
        None => 0,
    }
}

fn differs(live: &Database, op: &Op) -> bool
    ensures { result ≡ differs live.now op.now }
{
    match op.expect() {
        Some(stamp) => stamp != live_stamp(live, op.uri()),
        None => false,
    }
}
