//! Replies to searches.

ghost use Rattle.std.specs.Prelude.{◌≡◌, ◌⊎◌};
ghost use Rattle.doc_engine.specs.EngineState.{Sees};
ghost use Rattle.doc_meaning.specs.History.{History};
ghost use Rattle.engine_session.specs.Step.{found_at};
ghost use Rattle.json_text.specs.Canonical.{quoted};
ghost use Rattle.transcript.specs.Answers.{reply_to_bad};
ghost use Rattle.transcript.specs.declared.reply.Reply.TheVariants as reply;

use doc_engine::{SearchRefusal, Snapshot, TooOld};
use doc_model::{Kind, Node, Query, QueryBad, Text};
use json_text::write;
use std::alloc::Global;
use transcript::Reply;

// What is found at the front, or why it can't be searched.
pub(crate) fn search(alloc: Global, seen: &Snapshot<'_>, query: &Query) -> Reply
    ensures { ((h : History) → Sees seen.now h → result ≡ found_at h query.now) ⊎ (result ≡ reply.Memory) }
{
    let front = seen.stamp();
    match seen.search(alloc, query) {
        Ok(uris) => Reply::Found {
            at: front,
            front,
            uris,
        },
        Err(SearchRefusal::Query(why)) => refused(alloc, why),
        Err(SearchRefusal::Old(TooOld { asked, merge })) => Reply::Old { asked, merge },
        Err(SearchRefusal::Memory) => Reply::Memory,
    }
}

// A query that breaks a rule.
fn refused(alloc: Global, why: QueryBad) -> Reply
    ensures { (result ≡ reply_to_bad why) ⊎ (result ≡ reply.Memory) }
{
    match why {
        QueryBad::TooDeep { .. } => Reply::Deep,
        QueryBad::TooMany { .. } => Reply::Many,
        QueryBad::BadDirectory => Reply::Directory,
        QueryBad::NearChild => Reply::Near,
        QueryBad::NoRange { name, kind } => no_range(alloc, name, kind),
        QueryBad::Memory => Reply::Memory,
    }
}

// No index of this kind over the property of this name.
#[tactic(auto, using(crate::proofs::Writing::text_text))]
fn no_range(alloc: Global, name: Text, kind: Kind) -> Reply
    ensures { (result ≡ reply.NoRange (quoted name) kind) ⊎ (result ≡ reply.Memory) }
{
    match write(alloc, &Node::Text(name)) {
        Ok(name) => Reply::NoRange { name, kind },
        Err(_) => Reply::Memory,
    }
}
