//! How an engine answers the commands of a session.

ghost use Rattle.std.specs.Prelude.{◌≡◌, ℕ};
ghost use Rattle.doc_engine.specs.EngineState.{SeesSince};
ghost use Rattle.doc_meaning.specs.History.{History, front};
ghost use Rattle.engine_session.specs.Step.{Step};
ghost use Rattle.transcript.specs.declared.reply.Reply.TheVariants as reply;

mod commits;
mod gets;
mod searches;

use commits::said_of;
use disk_model::{Disk, Yard};
use doc_engine::{Engine, Snapshot};
use gets::get;
use searches::search;
use std::alloc::Global;
use transcript::{Command, Reply, When};

/// The reply to a command. It asks the engine for commits, for gets and searches at the front, and for stamps, and
/// costs what they cost.
pub(crate) fn reply<D: Disk, Y: Yard>(
    alloc: Global,
    engine: &mut Engine<D, Y>,
    command: Command,
) -> Reply
    ensures { Step engine.old command result engine.new }
{
    match command {
        Command::Commit(ops) => said_of(engine.commit(ops)),
        Command::Get {
            uri,
            when: When::Front,
        } => get(alloc, &engine.look(), &uri),
        Command::Search {
            query,
            when: When::Front,
        } => search(alloc, &engine.look(), &query),
        Command::Stamp => stamp(&engine.look()),
        Command::Get {
            when: When::At(_) | When::Pinned,
            ..
        }
        | Command::Search {
            when: When::At(_) | When::Pinned,
            ..
        }
        | Command::Estimate { .. }
        | Command::Forget(_)
        | Command::Pin
        | Command::Unpin
        | Command::Save
        | Command::Merge
        | Command::Revive
        | Command::Quit => Reply::Later,
    }
}

// The front, and the timestamp below which nothing is read.
fn stamp(seen: &Snapshot<'_>) -> Reply
    ensures { (since : ℕ) (h : History) → SeesSince seen.now since h → result ≡ reply.Stamp (front h) since }
{
    Reply::Stamp {
        front: seen.stamp(),
        merge: seen.merge_stamp(),
    }
}
