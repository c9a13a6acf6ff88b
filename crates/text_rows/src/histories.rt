//! Histories of commits and forgets, and their replies.

use crate::rules::{commit, op};
use doc_meaning::{CommitReply, ForgetReply, ReadReply};
use doc_model::{Entry, Indexes, Settings, Text, Texts};
use plain_history::History;
use std::alloc::{AllocError, Global};

/// The reply to the last of some steps, each an operation, a forget or a question. What isn't refused is entered.
pub fn history(alloc: Global, steps: &str) -> Result<String, AllocError> {
    let settings = Settings {
        indexes: Indexes::none(alloc),
        save_at: 10_000,
        merge_at: 8,
    };
    let mut history = History::new(alloc, settings);
    let mut reply = String::new(alloc);
    for step in steps.split(" | ") {
        reply = reply_to(alloc, &mut history, step)?;
    }
    Ok(reply)
}

/// The reply to a step.
fn reply_to(alloc: Global, history: &mut History, step: &str) -> Result<String, AllocError> {
    let (word, rest) = step.split_once(' ').unwrap_or((step, ""));
    match word {
        "forget" => forget(alloc, history, rest),
        "look" => format!(in alloc; "{:?}", history.look()),
        "get" => get(alloc, history, rest),
        "search" | "estimate" => ask(alloc, history, word, rest),
        _ => enter(alloc, history, step),
    }
}

/// Commits an operation, and enters the commit where it isn't refused.
fn enter(alloc: Global, history: &mut History, step: &str) -> Result<String, AllocError> {
    let mut list = Vec::new(alloc);
    if let Some(op) = op(alloc, step)? {
        list.push(op)?;
    }
    let ops = match commit(alloc, list)? {
        Ok(ops) => ops,
        Err(rule) => return Ok(rule),
    };
    let reply = history.commit_reply(alloc, &ops, false)?;
    if let CommitReply::Entered { .. } = &reply {
        history.push(Entry::Commit(ops))?;
    }
    told(alloc, &reply)
}

/// The reply to a commit.
fn told(alloc: Global, reply: &CommitReply) -> Result<String, AllocError> {
    match reply {
        CommitReply::Conflict { uri, found, front } => {
            format!(in alloc; "Conflict {} {found} {front}", uri.as_str())
        }
        other => format!(in alloc; "{other:?}"),
    }
}

/// The reply to a forget of a timestamp, behind which `full` says that the logs have no room.
fn forget(alloc: Global, history: &mut History, step: &str) -> Result<String, AllocError> {
    let (to, full) = step.split_once(' ').unwrap_or((step, ""));
    let to = to.parse::<u64>().unwrap_or(0);
    let reply = history.forget_reply(to, full == "full");
    if let ForgetReply::Entered { .. } = reply {
        history.push(Entry::Forget(to))?;
    }
    format!(in alloc; "{reply:?}")
}

/// A question and its timestamp.
fn timed(step: &str) -> (&str, u64) {
    let (what, at) = step.rsplit_once(" at ").unwrap_or((step, ""));
    (what, at.parse::<u64>().unwrap_or(0))
}

/// When the version of a URI was created that is live at a timestamp.
fn get(alloc: Global, history: &History, step: &str) -> Result<String, AllocError> {
    let (uri, at) = timed(step);
    let uri = Text::from_str(alloc, uri)?;
    match history.get_reply(alloc, at, &uri)? {
        ReadReply::Found(Some(version)) => format!(in alloc; "created {}", version.created),
        other => format!(in alloc; "{other:?}"),
    }
}

/// The reply to a search or an estimate of a query at a timestamp.
fn ask(alloc: Global, history: &History, word: &str, step: &str) -> Result<String, AllocError> {
    let (query, at) = timed(step);
    let query = match cts_text::read(alloc, query.as_bytes()) {
        Ok(query) => query,
        Err(bad) => return format!(in alloc; "{bad:?}"),
    };
    if word == "estimate" {
        return format!(in alloc; "{:?}", history.estimate_reply(alloc, at, &query)?);
    }
    match history.search_reply(alloc, at, &query)? {
        ReadReply::Found(uris) => found(alloc, &uris),
        other => format!(in alloc; "{other:?}"),
    }
}

/// The URIs that are found.
fn found(alloc: Global, uris: &Texts) -> Result<String, AllocError> {
    let mut out = String::from_str(alloc, "found")?;
    for uri in uris.as_slice() {
        write!(out, " {}", uri.as_str())?;
    }
    Ok(out)
}
