//! How a script ends, beside how it is to end.

use crate::directory::{Logs, NAMES, blank, copied};
use crate::running::{Ended, calls_before, fresh, logs_behind, ran_script, told};
use crate::script::{Begin, Log, Script};
use crate::stopping::swept;
use std::alloc::{AllocError, Global};
use std::str;

/// The text of some bytes.
fn text(bytes: &[u8]) -> &str {
    str::from_utf8(bytes).unwrap_or("no UTF-8\n")
}

/// The logs with those of a script in their places.
fn replaced(alloc: Global, logs: Logs, others: &[Log]) -> Result<Logs, AllocError> {
    let mut out = Vec::new(alloc);
    for (name, log) in NAMES.iter().zip(logs.iter()) {
        let mut chosen = log.to_vec(alloc)?;
        for (other, bytes) in others {
            if other.as_str() == *name {
                chosen = bytes.to_vec(alloc)?;
            }
        }
        out.push(chosen)?;
    }
    Ok(out)
}

/// Where a script begins, after one that left these logs.
fn beginning(alloc: Global, script: &Script, before: &Logs) -> Result<Logs, AllocError> {
    let logs = match script.begin {
        Begin::Fresh => fresh(alloc)?,
        Begin::Again => copied(alloc, before)?,
        Begin::Blank | Begin::Nowhere => blank(alloc)?,
    };
    replaced(alloc, logs, &script.logs)
}

/// Appends the names of the logs that aren't left as the script wants them.
fn add_logs(out: &mut String, script: &Script, logs: &Logs) -> Result<(), AllocError> {
    for (name, log) in NAMES.iter().zip(logs.iter()) {
        for (other, bytes) in &script.leaves {
            if other.as_str() == *name && bytes.as_slice() != log.as_slice() {
                write!(out, "  left {name} {:?}\n", log.as_slice())?;
            }
        }
    }
    Ok(())
}

/// What is found otherwise than a script wants.
fn difference(
    alloc: Global,
    script: &Script,
    ended: &Ended,
    logs: &Logs,
) -> Result<String, AllocError> {
    let mut out = String::new(alloc);
    if told(ended) != script.told.as_slice() {
        write!(out, "  told\n{}", text(told(ended)))?;
    }
    if ended.world.printed() != script.printed.as_slice() {
        write!(out, "  printed\n{}", text(ended.world.printed()))?;
    }
    if u64::from(ended.code) != script.status {
        write!(out, "  status {}\n", ended.code)?;
    }
    if script.unread > 0 {
        write!(out, "  lines that say nothing: {}\n", script.unread)?;
    }
    add_logs(&mut out, script, logs)?;
    Ok(out)
}

/// What a script leaves, and what is otherwise than it wants.
pub fn judged(
    alloc: Global,
    script: &Script,
    before: &Logs,
) -> Result<(Logs, Option<String>), AllocError> {
    let logs = beginning(alloc, script, before)?;
    let opening = calls_before(alloc, &logs, script)?;
    let ended = ran_script(alloc, &logs, script, script.faults, opening)?;
    let behind = logs_behind(alloc, &ended, script.landed)?;
    let mut found = difference(alloc, script, &ended, &behind)?;
    if let Some(step) = script.sweep {
        found.push_str(&swept(alloc, script, &logs, step)?)?;
    }
    let otherwise = if found.is_empty() { None } else { Some(found) };
    Ok((behind, otherwise))
}
