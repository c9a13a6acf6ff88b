//! Runs the rows of standard input, each a case `KIND | INPUT | .. | ANSWER`, and prints those whose answer is another
//! one. In a cell `\xNN` is the byte of these two hexadecimal digits, and all else is itself.
#![tactic(auto)]

mod answers;
mod bodies;
mod cells;
mod histories;
mod places;
mod queries;
mod rules;
mod texts;

use answers::answer;
use cells::bytes_of;
use std::alloc::{AllocError, Global};
use std::io;

/// What is found instead of the answer that a row wants.
fn difference(alloc: Global, row: &str) -> Result<Option<String>, AllocError> {
    let (case, wanted) = row.rsplit_once(" | ").unwrap_or((row, ""));
    let (kind, input) = case.split_once(" | ").unwrap_or((case, ""));
    let found = answer(alloc, kind, input)?;
    let wanted = bytes_of(alloc, wanted)?;
    Ok(if found.as_bytes() == wanted.as_slice() {
        None
    } else {
        Some(found)
    })
}

fn main(rt: HostRuntime) -> io::Result<()> {
    let mut rows = 0u64;
    let mut differ = 0u64;
    for line in rt.lines(rt.alloc()) {
        let line = line?;
        if line.is_empty() || line.starts_with('#') {
            continue;
        }
        rows = rows.saturating_add(1);
        if let Some(found) = difference(rt.alloc(), line.as_str())? {
            differ = differ.saturating_add(1);
            println!(rt; "{line}\n  found {found}")?;
        }
    }
    println!(rt; "rows {rows}, differ {differ}")
}
