//! What a given crash leaves of a log.

ghost use Rattle.std.specs.Prelude.{◌≡◌, ◌+◌, ◌++◌, take, drop, length, IfOk};
ghost use Rattle.disk_model.specs.Logs.{Torn};
ghost use Rattle.disk_memory.specs.Changes.{undo, undone, MayMake, MayHold};

use crate::change::Change;
use crate::log::MemoryLog;
use std::alloc::{AllocError, Global};

impl MemoryLog {
    /// What a crash leaves of the log. For each change since the last sync, in order, `landed` has the number of bytes
    /// that reached the disk: the first bytes of a write. A cut happened unless its number is 0. A change without a
    /// number didn't happen.
    pub fn left(&self, alloc: Global, landed: &[u64]) -> Result<Vec<u8>, AllocError>
        ensures { IfOk result (λ bytes. MayHold self.now.pending.items self.now.sure.value.items bytes.items) }
    {
        let sure = before_all(alloc, &self.pending, &self.content)?;
        let mut bytes = sure;
        for k in 0..self.pending.len() {
            let count = *landed.get(k).unwrap_or(&0);
            bytes = land(alloc, &self.pending[k], count, bytes)?;
        }
        Ok(bytes)
    }
}

// What was read before all the changes.
fn before_all(alloc: Global, changes: &[Change], now: &[u8]) -> Result<Vec<u8>, AllocError>
    ensures { IfOk result (λ bytes. bytes.items ≡ undone changes.now now.now) }
{
    let mut bytes = now.to_vec(alloc)?;
    for k in 0..changes.len() {
        bytes = before(alloc, &changes[changes.len() - 1 - k], bytes)?;
    }
    Ok(bytes)
}

// What was read before a change.
fn before(alloc: Global, change: &Change, now: Vec<u8>) -> Result<Vec<u8>, AllocError>
    ensures { IfOk result (λ bytes. bytes.items ≡ undo change.now now.items) }
{
    match change {
        Change::Wrote { place, bytes, over } => {
            replaced(alloc, &now, *place, bytes.len() as u64, over)
        }
        Change::Cut { lost, .. } => {
            let mut now = now;
            now.extend_from_slice(lost)?;
            Ok(now)
        }
        Change::MissedWrite { .. } | Change::MissedCut { .. } => Ok(now),
    }
}

// The bytes with others in place of a range.
fn replaced(
    alloc: Global,
    old: &[u8],
    place: u64,
    count: u64,
    bytes: &[u8],
) -> Result<Vec<u8>, AllocError>
    ensures { IfOk result (λ v. v.items ≡ take place old.now ++ bytes.now ++ drop (place + count) old.now) }
{
    let front = place.min(old.len() as u64) as usize;
    let mut new = old[..front].to_vec(alloc)?;
    new.extend_from_slice(bytes)?;
    let behind = place.saturating_add(count).min(old.len() as u64) as usize;
    new.extend_from_slice(&old[behind..])?;
    Ok(new)
}

// What is left where so many bytes of a change have landed.
fn land(alloc: Global, change: &Change, count: u64, old: Vec<u8>) -> Result<Vec<u8>, AllocError>
    ensures { IfOk result (λ bytes. MayMake change.now old.items bytes.items) }
{
    match change {
        Change::Wrote { place, bytes, .. } => torn(alloc, *place, bytes, count, &old),
        Change::MissedWrite { place, bytes } => torn(alloc, *place, bytes, count, &old),
        Change::Cut { len, .. } | Change::MissedCut { len } => {
            let mut old = old;
            if count > 0 && *len < old.len() as u64 {
                old.truncate(*len as usize);
            }
            Ok(old)
        }
    }
}

// What is left where so many bytes of a write have landed.
fn torn(
    alloc: Global,
    place: u64,
    bytes: &[u8],
    count: u64,
    old: &[u8],
) -> Result<Vec<u8>, AllocError>
    ensures { IfOk result (λ new. Torn place (length bytes.now) old.now new.items) }
{
    let landed = count.min(bytes.len() as u64);
    replaced(alloc, old, place, landed, &bytes[..landed as usize])
}
