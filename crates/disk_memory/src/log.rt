//! One log in memory.

ghost use Rattle.std.specs.Prelude.{◌≡◌, ◌≤◌, ◌+◌, ◌^◌, length, vec_len, OnOk, OnErr, IfOk, []};
ghost use Rattle.disk_model.specs.Logs.{Torn, MayCut, Writes, Cuts};
ghost use Rattle.disk_memory.specs.Changes.{redone, undone, IsWrite, MayBecome};

use crate::change::Change;
use std::alloc::{AllocError, Global};
use std::snapshot::Snapshot;

/// A log: what is read, what its last sync put on the disk, and each change since. The synced bytes aren't kept a
/// second time; they are what is read once the changes are taken back.
#[derive(Drop)]
pub struct MemoryLog {
    pub content: Vec<u8>,
    pub sure: Snapshot<Vec<u8>>,
    pub pending: Vec<Change>,
    ghost redone: { content.items ≡ redone pending.items sure.value.items },
    ghost undone: { undone pending.items content.items ≡ sure.value.items },
    ghost short: { vec_len content ≤ 2 ^ 62 },
}

impl MemoryLog {
    /// A log whose bytes are all on the disk.
    pub fn new(alloc: Global, content: Vec<u8>) -> Self
        requires { vec_len content ≤ 2 ^ 62 }
        ensures content { result.content.items ≡ content.items }
        ensures sure { result.sure.value.items ≡ content.items }
        ensures pending { result.pending.items ≡ [] }
    {
        let sure = Snapshot::of(&content);
        MemoryLog {
            content,
            sure,
            pending: Vec::new(alloc),
        }
    }

    /// Writes these bytes, over old ones and past the end.
    pub fn write(&mut self, alloc: Global, place: u64, bytes: &[u8]) -> Result<(), AllocError>
        requires place { place ≤ vec_len self.old.content }
        requires end { place + length bytes.now ≤ 2 ^ 62 }
        ensures ok { OnOk result (Writes place bytes.now self.old.content.items self.new.content.items) }
        ensures err { OnErr result (self.new.content.items ≡ self.old.content.items) }
        ensures crash { MayBecome (Torn place (length bytes.now))
            self.old.pending.items self.old.sure.value.items self.new.pending.items self.new.sure.value.items }
    {
        let place = place as usize;
        let change = written(alloc, &self.content, place, bytes)?;
        self.pending.reserve(1)?;
        put(&mut self.content, place, bytes)?;
        self.pending.push_reserved(change);
        Ok(())
    }

    /// Notes a write that failed, of which a crash may leave any part.
    pub fn miss_write(&mut self, alloc: Global, place: u64, bytes: &[u8]) -> Result<(), AllocError>
        ensures same { self.new.content.items ≡ self.old.content.items }
        ensures crash { MayBecome (Torn place (length bytes.now))
            self.old.pending.items self.old.sure.value.items self.new.pending.items self.new.sure.value.items }
    {
        let bytes = bytes.to_vec(alloc)?;
        self.pending.reserve(1)?;
        self.pending
            .push_reserved(Change::MissedWrite { place, bytes });
        Ok(())
    }

    /// Cuts to the first `len` bytes.
    pub fn cut(&mut self, alloc: Global, len: u64) -> Result<(), AllocError>
        requires { len ≤ vec_len self.old.content }
        ensures ok { OnOk result (Cuts len self.old.content.items self.new.content.items) }
        ensures err { OnErr result (self.new.content.items ≡ self.old.content.items) }
        ensures crash { MayBecome (MayCut len)
            self.old.pending.items self.old.sure.value.items self.new.pending.items self.new.sure.value.items }
    {
        let kept = len as usize;
        let lost = self.content[kept..].to_vec(alloc)?;
        self.pending.reserve(1)?;
        self.content.truncate(kept);
        self.pending.push_reserved(Change::Cut { len, lost });
        Ok(())
    }

    /// Notes a cut that failed, which a crash may leave done.
    pub fn miss_cut(&mut self, len: u64) -> Result<(), AllocError>
        ensures same { self.new.content.items ≡ self.old.content.items }
        ensures crash { MayBecome (MayCut len)
            self.old.pending.items self.old.sure.value.items self.new.pending.items self.new.sure.value.items }
    {
        self.pending.reserve(1)?;
        self.pending.push_reserved(Change::MissedCut { len });
        Ok(())
    }

    /// Puts what is read on the disk.
    pub fn sync(&mut self)
        ensures content { self.new.content.items ≡ self.old.content.items }
        ensures sure { self.new.sure.value.items ≡ self.old.content.items }
        ensures pending { self.new.pending.items ≡ [] }
    {
        self.sure = Snapshot::of(&self.content);
        self.pending.clear();
    }
}

// Writes these bytes, over old ones and past the end.
fn put(content: &mut Vec<u8>, place: usize, bytes: &[u8]) -> Result<(), AllocError>
    requires { place ≤ vec_len content.old }
    ensures ok { OnOk result (Writes place bytes.now content.old.items content.new.items) }
    ensures err { OnErr result (content.new.items ≡ content.old.items) }
{
    let kept = bytes.len().min(content.len() - place);
    content.extend_from_slice(&bytes[kept..])?;
    content[place..place + kept].copy_from_slice(&bytes[..kept]);
    Ok(())
}

// The change that a write makes, with what it will replace.
fn written(alloc: Global, content: &[u8], place: usize, bytes: &[u8]) -> Result<Change, AllocError>
    requires { place ≤ length content.now }
    ensures { IfOk result (IsWrite place bytes.now content.now) }
{
    let kept = bytes.len().min(content.len() - place);
    let over = content[place..place + kept].to_vec(alloc)?;
    let bytes = bytes.to_vec(alloc)?;
    Ok(Change::Wrote {
        place: place as u64,
        bytes,
        over,
    })
}
