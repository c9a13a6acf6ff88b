//! The roots of a root log, read body by body.

ghost use Rattle.std.specs.Prelude.{ℕ, List, [], ◌∷◌, ◌++◌, ◌≡◌, ◌+◌, ◌*◌, ◌<◌, ◌^◌, length, Err, None};
ghost use Rattle.std.specs.Prelude.{MatchOption, MatchResult};
ghost use Rattle.frame_log.specs.Frames.{framed};
ghost use Rattle.journal_bodies.specs.Answers.{root_of};
ghost use Rattle.journal_bodies.specs.Roots.{SpellsRoot};
ghost use Rattle.directory_meaning.specs.Damages.{IsBadRoot, NamesFiles};
ghost use Rattle.directory_reading.specs.Reading.{HasNewest, IsRootAt, IsWithoutFiles, PlacesFiles};
ghost use Rattle.directory_reading.specs.Unread.{BreaksAt, IsBadBody, IsUnread};

use crate::newest::{Newest, newer};
use crate::unread::{HEAD, LogBad, body_bad};
use journal_bodies::{Root, read_root};
use std::alloc::Global;

/// What was read of a root log: its newest root, if it has roots.
#[derive(Debug, Drop)]
pub struct RootsRead {
    pub newest: Option<Newest>,
}

impl RootsRead {
    /// No body was read yet.
    pub fn new() -> RootsRead
        ensures { (file : ℕ) → HasNewest file [] result.newest }
    {
        RootsRead { newest: None }
    }

    /// Decodes the next body of this root log, and keeps its root if it is the newest. The frame of the body has its
    /// gate at this place.
    ///
    /// Takes time n log n in the bytes of the body. After an error nothing is said of the roots.
    pub fn take(&mut self, alloc: Global, file: u8, gate: u64, body: &[u8]) -> Result<(), LogBad>
        requires { gate + 9 + length body.now < 2 ^ 64 }
        ensures { (bodies : List (List ℕ)) → HasNewest file bodies self.old.newest → gate ≡ length (framed bodies)
            → MatchResult result (λ _. HasNewest file (bodies ++ body.now ∷ []) self.new.newest)
            (IsUnread (IsBadBody IsBadRoot file bodies gate body.now)) }
    {
        let next = root_at(alloc, file, gate, body)?;
        self.newest = Some(newer(self.newest.take(), next));
        Ok(())
    }
}

/// Decodes the body of the frame at this gate.
fn root_at(alloc: Global, file: u8, gate: u64, body: &[u8]) -> Result<Newest, LogBad>
    requires { gate + 9 + length body.now < 2 ^ 64 }
    ensures { MatchResult result (IsRootAt file gate body.now)
        (IsUnread (BreaksAt (λ at. root_of body.now ≡ Err at) file gate (length body.now))) }
{
    match read_root(alloc, body) {
        Ok(root) => Ok(Newest {
            file,
            gate,
            files: place_of_files(&root, gate, body),
            root,
        }),
        Err(why) => Err(body_bad(file, gate, body.len(), why)),
    }
}

/// The place in its log of the count of the first files that a root names, whose frame has this gate.
fn place_of_files(root: &Root, gate: u64, body: &[u8]) -> Option<u64>
    requires room { gate + 9 + length body.now < 2 ^ 64 }
    requires spelled { SpellsRoot body.now root.now }
    ensures { PlacesFiles gate root.now result }
{
    match files_place(root, body) {
        Some(at) => Some(gate + HEAD + at),
        None => None,
    }
}

/// The place of the count of the first files that a root names, in its body.
fn files_place(root: &Root, body: &[u8]) -> Option<u64>
    requires short { length body.now < 2 ^ 64 }
    requires spelled { SpellsRoot body.now root.now }
    ensures { MatchOption result (IsWithoutFiles root.now) (λ at. (at < length body.now) × NamesFiles root.now at) }
{
    let removed = body.len() as u64 - list_len(8, root.removed.len());
    if !root.parts.is_empty() {
        return Some(removed - list_len(28, root.parts.len()));
    }
    (!root.removed.is_empty()).then_some(removed)
}

/// How many bytes a list of `count` items of `item` bytes takes.
fn list_len(item: u64, count: usize) -> u64
    requires { 4 + item * count < 2 ^ 64 }
    ensures { result ≡ 4 + item * count }
{
    4 + item * count as u64
}
