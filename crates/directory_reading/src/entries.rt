//! The entries of a journal, read body by body.

ghost use Rattle.std.specs.Prelude.{ℕ, List, [], ◌∷◌, ◌++◌, ◌≡◌, ◌+◌, ◌<◌, ◌^◌, ◌==◌, ◌||◌, length, option_map};
ghost use Rattle.std.specs.Prelude.{IfErr, IfOk, IsTrue, Some, Err, MatchResult};
ghost use Rattle.docs_format.specs.Answers.{Decodes, IsPlaced};
ghost use Rattle.docs_format.specs.declared.fault.DocBytesBad.TheVariants as bad;
ghost use Rattle.frame_log.specs.Frames.{framed};
ghost use Rattle.journal_bodies.specs.Answers.{entry_of};
ghost use Rattle.journal_bodies.specs.Entries.{SpellsEntry};
ghost use Rattle.journal_bodies.specs.EntryReading.{is_expected};
ghost use Rattle.directory_meaning.specs.Bodies.{last_of};
ghost use Rattle.directory_meaning.specs.Damages.{IsBadEntry};
ghost use Rattle.directory_reading.specs.Reading.{HasEntries};
ghost use Rattle.directory_reading.specs.Unread.{BreaksAt, IsBadBody, IsUnread};

use crate::unread::{LogBad, body_bad};
use doc_model::Entry;
use journal_bodies::{BodyBad, read_entry};
use std::alloc::Global;

/// The entries of a journal.
#[derive(Debug, Drop)]
pub struct EntriesRead {
    /// The entries, each under its number.
    pub entries: Vec<(u64, Entry)>,
    /// The place of the gate of each entry's frame.
    pub gates: Vec<u64>,
}

impl EntriesRead {
    /// No body was read yet.
    pub fn new(alloc: Global) -> EntriesRead
        ensures { HasEntries [] result }
    {
        EntriesRead {
            entries: Vec::new(alloc),
            gates: Vec::new(alloc),
        }
    }

    /// Decodes the next body of this journal, and adds its entry. The frame of the body has its gate at this place. The
    /// number must be the last one plus one.
    ///
    /// Takes time n log n in the bytes of the body. After an error the entries are no longer those of the bodies.
    pub fn take(&mut self, alloc: Global, file: u8, gate: u64, body: &[u8]) -> Result<(), LogBad>
        requires { gate + 9 + length body.now < 2 ^ 64 }
        ensures { (bodies : List (List ℕ)) → HasEntries bodies self.old → gate ≡ length (framed bodies)
            → MatchResult result (λ _. HasEntries (bodies ++ body.now ∷ []) self.new)
            (IsUnread (IsBadBody IsBadEntry file bodies gate body.now)) }
    {
        let last = last_number(&self.entries);
        let entry = entry_at(alloc, file, gate, last, body)?;
        self.entries.push(entry)?;
        self.gates.push(gate)?;
        Ok(())
    }
}

/// The number of the last entry.
fn last_number(entries: &[(u64, Entry)]) -> Option<u64>
    ensures { result ≡ last_of entries.now }
{
    match entries.last() {
        Some(entry) => Some(entry.0),
        None => None,
    }
}

/// Decodes the body of the frame at this gate, behind an entry with this number.
fn entry_at(
    alloc: Global,
    file: u8,
    gate: u64,
    last: Option<u64>,
    body: &[u8],
) -> Result<(u64, Entry), LogBad>
    requires { gate + 9 + length body.now < 2 ^ 64 }
    ensures { MatchResult result
        (λ e. SpellsEntry body.now e.0 e.1 × IsTrue (is_expected (option_map (λ n. n + 1) last) e.0))
        (IsUnread (BreaksAt (λ at. entry_of (option_map (λ n. n + 1) last) body.now ≡ Err at) file gate
        (length body.now))) }
{
    match entry_after(alloc, last, body) {
        Ok(entry) => Ok(entry),
        Err(why) => Err(body_bad(file, gate, body.len(), why)),
    }
}

/// Decodes a body behind an entry with this number.
fn entry_after(alloc: Global, last: Option<u64>, body: &[u8]) -> Result<(u64, Entry), BodyBad>
    ensures found { IfOk result (λ e.
        SpellsEntry body.now e.0 e.1 × IsTrue (is_expected (option_map (λ n. n + 1) last) e.0)) }
    ensures exact { Decodes result (entry_of (option_map (λ n. n + 1) last) body.now) }
    ensures within { IfErr result (IsPlaced (length body.now)) }
{
    match last {
        None => read_entry(alloc, body, None),
        Some(u64::MAX) => Err(BodyBad::Bad {
            place: place_past_all(body),
        }),
        Some(last) => read_entry(alloc, body, Some(last + 1)),
    }
}

/// Where the body of an entry is invalid whose number would have to be 2^64: at its number, unless its kind is.
fn place_past_all(body: &[u8]) -> u64
    ensures exact { entry_of (Some (2 ^ 64)) body.now ≡ Err result }
    ensures within { IsPlaced (length body.now) (bad.Bad result) }
{
    if body.is_empty() {
        return 0;
    }
    if is_known(body[0]) { 1 } else { 0 }
}

/// Whether an entry may be of this kind.
fn is_known(kind: u8) -> bool
    ensures { result ≡ ((kind == 1) || (kind == 2)) }
{
    kind == 1 || kind == 2
}
