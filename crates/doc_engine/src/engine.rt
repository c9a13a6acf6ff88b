//! An engine over a directory's logs.

ghost use Rattle.std.specs.Prelude.{◌≡◌, ◌<◌, ◌+◌, ◌^◌, ◌↔◌, ℕ, None, Some, IsTrue, IsSome, SomeIff};
ghost use Rattle.std.proofs.Props.{props};
ghost use Rattle.doc_engine.specs.Created.{CreatedBy};
ghost use Rattle.journal.specs.JournalStates.{AreUp, AreWithin};
ghost use Rattle.journal.specs.declared.broken_off.BrokenOff.TheVariants.{Entry};

use crate::refusal::Pending;
use crate::snapshot::Snapshot;
use disk_model::{Disk, Store, Yard};
use doc_model::Settings;
use journal::{BrokenOff, Journal};
use live_documents::LiveDocuments;
use std::alloc::Global;

/// A database that is open: its live documents in memory, and the journal that keeps its history.
///
/// It holds each live document, and no earlier version.
#[derive(Drop)]
pub struct Engine<D: Disk, Y: Yard> {
    pub(crate) alloc: Global,
    pub(crate) disk: D,
    pub(crate) yard: Y,
    pub(crate) journal: Journal,
    pub(crate) settings: Settings,
    pub(crate) front: u64,
    pub(crate) merge: u64,
    pub(crate) live: LiveDocuments,
    // The disk's count of faults when a log went down, until it is revived.
    pub(crate) down: Option<u64>,
    ghost within: { AreWithin journal (D.seen disk) } by { Prim.hlevel props },
    ghost up: { ∥ (down ≡ None → AreUp journal) ∥₁ },
    ghost early: { journal.broken_off ≡ Some Entry → front + 1 < 2 ^ 64 } by { Prim.hlevel props },
    ghost stamps: { CreatedBy front live },
}

impl<D: Disk, Y: Yard> Engine<D, Y> {
    ghost use Rattle.doc_engine.specs.EngineState.{IsAtSince, SeesSince, disk_of, down_since, front_of, journal_of};
    ghost use Rattle.doc_engine.specs.EngineState.{yard_of};
    ghost use Rattle.doc_engine.specs.declared.refusal.Pending.TheVariants as pending;
    ghost use Rattle.doc_meaning.specs.History.{History};
    ghost use Rattle.doc_meaning.specs.History as history;

    /// The timestamp of the last entry.
    pub fn front(&self) -> u64
        ensures front { result ≡ front_of self.now }
        ensures history { (merge : ℕ) (h : History) → IsAtSince self.now merge h → result ≡ history.front h }
    {
        self.front
    }

    /// Whether a log is down.
    pub fn is_down(&self) -> bool
        ensures { IsTrue result ↔ IsSome (down_since self.now) }
    {
        self.down.is_some()
    }

    /// The entry that a fault broke off when its gate was touched, until the logs are revived.
    pub fn pending(&self) -> Option<Pending>
        ensures { SomeIff result ((journal_of self.now).broken_off ≡ Some Entry)
            (pending.Entry (front_of self.now + 1)) }
    {
        match self.journal.broken_off() {
            Some(BrokenOff::Entry) => Some(Pending::Entry(self.front + 1)),
            Some(BrokenOff::Root | BrokenOff::Reset) | None => None,
        }
    }

    /// What a reader sees at this moment, in constant time.
    pub fn look(&self) -> Snapshot<'_>
        ensures { (merge : ℕ) (h : History) → IsAtSince self.now merge h → SeesSince result merge h }
    {
        Snapshot {
            front: self.front,
            merge: self.merge,
            settings: &self.settings,
            documents: &self.live,
        }
    }

    /// Gives the directory back.
    pub fn close(self) -> Store<D, Y>
        ensures disk { result.disk ≡ disk_of self }
        ensures yard { result.yard ≡ yard_of self }
    {
        let Engine {
            alloc: _,
            disk,
            yard,
            journal: _,
            settings: _,
            front: _,
            merge: _,
            live: _,
            down: _,
        } = self;
        Store { disk, yard }
    }
}
