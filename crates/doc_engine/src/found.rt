//! What was found of a directory, and the engine that holds it.

ghost use Rattle.std.specs.Prelude.{◌≡◌, None};
ghost use Rattle.doc_engine.specs.Created.{CreatedBy};
ghost use Rattle.journal.specs.JournalStates.{AreUp, AreWithin};

use crate::engine::Engine;
use crate::restoring::Restored;
use disk_model::{Disk, Yard};
use doc_model::Settings;
use journal::Journal;
use live_documents::LiveDocuments;
use std::alloc::Global;

// The logs, the settings, and what is held in memory.
#[derive(Drop)]
pub(crate) struct Found {
    pub journal: Journal,
    pub settings: Settings,
    pub restored: Restored,
}

impl Found {
    ghost use Rattle.doc_engine.specs.Finding.{BeginsEmpty};

    // Empty logs of these settings.
    pub(crate) fn new(alloc: Global, journal: Journal, settings: Settings) -> Found
        ensures { BeginsEmpty journal settings result }
    {
        let restored = Restored {
            front: 0,
            merge: 0,
            live: LiveDocuments::new(alloc),
        };
        Found {
            journal,
            settings,
            restored,
        }
    }
}

impl<D: Disk, Y: Yard> Engine<D, Y> {
    ghost use Rattle.doc_engine.specs.Finding.{found_state};
    ghost use Rattle.doc_engine.specs.EngineState.{disk_of, down_since, journal_of, read_state, yard_of};

    // The engine that holds what was found, where no log is down.
    pub(crate) fn holding(alloc: Global, disk: D, yard: Y, found: Found) -> Engine<D, Y>
        requires within { AreWithin found.journal (D.seen disk) }
        requires logs { AreUp found.journal }
        requires whole { found.journal.broken_off ≡ None }
        requires stamps { CreatedBy found.restored.front found.restored.live }
        ensures disk { disk_of result ≡ disk }
        ensures yard { yard_of result ≡ yard }
        ensures journal { journal_of result ≡ found.journal }
        ensures read { read_state result ≡ found_state found }
        ensures up { down_since result ≡ None }
    {
        let Found {
            journal,
            settings,
            restored,
        } = found;
        Engine {
            alloc,
            disk,
            yard,
            journal,
            settings,
            front: restored.front,
            merge: restored.merge,
            live: restored.live,
            down: None,
        }
    }
}
