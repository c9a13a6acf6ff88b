//! What is held in memory of a history whose entries were read.

ghost use Rattle.std.specs.Prelude.{◌≡◌, ◌+◌, [], ◌∷◌, map, IfOk, OnOk};
ghost use Rattle.doc_engine.specs.Restoring.{Restores};
ghost use Rattle.doc_meaning.specs.History.{after_entry, merge_after};
ghost use Rattle.directory_meaning.specs.Bodies.{RiseFrom};

use doc_model::Entry;
use live_documents::LiveDocuments;
use std::alloc::{AllocError, Global};

// The front, the merge timestamp and the live documents.
#[derive(Drop)]
pub(crate) struct Restored {
    pub front: u64,
    pub merge: u64,
    pub live: LiveDocuments,
}

impl Restored {
    // Applies the next entry, of this number.
    fn add(&mut self, alloc: Global, number: u64, entry: Entry) -> Result<(), AllocError>
        requires { number ≡ self.old.front + 1 }
        ensures front { self.new.front ≡ self.old.front + 1 }
        ensures merge { self.new.merge ≡ merge_after self.old.merge (entry ∷ []) }
        ensures live { OnOk result (self.new.live ≡ after_entry (self.old.front + 1) entry self.old.live) }
    {
        if let Entry::Forget(to) = &entry {
            self.merge = *to;
        }
        self.front = number;
        self.live.apply(alloc, entry, number)
    }
}

// Applies the entries that follow a checkpoint without documents, in the logarithm of their number for each operation.
pub(crate) fn restore(
    alloc: Global,
    checkpoint: u64,
    merge: u64,
    entries: Vec<(u64, Entry)>,
) -> Result<Restored, AllocError>
    requires { RiseFrom (checkpoint + 1) entries.items }
    ensures { IfOk result (Restores checkpoint merge (map (λ e. e.1) entries.items)) }
{
    let mut restored = Restored {
        front: checkpoint,
        merge,
        live: LiveDocuments::new(alloc),
    };
    for (number, entry) in entries {
        restored.add(alloc, number, entry)?;
    }
    Ok(restored)
}
