//! Opening a directory.

ghost use Rattle.std.specs.Prelude.{◌≡◌, ◌≢◌, None, IsSome, IfSome, IfOk, IfErr};
ghost use Rattle.doc_engine.specs.Created.{CreatedBy};
ghost use Rattle.doc_engine.specs.Finding.{Finds};
ghost use Rattle.doc_engine.specs.Opening.{NotOpened};
ghost use Rattle.doc_engine.specs.declared.refusal.OpenWhy.TheVariants.{AlreadyThere, Fault, Memory};
ghost use Rattle.frame_log.specs.Calls.{Blames};
ghost use Rattle.disk_model.specs.Files.{Files};
ghost use Rattle.disk_model.specs.Stretches.{OnlyRead};
ghost use Rattle.directory_meaning.specs.Directories.{KeepsShown};
ghost use Rattle.journal.specs.JournalStates.{AreUp, AreWithin};

use crate::engine::Engine;
use crate::found::Found;
use crate::refusal::{OpenRefused, OpenWhy};
use crate::restoring::restore;
use disk_model::{Disk, Yard};
use journal::scan_all;
use std::alloc::Global;

impl<D: Disk, Y: Yard> Engine<D, Y> {
    ghost use Rattle.doc_engine.specs.Opening.{AnswersOpen, OpenCountsFaults, OpenKeepsShown, yard_after};

    /// Opens a directory at the history of its logs, and makes the logs ready for what follows.
    ///
    /// It refuses no directory for its timestamps: where none is left it refuses each commit, and where the merge
    /// timestamp is past the front it refuses each read there. It takes time n log n in the bytes of the logs, and
    /// memory for the entries and the live documents; it takes that of the live documents last, when the logs are
    /// ready.
    pub fn open(alloc: Global, mut disk: D, yard: Y) -> Result<Engine<D, Y>, OpenRefused<D, Y>>
        ensures answers { AnswersOpen disk result }
        ensures images { OpenKeepsShown disk result }
        ensures yard { yard_after result ≡ yard }
        ensures later { OpenCountsFaults disk result }
    {
        match find(alloc, &mut disk) {
            Ok(found) => Ok(Engine::holding(alloc, disk, yard, found)),
            Err(why) => Err(OpenRefused { disk, yard, why }),
        }
    }
}

// Reads the logs of a directory, and restores what they show.
fn find<D: Disk>(alloc: Global, disk: &mut D) -> Result<Found, OpenWhy>
    ensures found { IfOk result (λ found. IfSome (D.seen disk.old) (λ image. (files : Files) →
        Finds D.Disk files image disk.new found)) }
    ensures refused { IfErr result (λ why. IfSome (D.seen disk.old) (λ image. NotOpened image why)) }
    ensures kind { IfErr result (λ why. why ≢ AlreadyThere) }
    ensures up { IfOk result (λ found. AreUp found.journal) }
    ensures whole { IfOk result (λ found. found.journal.broken_off ≡ None) }
    ensures stamps { IfOk result (λ found. CreatedBy found.restored.front found.restored.live) }
    ensures images { IsSome (D.seen disk.old) → KeepsShown D.Disk disk.old disk.new }
    ensures kept { IsSome (D.seen disk.old) → IfErr result (λ why. why ≢ Fault → why ≢ Memory →
        OnlyRead D.Disk disk.old disk.new) }
    ensures within { IfOk result (λ found. AreWithin found.journal (D.seen disk.new)) }
    ensures cause { Blames Fault (D.faults disk.old) (D.faults disk.new) result }
{
    let (journal, scanned) = scan_all(alloc, disk)?;
    let root = scanned.root;
    let restored = restore(alloc, root.checkpoint, root.merge, scanned.entries)?;
    Ok(Found {
        journal,
        settings: root.settings,
        restored,
    })
}
