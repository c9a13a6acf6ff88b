//! Laws of what an engine's logs represent, each as the contract of a function that does nothing.

ghost use Rattle.doc_engine.specs.Laws.{RepresentedIsShown, UntouchedIsShown};

use disk_model::Disk;

/// Each image that the disk may leave shows the history that the logs represent, or it with the pending entry.
pub fn represented_is_shown<D: Disk>()
    ensures { RepresentedIsShown D.Disk }
{}

/// While `pending` returns `None`, each image that the disk may leave shows the history alone.
pub fn untouched_is_shown<D: Disk>()
    ensures { UntouchedIsShown D.Disk }
{}
