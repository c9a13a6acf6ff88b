//! Laws of logs, each as the contract of a function that does nothing.

ghost use Rattle.frame_log.specs.Laws.{FramesAreOne, DamagedHasNone, DamageIsOne};
ghost use Rattle.frame_log.specs.Laws.{OthersStayWithin, OthersRepresent, OthersHold, OthersAreLeft, BothAreLeft};

use disk_model::Disk;

/// The bytes of a log have one list of frames, or one damage at one place.
pub fn bytes_say_one_thing()
    ensures one { FramesAreOne }
    ensures none { DamagedHasNone }
    ensures place { DamageIsOne }
{}

/// A call on one log changes no other log of the disk, at any moment.
pub fn other_logs_represent<D: Disk>()
    ensures within { OthersStayWithin D.Disk }
    ensures represent { OthersRepresent D.Disk }
    ensures hold { OthersHold D.Disk }
    ensures moments { OthersAreLeft D.Disk }
    ensures both { BothAreLeft D.Disk }
{}
