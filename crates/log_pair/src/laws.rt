//! A law of pairs, as the contract of a function that does nothing.

ghost use Rattle.log_pair.specs.Laws.{BothPairsAreLeft, OtherPairsAreLeft, OtherPairsRepresent};
ghost use Rattle.log_pair.specs.Laws.{OtherPairsStayTrimmed, OtherPairsStayWithin};

use disk_model::Disk;

/// A call on one pair changes no other pair of the disk, at any moment.
pub fn other_pairs_represent<D: Disk>()
    ensures within { OtherPairsStayWithin D.Disk }
    ensures represent { OtherPairsRepresent D.Disk }
    ensures trimmed { OtherPairsStayTrimmed D.Disk }
    ensures moments { OtherPairsAreLeft D.Disk }
    ensures both { BothPairsAreLeft D.Disk }
{}
