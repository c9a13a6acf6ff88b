//! Laws of the disk model, each as the contract of a function that does nothing.

ghost use Rattle.std.specs.Prelude.{◌≡◌, ◌≢◌, ◌<◌};
ghost use Rattle.disk_model.specs.Changes.{Any, OnlyAt, Becomes};
ghost use Rattle.disk_model.specs.Logs.{Follows, Settled};
ghost use Rattle.disk_model.specs.Laws.{WholeWritesAreTorn, OtherBytesStay, AddsUp};
ghost use Rattle.disk_model.specs.Stretches.{IsAfterCall};

use crate::disk::Disk;

/// A write changes no byte outside its range, whether it is done or torn.
pub fn other_bytes_stay()
    ensures whole { WholeWritesAreTorn }
    ensures others { OtherBytesStay }
{}

/// Where a crash leaves of a log what a read gives, a call on another log leaves it so.
pub fn other_logs_stay_settled<D: Disk>(before: &D, after: &D, file: u8, other: u8)
    requires apart { other ≢ file }
    requires settled { Settled other (D.seen before.now) (D.may_leave before.now) }
    requires seen { Becomes (OnlyAt file Any) (D.seen before.now) (D.seen after.now) }
    requires crash { Follows (OnlyAt file Any) (D.may_leave before.now) (D.may_leave after.now) }
    ensures { Settled other (D.seen after.now) (D.may_leave after.now) }
{}

/// What a crash might have left since a time, two calls later, is what it might have left before, and what it may leave
/// after either call.
pub fn since_adds_up<D: Disk>(first: &D, middle: &D, last: &D)
    requires earlier { IsAfterCall D.Disk first.now middle.now }
    requires later { IsAfterCall D.Disk middle.now last.now }
    ensures { AddsUp D.Disk first.now middle.now last.now }
{}
