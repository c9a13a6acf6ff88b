//! Syncing the logs.

ghost use Rattle.std.specs.Prelude.{◌≡◌, ◌<◌, ℕ, IsSome, OnOk};
ghost use Rattle.directory_meaning.specs.declared.logs.TheConstants.{DIRECTORY_LOGS};
ghost use Rattle.disk_model.specs.Causes.{HasCause};
ghost use Rattle.disk_model.specs.Logs.{Settled};
ghost use Rattle.disk_model.specs.Stretches.{OnlyRead};
ghost use Rattle.journal.specs.Reading.{AreSettled};

use directory_meaning::DIRECTORY_LOGS;
use disk_model::{Disk, Failed};

// Syncs each log. A crash then leaves what a read returns.
pub(crate) fn sync_all<D: Disk>(disk: &mut D) -> Result<(), Failed>
    ensures settled { OnOk result (AreSettled DIRECTORY_LOGS (D.seen disk.new) (D.may_leave disk.new)) }
    ensures read { IsSome (D.seen disk.old) → OnlyRead D.Disk disk.old disk.new }
    ensures seen { D.seen disk.new ≡ D.seen disk.old }
    ensures cause { HasCause (D.faults disk.old) (D.faults disk.new) result }
{
    for file in 0..DIRECTORY_LOGS {
        settle(disk, file)?;
    }
    Ok(())
}

// Syncs one log.
pub(crate) fn settle<D: Disk>(disk: &mut D, file: u8) -> Result<(), Failed>
    requires { file < DIRECTORY_LOGS }
    ensures settled { OnOk result (Settled file (D.seen disk.new) (D.may_leave disk.new)) }
    ensures read { IsSome (D.seen disk.old) → OnlyRead D.Disk disk.old disk.new }
    ensures seen { D.seen disk.new ≡ D.seen disk.old }
    ensures cause { HasCause (D.faults disk.old) (D.faults disk.new) result }
{
    disk.sync(file)
}
