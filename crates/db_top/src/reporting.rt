//! Printing how a run ended.

ghost use Rattle.std.specs.Prelude.{◌≡◌, ◌≤◌};
ghost use Rattle.db_top.specs.Lending.{KeepsStores};
ghost use Rattle.db_top.specs.Runs.{Reports};
ghost use Rattle.db_top.specs.Statuses.{text_of};

use crate::lines::damage;
use crate::status::Status;
use disk_model::World;

// Prints how a run ended, or what was done, once. Where that fails, what was done ends in a fault.
pub(crate) fn report<W: World>(world: &mut W, done: &[u8], status: Status) -> Status
    ensures reports { Reports (W.faults world.old) (W.faults world.new)
        (W.printed world.old) (W.printed world.new) (text_of done.now status) status result }
    ensures still { KeepsStores W.Disk.Disk W.Yard.Yard W.World world.old world.new }
    ensures clients { W.clients world.new ≡ W.clients world.old }
    ensures later { W.faults world.old ≤ W.faults world.new }
{
    let printed = match status {
        Status::Done if done.is_empty() => Ok(()),
        Status::Done => world.print(done),
        Status::Usage => world.print(b"usage\n"),
        Status::NotThere => world.print(b"not there\n"),
        Status::AlreadyThere => world.print(b"already there\n"),
        Status::Fault => world.print(b"fault\n"),
        Status::Memory => world.print(b"memory\n"),
        Status::Damaged { file, place } => {
            let line = damage(file, place);
            world.print(line.as_str().as_bytes())
        }
    };
    match printed {
        Ok(()) => status,
        Err(_) => status.lost(),
    }
}
