//! Saying what the database of a directory holds.

ghost use Rattle.std.specs.Prelude.{◌≡◌, ◌≤◌};
ghost use Rattle.db_top.specs.Checking.{Checks};
ghost use Rattle.db_top.specs.Lending.{IsIdle};
ghost use Rattle.db_top.specs.Runs.{ChecksIn};

use crate::lines::{Line, summary};
use crate::status::Status;
use disk_model::{Disk, Store, World, Yard};
use doc_engine::Engine;
use std::alloc::Global;

// Opens the database of a directory, and says what it holds. Its store is put back, also after a failure.
pub(crate) fn check_directory<W: World>(
    alloc: Global,
    directory: &str,
    world: &mut W,
) -> (Line, Status)
    requires { IsIdle W.Disk.Disk W.Yard.Yard W.World world.old }
    ensures checks { ChecksIn W.Disk.Disk W.Yard.Yard W.Source.Source W.Sink.Sink W.World
        result.0.bytes directory.now world.old world.new result.1 }
    ensures idle { IsIdle W.Disk.Disk W.Yard.Yard W.World world.new }
    ensures printed { W.printed world.new ≡ W.printed world.old }
    ensures later { W.faults world.old ≤ W.faults world.new }
{
    let Ok(store) = world.take_store(directory) else {
        return (Line::new(), Status::Fault);
    };
    let (store, line, status) = check(alloc, store);
    match world.put_store(store) {
        Ok(()) => (line, status),
        Err(_) => (line, status.lost()),
    }
}

// Opens a store, says what its database holds, and closes it.
fn check<D: Disk, Y: Yard>(alloc: Global, store: Store<D, Y>) -> (Store<D, Y>, Line, Status)
    ensures { Checks D.Disk Y.Yard result.1.bytes store result.0 result.2 }
{
    match Engine::open(alloc, store.disk, store.yard) {
        Ok(engine) => {
            let line = summary(engine.look());
            (engine.close(), line, Status::Done)
        }
        Err(refused) => {
            let status = Status::from(refused.why);
            let store = Store {
                disk: refused.disk,
                yard: refused.yard,
            };
            (store, Line::new(), status)
        }
    }
}
