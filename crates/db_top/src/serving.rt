//! Serving a client with the database of a directory.

ghost use Rattle.std.specs.Prelude.{◌≡◌, ◌≤◌, length};
ghost use Rattle.db_top.specs.Lending.{IsIdle, KeepsStores};
ghost use Rattle.db_top.specs.Runs.{ServesClient, ServesIn};
ghost use Rattle.db_top.specs.Serving.{ServesStore};

use crate::status::Status;
use disk_model::{Client, Disk, Port, Sink, Source, Store, World, Yard};
use doc_engine::Engine;
use engine_session::serve;
use std::alloc::Global;

// Serves the client without a name with the database of a directory. Both are put back, also after a failure.
pub(crate) fn serve_directory<R, W: World>(
    rt: &R,
    alloc: Global,
    directory: &str,
    world: &mut W,
) -> Status
    requires { IsIdle W.Disk.Disk W.Yard.Yard W.World world.old }
    ensures serves { ServesIn W.Disk.Disk W.Yard.Yard W.Source.Source W.Sink.Sink W.World
        directory.now world.old world.new result }
    ensures idle { IsIdle W.Disk.Disk W.Yard.Yard W.World world.new }
    ensures printed { W.printed world.new ≡ W.printed world.old }
    ensures later { W.faults world.old ≤ W.faults world.new }
{
    let Ok(store) = world.take_store(directory) else {
        return Status::Fault;
    };
    let (store, status) = with_client(rt, alloc, store, world);
    match world.put_store(store) {
        Ok(()) => status,
        Err(_) => status.lost(),
    }
}

// Hands the client without a name out, serves it with a store, and puts it back.
fn with_client<R, W: World>(
    rt: &R,
    alloc: Global,
    store: Store<W::Disk, W::Yard>,
    world: &mut W,
) -> (Store<W::Disk, W::Yard>, Status)
    requires { length (W.clients world.old).back ≡ length (W.clients world.old).out }
    ensures serves { ServesClient W.Disk.Disk W.Yard.Yard W.Source.Source W.Sink.Sink W.World
        world.old world.new store result.0 result.1 }
    ensures clients { length (W.clients world.new).back ≡ length (W.clients world.new).out }
    ensures still { KeepsStores W.Disk.Disk W.Yard.Yard W.World world.old world.new }
    ensures printed { W.printed world.new ≡ W.printed world.old }
    ensures later { W.faults world.old ≤ W.faults world.new }
{
    let Ok(mut client) = world.client(None) else {
        return (store, Status::Fault);
    };
    let (store, status) = attend(rt, alloc, store, &mut client);
    match world.put_client(client) {
        Ok(()) => (store, status),
        Err(_) => (store, status.lost()),
    }
}

// Opens a store, serves a client with it, and closes it.
fn attend<R, D: Disk, Y: Yard, I: Source, O: Sink, P: Port>(
    rt: &R,
    alloc: Global,
    store: Store<D, Y>,
    client: &mut Client<I, O, P>,
) -> (Store<D, Y>, Status)
    ensures { ServesStore D.Disk Y.Yard I.Source O.Sink store result.0 client.old client.new result.1 }
{
    match Engine::open(alloc, store.disk, store.yard) {
        Ok(engine) => {
            let (engine, how) = serve(rt, alloc, engine, &mut client.source, &mut client.sink);
            (engine.close(), Status::from(how))
        }
        Err(refused) => {
            let status = Status::from(refused.why);
            let store = Store {
                disk: refused.disk,
                yard: refused.yard,
            };
            (store, status)
        }
    }
}
