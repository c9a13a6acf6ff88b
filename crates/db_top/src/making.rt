//! Making the database of a directory.

ghost use Rattle.std.specs.Prelude.{◌≡◌, ◌≤◌, ◌⊎◌, IsTrue, map};
ghost use Rattle.command_words.specs.Asked.{asked_settings, index_of};
ghost use Rattle.db_top.specs.Lending.{IsIdle};
ghost use Rattle.db_top.specs.Making.{Makes};
ghost use Rattle.db_top.specs.Runs.{MakesIn};
ghost use Rattle.db_top.specs.declared.status.Status.TheVariants.{Memory};
ghost use Rattle.doc_meaning.specs.History.{settings_of};
ghost use Rattle.doc_model.specs.Queries.{is_index_list};
ghost use Rattle.doc_model.specs.Settings.{HasShortNames};

use crate::status::Status;
use command_words::Init;
use disk_model::{Disk, Store, World, Yard};
use doc_engine::Engine;
use doc_model::Settings;
use std::alloc::Global;

// Makes an empty database with the settings that were asked. Without memory for these it asks for no store.
pub(crate) fn make_asked<W: World>(alloc: Global, init: &Init<'_>, world: &mut W) -> Status
    requires idle { IsIdle W.Disk.Disk W.Yard.Yard W.World world.old }
    requires distinct { IsTrue (is_index_list (map index_of init.now.ranges.items)) }
    requires names { HasShortNames (asked_settings init.now) }
    ensures makes { MakesIn W.Disk.Disk W.Yard.Yard W.Source.Source W.Sink.Sink W.World
        (settings_of (asked_settings init.now)) init.now.directory.now world.old world.new result
        ⊎ ((world.new ≡ world.old) × (result ≡ Memory)) }
    ensures idle { IsIdle W.Disk.Disk W.Yard.Yard W.World world.new }
    ensures printed { W.printed world.new ≡ W.printed world.old }
    ensures later { W.faults world.old ≤ W.faults world.new }
{
    match init.settings(alloc) {
        Ok(settings) => make_directory(alloc, init.directory, settings, world),
        Err(_) => Status::Memory,
    }
}

// Makes an empty database in a directory. Its store is put back, also after a failure.
fn make_directory<W: World>(
    alloc: Global,
    directory: &str,
    settings: Settings,
    world: &mut W,
) -> Status
    requires idle { IsIdle W.Disk.Disk W.Yard.Yard W.World world.old }
    requires names { HasShortNames settings }
    ensures makes { MakesIn W.Disk.Disk W.Yard.Yard W.Source.Source W.Sink.Sink W.World
        (settings_of settings) directory.now world.old world.new result }
    ensures idle { IsIdle W.Disk.Disk W.Yard.Yard W.World world.new }
    ensures printed { W.printed world.new ≡ W.printed world.old }
    ensures later { W.faults world.old ≤ W.faults world.new }
{
    let Ok(store) = world.take_store(directory) else {
        return Status::Fault;
    };
    let (store, status) = make(alloc, store, settings);
    match world.put_store(store) {
        Ok(()) => status,
        Err(_) => status.lost(),
    }
}

// Makes an empty database in a store, and closes it.
fn make<D: Disk, Y: Yard>(
    alloc: Global,
    store: Store<D, Y>,
    settings: Settings,
) -> (Store<D, Y>, Status)
    requires { HasShortNames settings }
    ensures { Makes D.Disk (settings_of settings) store result.0 result.1 }
{
    match Engine::create(alloc, store.disk, store.yard, settings) {
        Ok(engine) => (engine.close(), Status::Done),
        Err(refused) => {
            let status = Status::from(refused.why);
            let store = Store {
                disk: refused.disk,
                yard: refused.yard,
            };
            (store, status)
        }
    }
}
