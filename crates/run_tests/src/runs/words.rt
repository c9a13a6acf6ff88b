//! Directories beside each other.

ghost use Rattle.db_top.specs.Lending.{IsIdle};

use super::worlds::{runs, told, world};
use db_top::Status;
use disk_memory::{MemoryDisk, MemoryWorld, MemoryYard};
use disk_model::{Disk, World, Yard};
use std::alloc::Global;
use std::process::Abort;
use std::test::Fail;

const PUT: &str = "put /a.json {\"t\":\"Red fox\"}\nsearch {\"wordQuery\":{\"text\":[\"fox\"]}}\n";

const SEARCH: &str = "search {\"wordQuery\":{\"text\":[\"fox\"]}}\n";

const STILL: &str = "found 1 at 1 of 1\n/a.json\nend\n";

// A run with these words is done.
fn check_done(
    rt: &impl Abort,
    alloc: Global,
    words: &[&str],
    world: &mut MemoryWorld,
) -> Result<(), Fail>
    requires { IsIdle ⟦<MemoryDisk as Disk>⟧ ⟦<MemoryYard as Yard>⟧ ⟦<MemoryWorld as World>⟧ world.old }
    ensures { IsIdle ⟦<MemoryDisk as Disk>⟧ ⟦<MemoryYard as Yard>⟧ ⟦<MemoryWorld as World>⟧ world.new }
{
    assert_eq!(rt; runs(alloc, words, world)?, Status::Done, "at {words:?}");
    Ok(())
}

// Two databases are made. The first one serves the first and the last client, the other one the client between them.
fn make_and_serve_both(rt: &impl Abort, alloc: Global, world: &mut MemoryWorld) -> Result<(), Fail>
    requires { IsIdle ⟦<MemoryDisk as Disk>⟧ ⟦<MemoryYard as Yard>⟧ ⟦<MemoryWorld as World>⟧ world.old }
    ensures { IsIdle ⟦<MemoryDisk as Disk>⟧ ⟦<MemoryYard as Yard>⟧ ⟦<MemoryWorld as World>⟧ world.new }
{
    check_done(rt, alloc, &["init", "d"], world)?;
    check_done(rt, alloc, &["init", "--", "-e f"], world)?;
    check_done(rt, alloc, &["run", "d"], world)?;
    check_done(rt, alloc, &["run", "--", "-e f"], world)?;
    check_done(rt, alloc, &["run", "d"], world)
}

// What was put into the first database isn't in the other one.
fn check_apart(rt: &impl Abort, world: &MemoryWorld) -> Result<(), Fail> {
    let found = (told(world, 1)?, told(world, 2)?);
    assert_eq!(rt; found, ("found 0 at 0 of 0\nend\n", STILL));
    Ok(())
}

#[test]
fn each_directory_has_its_own_database(rt: HostRuntime) -> Result<(), Fail> {
    let mut world = world(rt.alloc(), &[PUT, SEARCH, SEARCH])?;
    make_and_serve_both(&rt, rt.alloc(), &mut world)?;
    check_apart(&rt, &world)
}
