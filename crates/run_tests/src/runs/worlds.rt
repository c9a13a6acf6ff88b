//! Worlds in memory, and runs over them.

ghost use Rattle.std.specs.Prelude.{IfOk};
ghost use Rattle.db_top.specs.Lending.{IsIdle};

use db_top::{Status, run};
use disk_memory::{
    MemoryClient, MemoryDisk, MemoryPort, MemorySink, MemorySource, MemoryWorld, MemoryYard, Plan,
};
use disk_model::{Client, Disk, World, Yard};
use std::alloc::Global;
use std::collections::VecDeque;
use std::str;
use std::test::Fail;

// A client that reads this.
fn client(alloc: Global, input: &str) -> Result<MemoryClient, Fail> {
    let bytes = input.as_bytes().to_vec(alloc)?;
    Ok(Client {
        source: MemorySource::new(bytes, 4096, Plan::none(alloc)),
        sink: MemorySink::new(alloc, Plan::none(alloc)),
        port: MemoryPort::new(Plan::none(alloc)),
    })
}

// Clients that read these, one after the other.
fn clients(alloc: Global, inputs: &[&str]) -> Result<VecDeque<MemoryClient>, Fail> {
    let mut waiting = VecDeque::new(alloc);
    for input in inputs {
        waiting.push_back(client(alloc, input)?)?;
    }
    Ok(waiting)
}

/// A world without directories whose clients read these.
pub(super) fn world(alloc: Global, inputs: &[&str]) -> Result<MemoryWorld, Fail>
    ensures { IfOk result (λ world.
        IsIdle ⟦<MemoryDisk as Disk>⟧ ⟦<MemoryYard as Yard>⟧ ⟦<MemoryWorld as World>⟧ world) }
{
    let waiting = clients(alloc, inputs)?;
    Ok(MemoryWorld::new(alloc, waiting, Plan::none(alloc)))
}

// These words, each with its own memory.
fn owned(alloc: Global, words: &[&str]) -> Result<Vec<String>, Fail> {
    let mut given = Vec::new(alloc);
    for word in words {
        given.push(String::from_str(alloc, word)?)?;
    }
    Ok(given)
}

/// How a run with these words ends.
pub(super) fn runs(alloc: Global, words: &[&str], world: &mut MemoryWorld) -> Result<Status, Fail>
    requires { IsIdle ⟦<MemoryDisk as Disk>⟧ ⟦<MemoryYard as Yard>⟧ ⟦<MemoryWorld as World>⟧ world.old }
    ensures { IsIdle ⟦<MemoryDisk as Disk>⟧ ⟦<MemoryYard as Yard>⟧ ⟦<MemoryWorld as World>⟧ world.new }
{
    let given = owned(alloc, words)?;
    Ok(run(&(), alloc, &given, world))
}

/// What the client at this place was told; it is refused where it isn't back.
pub(super) fn told(world: &MemoryWorld, place: usize) -> Result<&str, Fail> {
    let client = world.client_back(place).ok_or("the client isn't back")?;
    Ok(str::from_utf8(client.sink.bytes())?)
}
