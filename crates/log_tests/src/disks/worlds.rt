//! What a world hands out and takes back.

use super::{append, content};
use crate::fixtures::Fail;
use disk_memory::{MemoryClient, MemoryPort, MemorySink, MemorySource, MemoryWorld, Plan};
use disk_model::{Client, Sink, Store, World};
use std::alloc::{AllocError, Global};
use std::collections::VecDeque;

fn client(alloc: Global) -> Result<MemoryClient, AllocError> {
    let bytes = b"ab".to_vec(alloc)?;
    Ok(Client {
        source: MemorySource::new(bytes, 2, Plan::none(alloc)),
        sink: MemorySink::new(alloc, Plan::none(alloc)),
        port: MemoryPort::new(Plan::none(alloc)),
    })
}

fn one_client(alloc: Global) -> Result<VecDeque<MemoryClient>, Fail> {
    let client = client(alloc)?;
    let mut waiting = VecDeque::new(alloc);
    let Ok(()) = waiting.push_back(client) else {
        return Err(Fail::Memory);
    };
    Ok(waiting)
}

// A world to whose directory `a` a store was put back that was written to.
fn with_store(alloc: Global) -> Result<MemoryWorld, Fail> {
    let mut world = MemoryWorld::new(alloc, VecDeque::new(alloc), Plan::none(alloc));
    let Store { mut disk, yard } = world.take_store("a")?;
    append(&mut disk, b"abc")?;
    world.put_store(Store { disk, yard })?;
    Ok(world)
}

// What log 0 of the store in the directory `a` has, which is handed out.
fn taken(alloc: Global, world: &mut MemoryWorld) -> Result<Vec<u8>, Fail> {
    let Store { mut disk, .. } = world.take_store("a")?;
    content(alloc, &mut disk)
}

#[test]
fn a_store_is_there_once_it_is_put_back(rt: HostRuntime) -> Result<(), Fail> {
    let alloc = rt.alloc();
    let mut world = with_store(alloc)?;
    assert!(rt; world.store("b").is_none());
    let bytes = taken(alloc, &mut world)?;
    assert_eq!(rt;
        (bytes.as_slice(), world.store("a").is_none()),
        (b"\0abc".as_slice(), true)
    );
    Ok(())
}

// A world whose one client was put back with a reply.
fn with_reply(alloc: Global) -> Result<MemoryWorld, Fail> {
    let mut world = MemoryWorld::new(alloc, one_client(alloc)?, Plan::none(alloc));
    let mut client = world.client(None)?;
    client.sink.write(b"hello")?;
    world.put_client(client)?;
    Ok(world)
}

// The replies to the client that was put back.
fn replies(world: &MemoryWorld) -> Option<&[u8]> {
    Some(world.client_back(0)?.sink.bytes())
}

#[test]
fn a_client_comes_back_with_its_replies(rt: HostRuntime) -> Result<(), Fail> {
    let alloc = rt.alloc();
    let mut world = with_reply(alloc)?;
    assert_eq!(rt; replies(&world), Some(b"hello".as_slice()));
    world.print(b"done")?;
    let is_refused = world.client(None).is_err();
    assert_eq!(rt;
        (world.printed(), is_refused, world.faults()),
        (b"done".as_slice(), true, 1)
    );
    Ok(())
}
