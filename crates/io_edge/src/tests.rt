use super::*;
use disk_model::{Build, Disk, Port, SealedFile, Sink, Source, World, Yard};
use std::alloc::Global;
use std::fs;
use std::test::Fail;

const DIRECTORY: &str = "io_edge_directory";

const MISSING: &str = "io_edge_missing";

const CLIENT: &str = "io_edge_client";

#[test]
fn a_directory_keeps_what_was_synced_and_sealed(rt: HostRuntime) -> Result<(), Fail> {
    let _ = fs::remove_dir_all(&rt, DIRECTORY);
    let mut store = filled_store(&rt, rt.alloc())?;
    let mut bytes = [9u8; 4];
    let read = store.disk.read_at(0, 0, &mut bytes).map_err(|_| "no read")?;
    assert_eq!(rt; &bytes[..read], b"\0ab".as_slice());
    assert_eq!(rt; end_of_removed(&rt, &mut store)?, *b"led");
    fs::remove_dir_all(&rt, DIRECTORY)?;
    Ok(())
}

/// A store that was filled, put back and taken once more.
fn filled_store(rt: &HostRuntime, alloc: Global) -> Result<SystemStore, Fail> {
    let mut world = SystemWorld::new(*rt, alloc, Missing::Make);
    let mut store = world.take_store(DIRECTORY).map_err(|_| "no store")?;
    store.disk.write_at(0, 1, b"ab").map_err(|_| "no write")?;
    store.disk.sync(0).map_err(|_| "no sync")?;
    let mut build = store.yard.fresh(1).map_err(|_| "no build")?;
    build.append(b"sealed").map_err(|_| "no append")?;
    let file = build.seal().map_err(|_| "no seal")?;
    store.yard.admit(&file);
    if world.take_store(DIRECTORY).is_ok() {
        return Err("a directory was handed out twice".into());
    }
    drop((build, file));
    world.put_store(store).map_err(|_| "no put")?;
    Ok(world.take_store(DIRECTORY).map_err(|_| "no second store")?)
}

/// The end of file 1, which is removed before it is read.
fn end_of_removed(rt: &HostRuntime, store: &mut SystemStore) -> Result<[u8; 3], Fail> {
    let found = store.yard.open(1).map_err(|_| "no open")?;
    let Some(file) = found else {
        return Err("no file".into());
    };
    store.yard.remove(1).map_err(|_| "no remove")?;
    let Ok(None) = store.yard.open(1) else {
        return Err("not removed".into());
    };
    if file.len() != 6 {
        return Err("not six bytes".into());
    }
    let mut bytes = [0u8; 3];
    let mut port = SystemPort::new(*rt);
    port.read(&file, 3, &mut bytes).map_err(|_| "no read")?;
    Ok(bytes)
}

#[test]
fn a_directory_that_is_left_as_missing_is_blank(rt: HostRuntime) -> Result<(), Fail> {
    let mut world = SystemWorld::new(rt, rt.alloc(), Missing::Leave);
    let mut store = world.take_store(MISSING).map_err(|_| "no store")?;
    let mut bytes = [9u8; 2];
    for file in 0..4u8 {
        store.disk.sync(file).map_err(|_| "no sync")?;
        assert!(rt; store.disk.len(file).is_ok_and(|length| length == 1));
        let read = store.disk.read_at(file, 0, &mut bytes);
        assert!(rt; read.is_ok_and(|read| read == 1));
    }
    assert_eq!(rt; bytes, [0, 9]);
    assert!(rt; store.disk.write_at(0, 1, b"ab").is_err());
    assert!(rt; store.yard.fresh(1).is_err());
    world.put_store(store).map_err(|_| "no put")?;
    assert!(rt; !fs::exists(&rt, MISSING)?);
    Ok(())
}

#[test]
fn a_client_file_is_read_and_answered(rt: HostRuntime) -> Result<(), Fail> {
    fs::write(&rt, CLIENT, "quit\n")?;
    let mut world = SystemWorld::new(rt, rt.alloc(), Missing::Make);
    assert!(rt; world.client(Some("io_edge_nobody")).is_err());
    let mut client = world.client(Some(CLIENT)).map_err(|_| "no client")?;
    let mut bytes = [0u8; 8];
    let count = client.source.read(&mut bytes).map_err(|_| "no read")?;
    assert_eq!(rt; &bytes[..count], b"quit\n".as_slice());
    client.sink.write(b"bye\n").map_err(|_| "no write")?;
    world.put_client(client).map_err(|_| "no put")?;
    assert_eq!(rt;
        fs::read_to_string(&rt, "io_edge_client.out")?.as_str(),
        "bye\n"
    );
    fs::remove_file(&rt, CLIENT)?;
    fs::remove_file(&rt, "io_edge_client.out")?;
    Ok(())
}
