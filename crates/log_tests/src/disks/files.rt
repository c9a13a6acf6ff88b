//! Sealed files, sources and sinks.

use crate::fixtures::Fail;
use disk_memory::{
    MemoryFile, MemoryPort, MemorySink, MemorySource, MemoryYard, Plan, blank_store,
};
use disk_model::{Build, Failed, Port, Sink, Source, Store, Yard};
use std::alloc::Global;

fn sealed(yard: &mut MemoryYard) -> Result<MemoryFile, Failed> {
    let mut build = yard.fresh(7)?;
    build.append(b"some ")?;
    build.append(b"bytes")?;
    build.seal()
}

// A file that was sealed and removed, and whether its yard still opens it.
fn removed(alloc: Global) -> Result<(MemoryFile, bool), Fail> {
    let Store { mut yard, .. } = blank_store(alloc)?;
    let file = sealed(&mut yard)?;
    yard.remove(7)?;
    Ok((file, yard.open(7)?.is_some()))
}

// Four bytes of the file from the place 3 on, and how many bytes were read.
fn middle(alloc: Global, file: &MemoryFile) -> Result<([u8; 4], u64), Failed> {
    let mut port = MemoryPort::new(Plan::none(alloc));
    let mut out = [0u8; 4];
    if file.bytes.len() == 10 {
        port.read(file, 3, &mut out)?;
    }
    Ok((out, port.reads()))
}

#[test]
fn a_removed_file_stays_readable(rt: HostRuntime) -> Result<(), Fail> {
    let alloc = rt.alloc();
    let (file, is_held) = removed(alloc)?;
    assert!(rt; !is_held);
    let (bytes, reads) = middle(alloc, &file)?;
    assert_eq!(rt; (bytes.as_slice(), reads), (b"e by".as_slice(), 4));
    Ok(())
}

// How many bytes each of three reads gives of three bytes, of which two are given at a time.
fn three_reads(alloc: Global) -> Result<(usize, usize, usize), Fail> {
    let mut source = MemorySource::new([1, 2, 3].to_vec(alloc)?, 2, Plan::none(alloc));
    let mut out = [0u8; 8];
    let first = source.read(&mut out)?;
    let second = source.read(&mut out)?;
    let third = source.read(&mut out)?;
    Ok((first, second, third))
}

#[test]
fn streams_give_and_keep_their_bytes(rt: HostRuntime) -> Result<(), Fail> {
    let alloc = rt.alloc();
    assert_eq!(rt; three_reads(alloc)?, (2, 1, 0));
    let mut sink = MemorySink::new(alloc, Plan::none(alloc));
    sink.write(b"abc")?;
    assert_eq!(rt; sink.bytes(), b"abc".as_slice());
    Ok(())
}
