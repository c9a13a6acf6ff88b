//! The calls of the real world.

ghost use Rattle.std.specs.Prelude.{◌≡◌, ◌<◌, [], length, None, map, string_bytes};
ghost use Rattle.disk_model.specs.Causes.{HasCause};
ghost use Rattle.disk_model.specs.Worlds.{Returns};
ghost use Rattle.io_edge.specs.Seats.{seated, none_handed};

use super::{SystemClient, SystemStore, SystemWorld};
use crate::count::Count;
use crate::directory::{Directory, Missing};
use crate::disk::SystemDisk;
use crate::opening::open_above_standard;
use crate::port::SystemPort;
use crate::seats::Seats;
use crate::streams::{Input, Output, SystemSink, SystemSource};
use crate::yard::SystemYard;
use disk_model::{Client, Failed, Store, World};
use std::alloc::Global;
use std::fs::OpenOptions;
use std::io::{self, Write};
use std::sync::Arc;

impl SystemWorld {
    /// Nothing was handed out.
    pub fn new(rt: HostRuntime, alloc: Global, missing: Missing) -> Self
        ensures stores { ⟦<SystemWorld as World>⟧.stores result ≡ none_handed }
        ensures clients { ⟦<SystemWorld as World>⟧.clients result ≡ none_handed }
        ensures directories { ⟦<SystemWorld as World>⟧.directories result ≡ [] }
        ensures faults { ⟦<SystemWorld as World>⟧.faults result ≡ 0 }
    {
        SystemWorld {
            rt,
            alloc,
            missing,
            stores: Seats::new(alloc),
            directories: Vec::new(alloc),
            clients: Seats::new(alloc),
            count: Count::new(rt),
        }
    }

    // Opens and locks a directory, and makes its missing logs. A directory that is left as missing gives a blank store.
    fn open_store(&mut self, path: &str) -> Result<SystemStore, Failed>
        ensures stores { self.new.stores ≡ self.old.stores }
        ensures directories { self.new.directories ≡ self.old.directories }
        ensures clients { self.new.clients ≡ self.old.clients }
        ensures cause { HasCause self.old.count.faults self.new.count.faults result }
    {
        let held = Directory::hold(&self.rt, self.alloc, path, self.missing);
        let Some(directory) = self.count.counted(path, held)? else {
            return Ok(Store {
                disk: SystemDisk::blank(&self.rt),
                yard: SystemYard::new(&self.rt, self.alloc, None),
            });
        };
        let disk = SystemDisk::open(&self.rt, self.alloc, &mut self.count, &directory)?;
        let shared = Arc::new(self.alloc, directory).map_err(io::Error::from);
        let directory = self.count.counted(path, shared)?;
        Ok(Store {
            disk,
            yard: SystemYard::new(&self.rt, self.alloc, Some(directory)),
        })
    }
}

// The standard streams.
fn standard_client(rt: &HostRuntime, alloc: Global) -> io::Result<SystemClient> {
    let input = String::from_str(alloc, "standard input")?;
    let output = String::from_str(alloc, "standard output")?;
    Ok(Client {
        source: SystemSource::new(*rt, input, Input::Standard(rt.stdin())),
        sink: SystemSink::new(*rt, output, Output::Standard(rt.stdout())),
        port: SystemPort::new(*rt),
    })
}

// A client file, and a new file of its replies.
fn file_client(rt: &HostRuntime, alloc: Global, name: &str) -> io::Result<SystemClient> {
    let mut options = OpenOptions::new();
    let lines = open_above_standard(rt, name, options.read(true))?;
    let replies = format!(in alloc; "{name}.out")?;
    let mut options = OpenOptions::new();
    options.write(true).create(true).truncate(true);
    let file = open_above_standard(rt, replies.as_str(), &options)?;
    Ok(Client {
        source: SystemSource::new(*rt, String::from_str(alloc, name)?, Input::File(lines)),
        sink: SystemSink::new(*rt, replies, Output::File(file)),
        port: SystemPort::new(*rt),
    })
}

impl World for SystemWorld {
    type Disk = SystemDisk;

    type Yard = SystemYard;

    type Port = SystemPort;

    type Source = SystemSource;

    type Sink = SystemSink;

    ghost faults = { λ w. w.count.faults };

    ghost stored = { λ w dir. None };

    ghost stores = { λ w. seated w.stores };

    ghost directories = { λ w. map string_bytes w.directories.items };

    ghost clients = { λ w. seated w.clients };

    ghost printed = { λ w. None };

    fn take_store(&mut self, dir: &str) -> Result<SystemStore, Failed> {
        let name = String::from_str(self.alloc, dir).map_err(io::Error::from);
        let name = self.count.counted(dir, name)?;
        let Ok(()) = self.directories.reserve(1) else {
            return Err(self.count.fail(dir, io::ErrorKind::OutOfMemory.into()));
        };
        let store = self.open_store(dir)?;
        let Ok(()) = self.stores.hand_out(&store) else {
            return Err(self.count.fail(dir, io::ErrorKind::OutOfMemory.into()));
        };
        self.directories.push_reserved(name);
        Ok(store)
    }

    // The trait's clauses, written out.
    fn put_store(&mut self, store: Store<SystemDisk, SystemYard>) -> Result<(), Failed>
        requires { length (seated self.old.stores).back < length (seated self.old.stores).out }
        ensures back { Returns result store (seated self.old.stores) (seated self.new.stores) }
        ensures directories { map string_bytes self.new.directories.items
            ≡ map string_bytes self.old.directories.items }
        ensures clients { seated self.new.clients ≡ seated self.old.clients }
        ensures cause { HasCause self.old.count.faults self.new.count.faults result }
    {
        self.stores.take_back(&store);
        Ok(())
    }

    fn client(&mut self, name: Option<&str>) -> Result<SystemClient, Failed> {
        let (name, client) = match name {
            Some(name) => (name, file_client(&self.rt, self.alloc, name)),
            None => ("standard input", standard_client(&self.rt, self.alloc)),
        };
        let client = self.count.counted(name, client)?;
        let Ok(()) = self.clients.hand_out(&client) else {
            return Err(self.count.fail(name, io::ErrorKind::OutOfMemory.into()));
        };
        Ok(client)
    }

    // The trait's clauses, written out.
    fn put_client(
        &mut self,
        client: Client<SystemSource, SystemSink, SystemPort>,
    ) -> Result<(), Failed>
        requires { length (seated self.old.clients).back < length (seated self.old.clients).out }
        ensures back { Returns result client (seated self.old.clients) (seated self.new.clients) }
        ensures stores { seated self.new.stores ≡ seated self.old.stores }
        ensures directories { map string_bytes self.new.directories.items
            ≡ map string_bytes self.old.directories.items }
        ensures cause { HasCause self.old.count.faults self.new.count.faults result }
    {
        self.clients.take_back(&client);
        Ok(())
    }

    fn port(&mut self) -> Result<SystemPort, Failed> {
        Ok(SystemPort::new(self.rt))
    }

    fn print(&mut self, bytes: &[u8]) -> Result<(), Failed> {
        let answer = self.rt.stdout().write_all(bytes);
        self.count.counted("standard output", answer)
    }

    fn faults(&self) -> u64 {
        self.count.faults
    }
}
