//! The calls of a world in memory.

ghost use Rattle.std.specs.Prelude.{◌≡◌, ◌≢◌, ◌<◌, List, ℕ, length, Some, OnOk, IfSome};
ghost use Rattle.disk_model.specs.Causes.{HasCause};
ghost use Rattle.disk_model.specs.Worlds.{Returns};
ghost use Rattle.disk_memory.specs.Worlds.{clients_of, stores_of, directories_of, stored_in, due_in};

use super::{ClientSeat, MemoryClient, MemoryWorld, StoreSeat};
use crate::disk::MemoryDisk;
use crate::plan::Plan;
use crate::port::MemoryPort;
use crate::store::{MemoryStore, blank_store};
use crate::streams::{MemorySink, MemorySource};
use crate::yard::MemoryYard;
use disk_model::{Failed, World};
use std::alloc::AllocError;
use std::snapshot::Snapshot;

impl World for MemoryWorld {
    type Disk = MemoryDisk;

    type Yard = MemoryYard;

    type Port = MemoryPort;

    type Source = MemorySource;

    type Sink = MemorySink;

    ghost faults = { λ w. w.faults.count };

    ghost stored = { λ w. stored_in w };

    ghost stores = { λ w. stores_of w };

    ghost directories = { λ w. directories_of w };

    ghost clients = { λ w. clients_of w };

    ghost printed = { λ w. Some w.printed.items };

    fn take_store(&mut self, dir: &str) -> Result<MemoryStore, Failed> {
        if !self.faults.lets() {
            return Err(Failed);
        }
        let Ok(directory) = String::from_str(self.alloc, dir) else {
            return Err(self.faults.fail());
        };
        let Ok(()) = self.store_seats.reserve(1) else {
            return Err(self.faults.fail());
        };
        let Ok(blank) = blank_store(self.alloc) else {
            return Err(self.faults.fail());
        };
        let store = match self.directories.remove(dir) {
            Some(store) => store,
            None => blank,
        };
        self.store_seats.push_reserved(StoreSeat {
            directory,
            out: Snapshot::of(&store),
            back: None,
        });
        Ok(store)
    }

    // The trait's clauses, written out.
    fn put_store(&mut self, store: MemoryStore) -> Result<(), Failed>
        requires { length (stores_of self.old).back < length (stores_of self.old).out }
        ensures back { Returns result store (stores_of self.old) (stores_of self.new) }
        ensures stored { OnOk result (IfSome (due_in self.old)
            (λ dir. IfSome (stored_in self.new dir) (λ found. found ≡ Some store))) }
        ensures others { (other : List ℕ) → due_in self.old ≢ Some other
            → stored_in self.new other ≡ stored_in self.old other }
        ensures directories { directories_of self.new ≡ directories_of self.old }
        ensures clients { clients_of self.new ≡ clients_of self.old }
        ensures printed { Some self.new.printed.items ≡ Some self.old.printed.items }
        ensures cause { HasCause self.old.faults.count self.new.faults.count result }
    {
        let seat = &mut self.store_seats[self.stores_returned];
        seat.back = Some(Snapshot::of(&store));
        let directory: Result<String, AllocError> = seat.directory.clone();
        self.stores_returned += 1;
        if !self.faults.lets() {
            return Err(Failed);
        }
        let Ok(directory) = directory else {
            return Err(self.faults.fail());
        };
        match self.directories.insert(directory, store) {
            Ok(_) => Ok(()),
            Err(_) => Err(self.faults.fail()),
        }
    }

    fn client(&mut self, _name: Option<&str>) -> Result<MemoryClient, Failed> {
        if !self.faults.lets() {
            return Err(Failed);
        }
        let Ok(()) = self.client_seats.reserve(1) else {
            return Err(self.faults.fail());
        };
        let Some(client) = self.waiting.pop_front() else {
            return Err(self.faults.fail());
        };
        self.client_seats.push_reserved(ClientSeat {
            out: Snapshot::of(&client),
            back: None,
        });
        Ok(client)
    }

    // The trait's clauses, written out.
    fn put_client(&mut self, client: MemoryClient) -> Result<(), Failed>
        requires { length (clients_of self.old).back < length (clients_of self.old).out }
        ensures back { Returns result client (clients_of self.old) (clients_of self.new) }
        ensures stores { stores_of self.new ≡ stores_of self.old }
        ensures directories { directories_of self.new ≡ directories_of self.old }
        ensures stored { stored_in self.new ≡ stored_in self.old }
        ensures printed { Some self.new.printed.items ≡ Some self.old.printed.items }
        ensures cause { HasCause self.old.faults.count self.new.faults.count result }
    {
        let seat = &mut self.client_seats[self.clients_returned];
        seat.back = Some(client);
        self.clients_returned += 1;
        if !self.faults.lets() {
            return Err(Failed);
        }
        Ok(())
    }

    fn port(&mut self) -> Result<MemoryPort, Failed> {
        if !self.faults.lets() {
            return Err(Failed);
        }
        Ok(MemoryPort::new(Plan::none(self.alloc)))
    }

    fn print(&mut self, bytes: &[u8]) -> Result<(), Failed> {
        if !self.faults.lets() {
            return Err(Failed);
        }
        match self.printed.extend_from_slice(bytes) {
            Ok(()) => Ok(()),
            Err(_) => Err(self.faults.fail()),
        }
    }

    fn faults(&self) -> u64 {
        self.faults.count
    }
}
