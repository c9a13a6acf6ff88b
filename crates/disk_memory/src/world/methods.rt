//! A world in memory as it is made and looked at.

ghost use Rattle.std.specs.Prelude.{◌≡◌, ◌≢◌, List, [], ℕ, Some, None, OnOk, OnErr, slice_get};
ghost use Rattle.std.specs.Option.{option_copied, option_and_then};
ghost use Rattle.disk_memory.specs.Worlds.{none_handed};

use super::{MemoryClient, MemoryWorld};
use crate::faults::Faults;
use crate::plan::Plan;
use crate::store::MemoryStore;
use disk_model::World;
use std::alloc::{AllocError, Global};
use std::collections::{BTreeMap, VecDeque};

impl MemoryWorld {
    /// A world of these clients, without directories.
    pub fn new(alloc: Global, waiting: VecDeque<MemoryClient>, plan: Plan) -> Self
        ensures stores { ⟦<MemoryWorld as World>⟧.stores result ≡ none_handed }
        ensures directories { ⟦<MemoryWorld as World>⟧.directories result ≡ [] }
        ensures clients { ⟦<MemoryWorld as World>⟧.clients result ≡ none_handed }
        ensures stored { (dir : List ℕ) → ⟦<MemoryWorld as World>⟧.stored result dir ≡ Some None }
        ensures printed { ⟦<MemoryWorld as World>⟧.printed result ≡ Some [] }
        ensures faults { ⟦<MemoryWorld as World>⟧.faults result ≡ 0 }
        ensures plan { (result.faults.plan ≡ plan) × (result.faults.calls ≡ 0) }
    {
        MemoryWorld {
            alloc,
            waiting,
            client_seats: Vec::new(alloc),
            clients_returned: 0,
            directories: BTreeMap::new(alloc),
            store_seats: Vec::new(alloc),
            stores_returned: 0,
            printed: Vec::new(alloc),
            faults: Faults::new(plan),
        }
    }

    /// Puts a store into a directory, in place of the one that was there.
    pub fn store_at(&mut self, dir: &str, store: MemoryStore) -> Result<(), AllocError>
        ensures stored { OnOk result (⟦<MemoryWorld as World>⟧.stored self.new dir.now ≡ Some (Some store)) }
        ensures broken { OnErr result
            (⟦<MemoryWorld as World>⟧.stored self.new ≡ ⟦<MemoryWorld as World>⟧.stored self.old) }
        ensures others { (other : List ℕ) → other ≢ dir.now
            → ⟦<MemoryWorld as World>⟧.stored self.new other ≡ ⟦<MemoryWorld as World>⟧.stored self.old other }
        ensures stores { ⟦<MemoryWorld as World>⟧.stores self.new ≡ ⟦<MemoryWorld as World>⟧.stores self.old }
        ensures directories { ⟦<MemoryWorld as World>⟧.directories self.new
            ≡ ⟦<MemoryWorld as World>⟧.directories self.old }
        ensures clients { ⟦<MemoryWorld as World>⟧.clients self.new ≡ ⟦<MemoryWorld as World>⟧.clients self.old }
        ensures printed { ⟦<MemoryWorld as World>⟧.printed self.new ≡ ⟦<MemoryWorld as World>⟧.printed self.old }
        ensures faults { self.new.faults ≡ self.old.faults }
    {
        let directory = String::from_str(self.alloc, dir)?;
        self.directories.insert(directory, store)?;
        Ok(())
    }

    /// The store in a directory.
    pub fn store(&self, dir: &str) -> Option<&MemoryStore>
        ensures { ⟦<MemoryWorld as World>⟧.stored self.now dir.now ≡ Some (option_copied result) }
    {
        self.directories.get(dir)
    }

    /// A client that was put back, by its place in the order.
    pub fn client_back(&self, place: usize) -> Option<&MemoryClient>
        ensures { option_copied result ≡ option_and_then (λ back. back)
            (slice_get (⟦<MemoryWorld as World>⟧.clients self.now).back place) }
    {
        let returned = &self.client_seats[..self.clients_returned];
        returned.get(place)?.back.as_ref()
    }

    /// What was printed.
    pub fn printed(&self) -> &[u8]
        ensures { ⟦<MemoryWorld as World>⟧.printed self.now ≡ Some result.now }
    {
        &self.printed
    }
}
