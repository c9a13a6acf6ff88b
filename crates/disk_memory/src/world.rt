//! A world in memory.

ghost use Rattle.std.specs.Prelude.{◌≤◌, vec_len};

mod calls;
mod methods;

use crate::faults::Faults;
use crate::port::MemoryPort;
use crate::store::MemoryStore;
use crate::streams::{MemorySink, MemorySource};
use disk_model::Client;
use std::alloc::Global;
use std::collections::{BTreeMap, VecDeque};
use std::snapshot::Snapshot;

/// What serves one client in memory.
pub type MemoryClient = Client<MemorySource, MemorySink, MemoryPort>;

// A client that was handed out, and as it came back.
#[derive(Drop)]
struct ClientSeat {
    out: Snapshot<MemoryClient>,
    back: Option<MemoryClient>,
}

// A store that was handed out, and as it came back.
#[derive(Drop)]
struct StoreSeat {
    directory: String,
    out: Snapshot<MemoryStore>,
    back: Option<Snapshot<MemoryStore>>,
}

/// A world in memory, which hands out the clients that it was made with, and the stores of its directories.
#[derive(Drop)]
pub struct MemoryWorld {
    alloc: Global,
    waiting: VecDeque<MemoryClient>,
    client_seats: Vec<ClientSeat>,
    clients_returned: usize,
    directories: BTreeMap<String, MemoryStore>,
    store_seats: Vec<StoreSeat>,
    stores_returned: usize,
    printed: Vec<u8>,
    faults: Faults,
    ghost clients_within: { clients_returned ≤ vec_len client_seats },
    ghost stores_within: { stores_returned ≤ vec_len store_seats },
}
