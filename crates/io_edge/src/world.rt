//! The real world.

mod calls;

use crate::count::Count;
use crate::directory::Missing;
use crate::disk::SystemDisk;
use crate::port::SystemPort;
use crate::seats::Seats;
use crate::streams::{SystemSink, SystemSource};
use crate::yard::SystemYard;
use disk_model::{Client, Store};
use std::alloc::Global;

/// What a directory holds.
pub type SystemStore = Store<SystemDisk, SystemYard>;

/// What serves one client.
pub type SystemClient = Client<SystemSource, SystemSink, SystemPort>;

/// The files of directories, client files and the standard streams. Its ghosts don't tell what they hold.
#[derive(Drop)]
pub struct SystemWorld {
    rt: HostRuntime,
    alloc: Global,
    missing: Missing,
    stores: Seats<Store<SystemDisk, SystemYard>>,
    directories: Vec<String>,
    clients: Seats<Client<SystemSource, SystemSink, SystemPort>>,
    count: Count,
}
