//! The outside in memory, with told contents, counts, calls that are to fail, and a stop after which a crash is tried.
#![tactic(auto)]

mod build;
mod change;
mod crash;
mod disk;
mod faults;
mod file;
mod log;
mod logs;
mod meter;
mod plan;
mod port;
mod store;
mod streams;
mod world;
mod yard;

pub use build::MemoryBuild;
pub use disk::MemoryDisk;
pub use file::MemoryFile;
pub use meter::Meter;
pub use plan::{Plan, Verdict};
pub use port::MemoryPort;
pub use store::{MemoryStore, blank_logs, blank_store};
pub use streams::{MemorySink, MemorySource};
pub use world::{MemoryClient, MemoryWorld};
pub use yard::MemoryYard;
