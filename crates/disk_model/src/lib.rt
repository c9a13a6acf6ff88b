//! What a database needs from outside: logs on a disk, sealed files in a yard, streams, and the world that hands them
//! out. Each is a trait. Its ghost members tell what it holds and how often it has failed.
#![tactic(auto)]

mod disk;
mod failed;
mod file_name;
mod laws;
mod port;
mod streams;
mod world;
mod yard;

pub use disk::{Disk, LOG_COUNT, LONGEST_LOG};
pub use failed::Failed;
pub use file_name::FileName;
pub use laws::{other_bytes_stay, other_logs_stay_settled, since_adds_up};
pub use port::Port;
pub use streams::{Sink, Source};
pub use world::{Client, Store, World};
pub use yard::{Build, SealedFile, Yard};
