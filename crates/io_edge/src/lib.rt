//! The files of a directory, client files and the standard streams, behind the traits of `disk_model`. Their ghosts
//! don't tell content. Each failure is printed on standard error with the name of the file or stream and the system's
//! message. A call of the system that a signal interrupts is made again.
#![tactic(auto)]

mod build;
mod count;
mod directory;
mod disk;
mod file;
mod log;
mod opening;
mod port;
mod reading;
mod seats;
mod streams;
#[cfg(test)]
mod tests;
mod world;
mod yard;

pub use build::SystemBuild;
pub use directory::Missing;
pub use disk::SystemDisk;
pub use file::SystemFile;
pub use port::SystemPort;
pub use streams::{SystemSink, SystemSource};
pub use world::{SystemClient, SystemStore, SystemWorld};
pub use yard::SystemYard;
