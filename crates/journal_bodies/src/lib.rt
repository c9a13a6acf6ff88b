//! The bodies of the logs' frames as bytes: entries of a journal, and roots.
#![tactic(auto)]

mod entry_reading;
mod entry_writing;
mod fault;
mod files;
mod indexes;
mod kinds;
mod laws;
mod ops;
mod parts;
mod root;
mod root_reading;
mod root_writing;
mod uris;

pub use entry_reading::read_entry;
pub use entry_writing::{commit_body, entry_body};
pub use fault::BodyBad;
pub use laws::{entries_are_read, entries_end_early, roots_are_read, roots_end_early};
pub use root::{PartFiles, Root};
pub use root_reading::read_root;
pub use root_writing::root_body;
