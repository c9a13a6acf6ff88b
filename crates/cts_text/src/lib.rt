//! Queries as JSON text, read and written.
#![tactic(auto)]

mod bad;
mod compare;
mod distance;
mod fitting;
mod forms;
mod judging;
mod kinds;
mod node_of;
mod objects;
mod options;
mod reading;
mod saying;
mod values;
mod writing;

pub use bad::QueryTextBad;
pub use reading::read;
pub use writing::write;
