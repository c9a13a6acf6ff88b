//! One session: the lines of a source, each answered by a service, and the replies to a sink.
#![tactic(auto)]

mod answering;
mod closing;
mod find;
mod reader;
mod service;
mod serving;
mod step;

pub use service::Service;
pub use serving::session;
