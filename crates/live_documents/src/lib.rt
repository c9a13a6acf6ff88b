//! The live documents of a history as a map. A commit changes it in two steps: it takes all the memory that it needs
//! first, and is then settled, or taken back, without any.
#![tactic(auto)]

mod conflict;
mod documents;
mod staged;
mod twice;

pub use conflict::Conflict;
pub use documents::LiveDocuments;
pub use staged::Staged;
pub use twice::first_twice;
