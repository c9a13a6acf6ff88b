//! The deleted stamps of a part's fragments, in a table of which changed copies share all but a few pieces.
#![tactic(auto)]

mod block;
mod shared;
mod stamps;

pub use stamps::Stamps;
