//! The values of one index in their order, each with its fragment: which fragments have a value below, equal to or
//! above a given one.
#![tactic(auto)]

mod compare;
mod fragments;
mod groups;
mod index;
#[cfg(test)]
mod tests;
mod text;

pub use compare::Compare;
pub use index::RangeIndex;
pub use text::Text;
