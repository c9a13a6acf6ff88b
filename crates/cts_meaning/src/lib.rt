//! What the JSON of a query says: definitions in specs/, the types that code and definitions share, and the laws of the
//! definitions.
#![tactic(auto)]

mod form;
mod laws;
mod shape;

pub use form::QueryForm;
pub use laws::{
    canonical_texts_are_read, each_tree_is_judged, faults_lie_inside, one_query_is_said,
};
pub use shape::{OptionKind, Shape};
