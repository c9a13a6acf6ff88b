//! JSON text (RFC 8259) read and written exactly, each fault with its kind and its place.
#![tactic(auto)]

mod amount;
mod bad;
mod escape;
mod fault;
mod kept;
mod laws;
mod lead;
mod literal;
mod plain;
mod quoting;
mod reading;
mod scan;
mod string;
mod value;
mod worth;
mod writing;

pub use bad::JsonBad;
pub use laws::{
    canonical_texts_are_read, one_tree_is_meant, read_or_refused, refused_in_one_way,
    trees_keep_rules,
};
pub use reading::read;
pub use writing::write;
