//! The URIs of a part's fragments, sorted, with the created stamp of each fragment.
#![tactic(auto)]

mod ends;
mod table;
mod text;

pub use table::UriTable;
pub use text::Text;
