//! Whether a document satisfies a query, and the two tests of a query, computed as they are defined: slowly, and
//! plain to read. Tests compare every faster way with it, and no faster way uses it.
#![tactic(auto)]

mod bounding;
mod directories;
mod ignoring_case;
mod leaves;
mod matching;
mod meanings;
mod nearness;
mod scalar_list;
mod string_list;
mod text_bounding;
mod text_starts;
mod values;
mod word_positions;

pub use bounding::bounds;
pub use directories::in_directory;
pub use ignoring_case::ignores_case;
pub use leaves::leaf_holds;
pub use matching::matches;
pub use meanings::meaning;
pub use nearness::is_near;
pub use scalar_list::scalars;
pub use string_list::strings;
pub use text_starts::starts_among;
pub use values::{in_range, order_holds, scalar_equals};
pub use word_positions::{positions, words_seen};
