//! What words, queries and histories mean. The definitions are in specs/; here are the types that code and
//! definitions share, and the laws of the definitions.
#![tactic(auto)]

mod bounds;
mod database_laws;
mod laws;
mod meaning;
mod prefix_laws;
mod replies;
mod reply_laws;
mod string_laws;
mod string_node;
mod timestamp;
mod version;
mod version_laws;

pub use bounds::Bounds;
pub use database_laws::{forgets_change_nothing, next_is_changed};
pub use laws::{
    and_satisfies_each, answers_are_sorted, estimate_is_no_less, first_ends_there,
    first_is_the_same, later_entries_change_nothing, near_holds_further, near_is_a_choice,
    others_stay, put_is_live, removed_is_gone, rising_rises, satisfies_maybe, shown_is_a_base,
    shown_is_the_same, sure_satisfies, words_are_maximal_runs,
};
pub use meaning::Meaning;
pub use prefix_laws::{
    first_is_a_history, first_merges_earlier, first_of_first, first_versions_stay,
};
pub use replies::{CommitReply, ForgetReply, LookReply, ReadReply};
pub use reply_laws::{entries_are_alike, reads_are_alike};
pub use string_laws::{fewer_words_than_size, first_positions_rise};
pub use string_node::StringNode;
pub use timestamp::LAST_TIMESTAMP;
pub use version::Version;
pub use version_laws::{databases_have_versions, one_version_per_stamp};
