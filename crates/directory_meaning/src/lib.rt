//! What the logs and sealed files of a directory show: definitions in specs/, and their laws.
#![tactic(auto)]

mod laws;
mod logs;

pub use laws::{
    another_entry_is_told, damage_is_one, entries_go_on_alike, first_root_is_told,
    frames_are_short, kept_is_shown, nothing_is_shown, old_entries_do_not_count, one_base_is_shown,
    other_files_do_not_count, shown_begins, told_is_shown, what_is_shown_is_a_base,
    what_is_shown_is_not_damaged,
};
pub use logs::DIRECTORY_LOGS;
