//! What a session reads and writes, and how the sessions and maintenance of one run make one history. specs/ has the
//! definitions; src/ has the types that code and definitions share, the limits of a session, and the laws.
#![tactic(auto)]

mod command;
mod laws;
mod limits;
mod reply;
mod session_end;
mod wish;

pub use command::{Command, When};
pub use laws::{
    history_has_each_once, history_has_no_others, later_turns_change_nothing,
    legal_turns_make_a_history, one_form_is_had,
};
pub use limits::{LONGEST_LINE, MAX_LINES};
pub use reply::{BadKind, Reply};
pub use session_end::SessionEnd;
pub use wish::Wish;
