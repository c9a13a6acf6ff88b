//! Two logs of one kind: the current one takes the next frame, the other one waits until it is reset. A crash at any
//! moment of a call leaves of each log the frames that it had, or those that the call leads to.
#![tactic(auto)]

mod calls;
mod current;
mod laws;
mod pair;

pub use current::Current;
pub use laws::other_pairs_represent;
pub use pair::LogPair;
