//! A log of frames on a disk. A crash at any moment of an append leaves the old frames, or these and the new one.
#![tactic(auto)]

mod device;
mod frame;
mod frame_reader;
mod laws;
mod log;
mod next_frame;
mod reading;
mod refusal;
mod scanning;
mod state;

pub use frame::{CLOSED, Frame, OPEN};
pub use frame_reader::FrameReader;
pub use laws::{bytes_say_one_thing, other_logs_represent};
pub use log::Log;
pub use refusal::{LogRefusal, ScanRefusal};
pub use scanning::scan;
