//! A pair of logs, and which of the two is current.

ghost use Rattle.std.specs.Prelude.{◌≡◌, ◌+◌, ◌↔◌, length, IsTrue};

use crate::current::Current;
use frame_log::{Frame, Log};

/// Two logs of one kind, with numbers that follow each other on the disk. The current one takes the next frame.
#[derive(Debug, Drop)]
pub struct LogPair {
    pub(crate) first: Log,
    pub(crate) second: Log,
    pub(crate) current: Current,
    ghost neighbours: { second.file ≡ first.file + 1 },
}

impl LogPair {
    ghost use Rattle.frame_log.specs.LogStates.{file_of, end_of, IsEmpty};
    ghost use Rattle.log_pair.specs.PairStates.{current_of, other_of, HasDown, IsPairOf};

    /// The pair of these two logs, of which the first has the lower number.
    pub fn new(first: Log, second: Log, current: Current) -> LogPair
        requires { file_of second ≡ file_of first + 1 }
        ensures { IsPairOf first second current result }
    {
        LogPair {
            first,
            second,
            current,
        }
    }

    /// The log that takes the next frame.
    pub fn current(&self) -> &Log
        ensures { result.now ≡ current_of self.now }
    {
        match self.current {
            Current::First => &self.first,
            Current::Second => &self.second,
        }
    }

    /// The log that waits until it is reset.
    pub fn other(&self) -> &Log
        ensures { result.now ≡ other_of self.now }
    {
        match self.current {
            Current::First => &self.second,
            Current::Second => &self.first,
        }
    }

    /// Whether one of the two logs is down.
    pub fn is_down(&self) -> bool
        ensures { IsTrue result ↔ HasDown self.now }
    {
        self.first.is_down() || self.second.is_down()
    }

    /// The place of the current log's last gate after an append of this frame.
    pub fn end_with(&self, frame: &Frame) -> u64
        ensures { result ≡ end_of (current_of self.now) + 9 + length frame.now }
    {
        self.current().end_with(frame)
    }

    /// Makes the other log, which must be empty, the current one. It makes no device call.
    pub fn switch(&mut self)
        requires { IsEmpty (other_of self.old) }
        ensures current { current_of self.new ≡ other_of self.old }
        ensures other { other_of self.new ≡ current_of self.old }
    {
        self.current = match self.current {
            Current::First => Current::Second,
            Current::Second => Current::First,
        };
    }
}
