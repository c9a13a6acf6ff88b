//! A service over a state, by a closure.

use client_run::Service;
use transcript::{Command, Reply};

/// A state, and what answers commands with it.
///
/// A closure may call what asks for a `Disk`, which no method of an `impl` over one may: so a service over an engine is
/// this one, with a closure.
#[derive(Drop)]
pub(crate) struct Answering<S, F> {
    pub(crate) state: S,
    pub(crate) answer: F,
}

impl<S, F: FnMut(&mut S, Command) -> Reply> Service for Answering<S, F> {
    ghost use Rattle.std.specs.Fn.{CalledWithState};

    ghost answers = { λ old asked said new.
        CalledWithState F.FnMut old.answer old.state asked said new.answer new.state };

    ghost ready = { λ old. F.IsAlwaysCallable old.answer };

    fn answer<R>(&mut self, rt: &R, command: Command) -> Reply {
        (self.answer)(&mut self.state, command)
    }
}
