//! The answer to one line.

ghost use Rattle.std.specs.Prelude.{◌≡◌, ◌↔◌, ◌<◌, length, IsTrue, Err, OnOk};
ghost use Rattle.transcript.specs.Commands.{Asks};
ghost use Rattle.transcript.specs.Lines.{without_return};
ghost use Rattle.transcript.specs.Transcript.{most_waiting};
ghost use Rattle.transcript.specs.declared.command.Command.TheVariants.{Quit};
ghost use Rattle.transcript.specs.declared.session_end.SessionEnd.TheVariants.{WriteFault};
ghost use Rattle.client_run.specs.Closing.{Blames};
ghost use Rattle.client_run.specs.Serving.{AnswersOne};
ghost use Rattle.client_run.specs.Sessions.{AnswersLine};

use crate::closing::{close_with, say};
use crate::service::Service;
use client_lines::{LineRefusal, Outbox, read_line};
use disk_model::Sink;
use std::alloc::Global;
use transcript::{Reply, SessionEnd};

/// The line without one carriage return at its end.
pub fn without_return(line: &[u8]) -> &[u8]
    ensures { result.now ≡ without_return line.now }
{
    if !line.is_empty() && line[line.len() - 1] == b'\r' {
        return &line[..line.len() - 1];
    }
    line
}

fn asks_quit(line: &[u8]) -> bool
    ensures { IsTrue result ↔ Asks line.now Quit }
{
    line == b"quit".as_slice()
}

// The reply to a line that doesn't ask to quit, none to an empty one.
fn answer<R, S: Service>(rt: &R, alloc: Global, service: &mut S, line: &[u8]) -> Option<Reply>
    requires stays { Asks line.now Quit → ⊥ }
    requires ready { S.ready service.old }
    ensures answers { AnswersLine S.answers service.old line.now result service.new }
    ensures ready { S.ready service.new }
{
    match read_line(alloc, line) {
        Ok(None) => None,
        Ok(Some(command)) => Some(service.answer(rt, command)),
        Err(LineRefusal::Bad { kind, place }) => Some(Reply::Bad { kind, place }),
        Err(LineRefusal::Later) => Some(Reply::Later),
        Err(LineRefusal::Memory) => Some(Reply::Memory),
    }
}

/// Answers a line. `quit` ends the session, with all replies sent.
pub fn answer_line<R, S: Service, W: Sink>(
    rt: &R,
    alloc: Global,
    service: &mut S,
    line: &[u8],
    outbox: &mut Outbox,
    sink: &mut W,
) -> Result<(), SessionEnd>
    requires { S.ready service.old }
    ensures answers { AnswersOne S.answers service.old service.new line.now result
        outbox.old outbox.new (W.written sink.old) (W.written sink.new) }
    ensures ready { S.ready service.new }
    ensures room { OnOk result (length outbox.old < most_waiting → length outbox.new < most_waiting) }
    ensures fault { Blames (W.faults sink.old) (W.faults sink.new) (result ≡ Err WriteFault) }
{
    if asks_quit(line) {
        return Err(close_with(outbox, sink, &Reply::Bye, SessionEnd::Quit));
    }
    match answer(rt, alloc, service, line) {
        None => Ok(()),
        Some(reply) => say(outbox, sink, &reply),
    }
}
