//! Replies to a sink, and the ends of a session.

ghost use Rattle.std.specs.Prelude.{◌≡◌, ◌≢◌, ◌<◌, [], length, Err, OnOk};
ghost use Rattle.transcript.specs.Texts.{text_of};
ghost use Rattle.transcript.specs.Transcript.{most_waiting};
ghost use Rattle.transcript.specs.declared.session_end.SessionEnd.TheVariants.{WriteFault};
ghost use Rattle.client_run.specs.Closing.{Says, Closes, Blames};

use client_lines::{Outbox, write_reply};
use disk_model::Sink;
use transcript::{Reply, SessionEnd};

/// Sends what waits.
pub fn send<W: Sink>(outbox: &mut Outbox, sink: &mut W) -> Result<(), SessionEnd>
    ensures says { Says result outbox.old outbox.new (W.written sink.old) (W.written sink.new) [] }
    ensures empty { OnOk result (outbox.new ≡ []) }
    ensures fault { Blames (W.faults sink.old) (W.faults sink.new) (result ≡ Err WriteFault) }
{
    match outbox.send(sink) {
        Ok(()) => Ok(()),
        Err(_) => Err(SessionEnd::WriteFault),
    }
}

/// Buffers a reply.
pub fn say<W: Sink>(outbox: &mut Outbox, sink: &mut W, reply: &Reply) -> Result<(), SessionEnd>
    ensures says { Says result outbox.old outbox.new (W.written sink.old) (W.written sink.new) (text_of reply.now) }
    ensures room { OnOk result (length outbox.new < most_waiting) }
    ensures fault { Blames (W.faults sink.old) (W.faults sink.new) (result ≡ Err WriteFault) }
{
    match write_reply(outbox, sink, reply) {
        Ok(()) => Ok(()),
        Err(_) => Err(SessionEnd::WriteFault),
    }
}

/// Sends what waits, and returns how the session ends.
pub fn close<W: Sink>(outbox: &mut Outbox, sink: &mut W, how: SessionEnd) -> SessionEnd
    requires { how ≢ WriteFault }
    ensures closes { Closes how result outbox.old (W.written sink.old) (W.written sink.new) [] }
    ensures fault { Blames (W.faults sink.old) (W.faults sink.new) (result ≡ WriteFault) }
{
    match send(outbox, sink) {
        Ok(()) => how,
        Err(fault) => fault,
    }
}

/// Sends what waits and a last reply, and returns how the session ends.
pub fn close_with<W: Sink>(
    outbox: &mut Outbox,
    sink: &mut W,
    reply: &Reply,
    how: SessionEnd,
) -> SessionEnd
    requires { how ≢ WriteFault }
    ensures closes { Closes how result outbox.old (W.written sink.old) (W.written sink.new) (text_of reply.now) }
    ensures fault { Blames (W.faults sink.old) (W.faults sink.new) (result ≡ WriteFault) }
{
    match say(outbox, sink, reply) {
        Ok(()) => close(outbox, sink, how),
        Err(cut) => cut,
    }
}
