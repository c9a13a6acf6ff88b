//! The next line, and its answer.

ghost use Rattle.std.specs.Prelude.{◌≡◌, ◌≤◌, Err};
ghost use Rattle.transcript.specs.declared.session_end.SessionEnd.TheVariants.{ReadFault, WriteFault};
ghost use Rattle.client_run.specs.Closing.{Blames};
ghost use Rattle.client_run.specs.Reading.{Gathers};
ghost use Rattle.client_run.specs.Serving.{FindsNext, Steps, point};

use crate::answering::{answer_line, without_return};
use crate::closing::{close, close_with, send};
use crate::find::Find;
use crate::reader::LineReader;
use crate::service::Service;
use client_lines::Outbox;
use disk_model::{Sink, Source};
use std::alloc::Global;
use transcript::{MAX_LINES, Reply, SessionEnd};

// Finds the next line. It sends what waits before each read.
fn find_next<I: Source, W: Sink>(
    reader: &mut LineReader,
    outbox: &mut Outbox,
    source: &mut I,
    sink: &mut W,
) -> Result<Find, SessionEnd>
    ensures gathers { Gathers reader.old reader.new (I.left source.old) (I.left source.new) }
    ensures found { FindsNext result reader.new outbox.old outbox.new (W.written sink.old) (W.written sink.new) }
    ensures read_fault { Blames (I.faults source.old) (I.faults source.new) (result ≡ Err ReadFault) }
    ensures write_fault { Blames (W.faults sink.old) (W.faults sink.new) (result ≡ Err WriteFault) }
{
    let mut found = reader.find();
    while let Find::More = found {
        send(outbox, sink)?;
        let Ok(()) = reader.fill(source) else {
            return Err(SessionEnd::ReadFault);
        };
        found = reader.find();
    }
    Ok(found)
}

/// Answers the next line, where `served` ones came before it, or returns how the session ends. It also answers a line
/// past the limits, which ends the session.
pub fn step<R, S: Service, I: Source, W: Sink>(
    rt: &R,
    alloc: Global,
    service: &mut S,
    reader: &mut LineReader,
    outbox: &mut Outbox,
    source: &mut I,
    sink: &mut W,
    served: u64,
) -> Result<(), SessionEnd>
    requires few { served ≤ MAX_LINES }
    requires ready { S.ready service.old }
    ensures ready { S.ready service.new }
    ensures steps { Steps S.answers result
        (point service.old (I.left source.old) (W.written sink.old) outbox.old reader.old)
        (point service.new (I.left source.new) (W.written sink.new) outbox.new reader.new) served }
    ensures read_fault { Blames (I.faults source.old) (I.faults source.new) (result ≡ Err ReadFault) }
    ensures write_fault { Blames (W.faults sink.old) (W.faults sink.new) (result ≡ Err WriteFault) }
{
    match find_next(reader, outbox, source, sink)? {
        Find::Line(len) if served < MAX_LINES => {
            let line = without_return(reader.front(len));
            answer_line(rt, alloc, service, line, outbox, sink)?;
            reader.skip(len + 1);
            Ok(())
        }
        Find::Last(len) if served < MAX_LINES => {
            answer_line(rt, alloc, service, reader.front(len), outbox, sink)?;
            Err(close(outbox, sink, SessionEnd::End))
        }
        Find::End => Err(close(outbox, sink, SessionEnd::End)),
        _ => Err(close_with(outbox, sink, &Reply::Long, SessionEnd::Long)),
    }
}
