ghost use Rattle.std.specs.Prelude.{◌≡◌, ℕ, Bool, false, IsTrue, List, [], IfOk};
ghost use Rattle.std.specs.Io.KnownBytes.{Consumes, Appends, IsAtEnd};
ghost use Rattle.disk_model.specs.Causes.{Rose};
ghost use Rattle.client_run.specs.Sessions.{Serves};

use crate::reader::LineReader;
use crate::service::Service;
use crate::step::step;
use client_lines::Outbox;
use disk_model::{Sink, Source};
use std::alloc::{AllocError, Global};
use transcript::SessionEnd;

/// Serves lines until one of them ends the session, the source ends, or a call fails. It takes its own memory, about
/// 4.1 MiB, before the first read.
pub fn session<R, S: Service, I: Source, W: Sink>(
    rt: &R,
    alloc: Global,
    service: &mut S,
    source: &mut I,
    sink: &mut W,
) -> SessionEnd
    requires { S.ready service.old }
    ensures serves { (input : List ℕ) × (output : List ℕ) × (over : Bool)
        × Consumes (I.left source.old) (I.left source.new) input
        × Appends (W.written sink.old) (W.written sink.new) output
        × (IsTrue over → IsAtEnd (I.left source.new))
        × Serves S.answers service.old service.new input output result over }
    ensures read_fault { result ≡ SessionEnd.ReadFault → Rose (I.faults source.old) (I.faults source.new) }
    ensures write_fault { result ≡ SessionEnd.WriteFault → Rose (W.faults sink.old) (W.faults sink.new) }
{
    let Ok((mut reader, mut outbox)) = buffers(alloc) else {
        return SessionEnd::Memory;
    };
    let mut served = 0;
    'lines: loop {
        match step(
            rt,
            alloc,
            service,
            &mut reader,
            &mut outbox,
            source,
            sink,
            served,
        ) {
            Ok(()) => served += 1,
            Err(how) => return how,
        }
    }
}

// All the memory that a session takes of its own.
fn buffers(alloc: Global) -> Result<(LineReader, Outbox), AllocError>
    ensures { IfOk result (λ empty. (empty.0 ≡ record { pending = []; over = false }) × (empty.1 ≡ [])) }
{
    Ok((LineReader::new(alloc)?, Outbox::new(alloc)?))
}
