//! A session with an engine.

ghost use Rattle.std.specs.Prelude.{◌≡◌, ◌≤◌};
ghost use Rattle.doc_engine.specs.EngineState.{disk_of, yard_of};
ghost use Rattle.engine_session.specs.Attended.{ServesLines};
ghost use Rattle.engine_session.specs.Step.{Step};

use crate::answering::Answering;
use crate::replying::reply;
use client_run::session;
use disk_model::{Disk, Sink, Source, Yard};
use doc_engine::Engine;
use std::alloc::Global;
use transcript::{Command, Reply, SessionEnd};

/// Serves a client's lines with an engine, and gives the engine back.
///
/// It takes the memory of a session, and each line costs what its command costs of the engine.
pub fn serve<R, D: Disk, Y: Yard, I: Source, W: Sink>(
    rt: &R,
    alloc: Global,
    engine: Engine<D, Y>,
    source: &mut I,
    sink: &mut W,
) -> (Engine<D, Y>, SessionEnd)
    ensures serves { ServesLines I.Source W.Sink source.old source.new sink.old sink.new engine result.0 result.1 }
    ensures yard { yard_of result.0 ≡ yard_of engine }
    ensures later { D.faults (disk_of engine) ≤ D.faults (disk_of result.0) }
{
    let mut service = Answering {
        state: engine,
        answer: move |engine: &mut Engine<D, Y>, command: Command| -> Reply
            ensures { Step engine.old command result engine.new }
        { reply(alloc, engine, command) },
    };
    let how = session(rt, alloc, &mut service, source, sink);
    (service.state, how)
}
