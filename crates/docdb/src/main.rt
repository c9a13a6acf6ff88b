//! docdb: a document database for JSON, over the files of a directory and the standard streams.
#![tactic(auto)]

use db_top::{Status, run};
use io_edge::{Missing, SystemWorld};
use std::alloc::{AllocError, Global};
use std::io::Write;
use std::process::ExitCode;
use std::{env, io};

/// The words that the program takes.
const WORDS: &str =
    "docdb: the words are 'init DIR [--range NAME:TYPE].. [--save-at N] [--merge-at K]', 'run DIR' or 'check DIR'";

/// The words after the program's name; none where one isn't UTF-8, since no command fits then.
fn words(rt: &HostRuntime, alloc: Global) -> Result<Vec<String>, AllocError> {
    match args(rt, alloc) {
        Ok(words) => Ok(words),
        Err(error) if error.kind() == io::ErrorKind::OutOfMemory => Err(AllocError),
        Err(_) => Ok(Vec::new(alloc)),
    }
}

/// The words after the program's name. One that isn't UTF-8 is an error.
fn args(rt: &HostRuntime, alloc: Global) -> io::Result<Vec<String>> {
    let mut words = Vec::new(alloc);
    for word in env::args(rt)?.skip(1) {
        words.push(word)?;
    }
    Ok(words)
}

/// A directory that is missing is made for `init` alone.
fn missing(words: &[String]) -> Missing {
    match words.first() {
        Some(word) if word.as_str() == "init" => Missing::Make,
        _ => Missing::Leave,
    }
}

/// Runs with the words of the command line.
fn serve(rt: &HostRuntime, alloc: Global) -> Result<Status, AllocError> {
    let words = words(rt, alloc)?;
    let mut world = SystemWorld::new(*rt, alloc, missing(&words));
    Ok(run(rt, alloc, &words, &mut world))
}

/// The answer where memory ran out before the run.
fn no_memory(rt: &HostRuntime) -> Status {
    let mut writer = io::writer(rt);
    let _ = writer.write_all(b"memory\n").and_then(|()| writer.flush());
    Status::Memory
}

fn main(rt: HostRuntime) -> ExitCode {
    let status = match serve(&rt, rt.alloc()) {
        Ok(status) => status,
        Err(AllocError) => no_memory(&rt),
    };
    if status == Status::Usage {
        let _ = eprintln!(rt; "{WORDS}");
    }
    ExitCode::from(status.code())
}
