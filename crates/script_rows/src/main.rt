//! Runs the scripts of standard input, each a paragraph, over a directory in memory, and prints those that end
//! otherwise.
//!
//! The first line of a script says where it begins: `fresh` with an empty database, `blank` with no database, or
//! `again` with what the script before left. After that word comes its name. The other lines are in `script.rt`.
#![tactic(auto)]

mod cells;
mod directory;
mod judging;
mod running;
mod script;
mod stopping;

use directory::{Logs, blank};
use judging::judged;
use script::Script;
use std::alloc::{AllocError, Global};
use std::io;

/// The scripts that were run, and what the last one left.
#[derive(Drop)]
struct Tally {
    scripts: u64,
    differ: u64,
    left: Logs,
}

impl Tally {
    fn new(alloc: Global) -> Result<Tally, AllocError> {
        Ok(Tally {
            scripts: 0,
            differ: 0,
            left: blank(alloc)?,
        })
    }

    /// Runs a script. What ends otherwise than it wants is told.
    fn run(&mut self, alloc: Global, script: &Script) -> Result<Option<String>, AllocError> {
        let (left, difference) = judged(alloc, script, &self.left)?;
        self.left = left;
        self.scripts = self.scripts.saturating_add(1);
        if difference.is_some() {
            self.differ = self.differ.saturating_add(1);
        }
        Ok(difference)
    }
}

fn main(rt: HostRuntime) -> io::Result<()> {
    let mut tally = Tally::new(rt.alloc())?;
    let mut script = Script::new(rt.alloc());
    for line in rt.lines(rt.alloc()) {
        let line = line?;
        if !line.is_empty() {
            script.add(rt.alloc(), line.as_str())?;
            continue;
        }
        if script.begins()
            && let Some(found) = tally.run(rt.alloc(), &script)?
        {
            println!(rt; "{}\n{found}", script.name.as_str())?;
        }
        script = Script::new(rt.alloc());
    }
    println!(rt; "scripts {}, differ {}", tally.scripts, tally.differ)
}
