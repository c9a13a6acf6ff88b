//! The commands.

ghost use Rattle.std.specs.Prelude.{◌≡◌, IfOk, IsTrue, map, string_bytes};
ghost use Rattle.command_words.specs.Asked.{WordsAsk, asked_settings, index_of};
ghost use Rattle.command_words.specs.Reading.{or_default};
ghost use Rattle.doc_model.specs.Queries.{is_index_list};

use crate::ranges::{MAX_RANGES, Range, indexes_of};
use crate::reading::{Reading, read};
use crate::scan::same;
use arrayvec::ArrayVec;
use doc_model::Settings;
use std::alloc::{AllocError, Global};

/// A command, and the directory that it is about.
#[derive(Drop)]
pub enum Command<'a> {
    /// Makes an empty database.
    Init(Init<'a>),
    /// Serves the client without a name.
    Run(&'a str),
    /// Opens the database, and says what it holds.
    Check(&'a str),
}

/// A directory, and the settings of the database that is made there.
#[derive(Drop)]
pub struct Init<'a> {
    pub directory: &'a str,
    pub ranges: ArrayVec<Range<'a>, MAX_RANGES>,
    /// How many fragments in memory make a save due.
    pub save_at: u32,
    /// How many parts on disk make a merge due.
    pub merge_at: u32,
}

impl<'a> Init<'a> {
    // Options that weren't given have their default.
    fn new(directory: &'a str, reading: Reading<'a>) -> Self
        ensures directory { result.directory ≡ directory.entry }
        ensures ranges { result.ranges ≡ reading.entry.ranges }
        ensures save { result.save_at ≡ or_default 10000 reading.entry.save_at }
        ensures merge { result.merge_at ≡ or_default 8 reading.entry.merge_at }
    {
        Init {
            directory,
            ranges: reading.ranges,
            save_at: reading.save_at.unwrap_or(10_000),
            merge_at: reading.merge_at.unwrap_or(8),
        }
    }

    /// The settings, with memory of their own.
    pub fn settings(&self, alloc: Global) -> Result<Settings, AllocError>
        requires { IsTrue (is_index_list (map index_of self.now.ranges.items)) }
        ensures { IfOk result (λ settings. settings ≡ asked_settings self.now) }
    {
        Ok(Settings {
            indexes: indexes_of(alloc, self.ranges.as_slice())?,
            save_at: self.save_at,
            merge_at: self.merge_at,
        })
    }
}

/// The command that the words ask for, of which the first is its name. `None` where they ask for none.
///
/// It takes time in the bytes of the words, and no memory.
pub fn understand(words: &[String]) -> Option<Command<'_>>
    ensures { WordsAsk (map string_bytes words.now) result }
{
    let [command, rest @ ..] = words else {
        return None;
    };
    let (reading, directory) = read(rest)?;
    if same(command, "init") {
        return Some(Command::Init(Init::new(directory, reading)));
    }
    if !reading.is_bare() {
        return None;
    }
    match command.as_str() {
        "run" => Some(Command::Run(directory)),
        "check" => Some(Command::Check(directory)),
        _ => None,
    }
}
