ghost use Rattle.client_lines.specs.Lines.{OnlyReads, Reads};
ghost use Rattle.client_lines.specs.Readings.{ReadsCommand};

use crate::commits::{read_put, read_remove};
use crate::form::{LineForm, form};
use crate::lookups::{read_get, read_search};
use crate::refusal::LineRefusal;
use std::alloc::Global;
use std::str;
use transcript::{BadKind, Command};

/// Reads what a line asks; returns none exactly for an empty line. The line comes without its line feed and without the
/// carriage return before it.
///
/// It takes time n log n in the length of the line, and memory only for what the command holds. It refuses a line at
/// the first check that fails: its UTF-8, its form, its URI, its JSON, and the query or the document that this is. Want
/// of memory is free, but for an empty line and `quit`.
pub fn read_line(alloc: Global, line: &[u8]) -> Result<Option<Command>, LineRefusal>
    ensures reads { Reads line.now result }
    ensures only { OnlyReads line.now result }
{
    if line.is_empty() {
        return Ok(None);
    }
    Ok(Some(read_command(alloc, line)?))
}

fn read_command(alloc: Global, line: &[u8]) -> Result<Command, LineRefusal>
    ensures { ReadsCommand line.now result }
{
    match str::from_utf8(line) {
        Ok(text) => read_text(alloc, text),
        Err(error) => Err(LineRefusal::Bad {
            kind: BadKind::Utf8,
            place: error.valid_up_to() as u64,
        }),
    }
}

fn read_text(alloc: Global, line: &str) -> Result<Command, LineRefusal>
    ensures { ReadsCommand line.now result }
{
    match form(line) {
        Ok(LineForm::Put { uri, json }) => read_put(alloc, line, uri, json),
        Ok(LineForm::Remove { uri }) => read_remove(alloc, line, uri),
        Ok(LineForm::Get { uri }) => read_get(alloc, line, uri),
        Ok(LineForm::Search { json }) => read_search(alloc, line, json),
        Ok(LineForm::Stamp) => Ok(Command::Stamp),
        Ok(LineForm::Quit) => Ok(Command::Quit),
        Ok(LineForm::Later) => Err(LineRefusal::Later),
        Err(place) => Err(LineRefusal::Bad {
            kind: BadKind::Syntax,
            place,
        }),
    }
}
