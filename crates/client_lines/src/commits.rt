ghost use Rattle.std.specs.Prelude.{◌≤◌, IsTrue};
ghost use Rattle.client_lines.specs.Readings.{MakesCommit, MakesPut, ReadsCommand};
ghost use Rattle.doc_model.specs.Operations.{removes_uri};
ghost use Rattle.doc_model.specs.Tree.{depth, has_distinct_names};
ghost use Rattle.doc_model.specs.Uri.{is_uri};
ghost use Rattle.transcript.specs.Forms.{HasForm};
ghost use Rattle.transcript.specs.Forms as form;

use crate::faults::{bad_json, check_uri};
use crate::refusal::LineRefusal;
use doc_model::{DocRefusal, Document, Node, Op, Ops, OpsRefusal, Text, Texts};
use std::alloc::Global;
use transcript::{BadKind, Command};

/// Where the URI begins behind `put`.
const PUT_URI: u64 = 4;

/// Where the URI begins behind `remove`.
const REMOVE_URI: u64 = 7;

/// A document that is too large, told as a fault of the operations.
const TOO_LARGE: LineRefusal = LineRefusal::Bad {
    kind: BadKind::Ops,
    place: 0,
};

/// What a line asks that puts a JSON text under a URI.
pub(crate) fn read_put(
    alloc: Global,
    line: &str,
    uri: &str,
    json: &[u8],
) -> Result<Command, LineRefusal>
    requires { HasForm line.now (form.put uri.now json.now) }
    ensures { ReadsCommand line.now result }
{
    check_uri(uri, PUT_URI)?;
    match json_text::read(alloc, json) {
        Ok(root) => put(alloc, uri, root),
        Err(why) => Err(bad_json(line, json, why)),
    }
}

/// What a line asks that removes a URI.
pub(crate) fn read_remove(alloc: Global, line: &str, uri: &str) -> Result<Command, LineRefusal>
    requires { HasForm line.now (form.remove uri.now) }
    ensures { ReadsCommand line.now result }
{
    check_uri(uri, REMOVE_URI)?;
    let uri = Text::from_str(alloc, uri)?;
    commit(alloc, Op::Remove { uri, expect: None })
}

// A put of a tree that a JSON text means.
fn put(alloc: Global, uri: &str, root: Node) -> Result<Command, LineRefusal>
    requires uri { IsTrue (is_uri uri.now) }
    requires names { IsTrue (has_distinct_names root) }
    requires nests { depth root ≤ 128 }
    ensures { MakesPut uri.now root result }
{
    let uri = Text::from_str(alloc, uri)?;
    match Document::new(alloc, uri, Texts::new(alloc), root) {
        Ok(document) => commit(
            alloc,
            Op::Put {
                document,
                expect: None,
            },
        ),
        Err(DocRefusal::Memory) => Err(LineRefusal::Memory),
        Err(DocRefusal::Size) => Err(TOO_LARGE),
        // The tree and the URI keep the other rules.
        Err(DocRefusal::Uri | DocRefusal::Collections | DocRefusal::Depth | DocRefusal::Names) =>
            Err(TOO_LARGE),
    }
}

fn commit(alloc: Global, op: Op) -> Result<Command, LineRefusal>
    requires { IsTrue (removes_uri op) }
    ensures { MakesCommit op result }
{
    let mut list = Vec::with_capacity(alloc, 1)?;
    list.push(op)?;
    match Ops::new(list) {
        Ok(ops) => Ok(Command::Commit(ops)),
        Err(OpsRefusal::Size) => Err(TOO_LARGE),
        // There is one operation.
        Err(OpsRefusal::Count { .. }) => Err(TOO_LARGE),
    }
}
