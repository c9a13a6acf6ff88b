//! The rules of documents, and of the operations of a commit.

ghost use Rattle.std.specs.Prelude.{◌≡◌};
ghost use Rattle.std.specs.List.{list_all};
ghost use Rattle.doc_model.specs.Operations.{removes_uri};

use crate::cells::bytes_of;
use crate::places::{placed, strokes};
use doc_model::{Document, Members, Node, Nodes, Op, Ops, Text, Texts, is_uri};
use std::alloc::{AllocError, Global};

/// The size of a document of these parts, or the first rule that they break.
fn size_of(alloc: Global, uri: &str, names: Texts, root: Node) -> Result<String, AllocError> {
    match Document::new(alloc, Text::from_str(alloc, uri)?, names, root) {
        Ok(document) => format!(in alloc; "{}", document.copy(alloc)?.size()),
        Err(rule) => format!(in alloc; "{rule:?}"),
    }
}

/// The size of the document of a URI, collections between strokes and the JSON text of a root, or the first rule that
/// it breaks.
pub fn size(alloc: Global, uri: &str, names: &str, root: &str) -> Result<String, AllocError> {
    let uri = bytes_of(alloc, uri)?;
    let uri = str::from_utf8(&uri).unwrap_or("");
    match json_text::read(alloc, root.as_bytes()) {
        Ok(root) => size_of(alloc, uri, strokes(alloc, names)?, root),
        Err(bad) => format!(in alloc; "{bad:?}"),
    }
}

/// The same for `/a` and an array of an object, whose members have these names, and each the value of a JSON text.
pub fn members(alloc: Global, names: &str, value: &str) -> Result<String, AllocError> {
    let mut members = Members::new(alloc);
    for name in names.split(' ') {
        let value = json_text::read(alloc, value.as_bytes()).unwrap_or(Node::Null);
        members.push((Text::from_str(alloc, name)?, value))?;
    }
    let mut items = Nodes::new(alloc);
    items.push(Node::Members(members))?;
    size_of(alloc, "/a", Texts::new(alloc), Node::Items(items))
}

/// The operation `put URI ROOT` or `remove URI`. ` for N` behind it is the timestamp that it expects.
pub fn op(alloc: Global, step: &str) -> Result<Option<Op>, AllocError> {
    let (step, expect) = step.rsplit_once(" for ").unwrap_or((step, ""));
    let expect = expect.parse::<u64>().ok();
    let (word, rest) = step.split_once(' ').unwrap_or((step, ""));
    let (uri, root) = rest.split_once(' ').unwrap_or((rest, ""));
    if word == "remove" {
        let uri = Text::from_str(alloc, uri)?;
        return Ok(Some(Op::Remove { uri, expect }));
    }
    match placed(alloc, uri, root.as_bytes())? {
        Ok(document) => Ok(Some(Op::Put { document, expect })),
        Err(_) => Ok(None),
    }
}

fn has_uri(op: &Op) -> bool
    ensures { result ≡ removes_uri op.now }
{
    match op {
        Op::Put { .. } => true,
        Op::Remove { uri, .. } => is_uri(uri.as_str()),
    }
}

fn have_uris(list: &[Op]) -> bool
    ensures { result ≡ list_all removes_uri list.now }
{
    list.iter().all(|op| has_uri(op))
}

/// The operations of a commit, or the rule that they break.
pub fn commit(alloc: Global, list: Vec<Op>) -> Result<Result<Ops, String>, AllocError> {
    if !have_uris(&list) {
        return Ok(Err(String::from_str(alloc, "no URI")?));
    }
    match Ops::new(list) {
        Ok(ops) => Ok(Ok(ops)),
        Err(rule) => Ok(Err(format!(in alloc; "{rule:?}")?)),
    }
}

/// Whether operations make a commit, each so many times over, or the first rule that they break.
pub fn ops(alloc: Global, steps: &str) -> Result<String, AllocError> {
    let mut list = Vec::new(alloc);
    for step in steps.split(" | ") {
        let (times, step) = step.split_once(' ').unwrap_or((step, ""));
        if let Some(op) = op(alloc, step)? {
            for _ in 0..times.parse::<u32>().unwrap_or(0) {
                list.push(op.copy(alloc)?)?;
            }
        }
    }
    match commit(alloc, list)? {
        Ok(_) => String::from_str(alloc, "kept"),
        Err(rule) => Ok(rule),
    }
}
