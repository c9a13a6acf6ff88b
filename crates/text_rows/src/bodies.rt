//! The bytes of documents, entries and roots: what they say, where writing it gives them back.

use crate::places::kind_name;
use doc_model::{Document, Entry, Op, Ops};
use journal_bodies::{Root, commit_body, read_entry, read_root, root_body};
use std::alloc::{AllocError, Global};

/// A text, or that what was read is written as other bytes.
fn written_so(alloc: Global, text: String, is_same: bool) -> Result<String, AllocError> {
    if is_same {
        Ok(text)
    } else {
        format!(in alloc; "{text}, and it is written otherwise")
    }
}

/// Appends the URI, the collections and the root of a document, with spaces between them.
fn add_document(alloc: Global, out: &mut String, document: &Document) -> Result<(), AllocError> {
    write!(out, "{}", document.uri().as_str())?;
    for name in document.collections().as_slice() {
        write!(out, " {}", name.as_str())?;
    }
    let root = json_text::write(alloc, document.root())?;
    write!(out, " {}", root.as_str())
}

/// The document of some bytes, or their fault.
pub fn document(alloc: Global, bytes: &[u8]) -> Result<String, AllocError> {
    let document = match docs_format::decode(alloc, bytes) {
        Ok(document) => document,
        Err(bad) => return format!(in alloc; "{bad:?}"),
    };
    let mut text = String::new(alloc);
    add_document(alloc, &mut text, &document.copy(alloc)?)?;
    let again = docs_format::encode(alloc, &document)?;
    written_so(alloc, text, again.as_slice() == bytes)
}

/// Appends an operation and the timestamp that it expects.
fn add_op(alloc: Global, out: &mut String, op: &Op) -> Result<(), AllocError> {
    match op {
        Op::Put { document, .. } => {
            write!(out, ", put ")?;
            add_document(alloc, out, document)?;
        }
        Op::Remove { uri, .. } => write!(out, ", remove {}", uri.as_str())?,
    }
    match op.expect() {
        Some(stamp) => write!(out, " for {stamp}"),
        None => Ok(()),
    }
}

/// A commit and its number.
fn commit(alloc: Global, number: u64, ops: &Ops, bytes: &[u8]) -> Result<String, AllocError> {
    let mut text = format!(in alloc; "{number}")?;
    for op in ops.copy(alloc)?.as_slice() {
        add_op(alloc, &mut text, op)?;
    }
    let again = commit_body(alloc, number, ops)?;
    written_so(alloc, text, again.as_slice() == bytes)
}

/// The entry of some bytes and its number, or their fault.
pub fn entry(alloc: Global, bytes: &[u8]) -> Result<String, AllocError> {
    match read_entry(alloc, bytes, None) {
        Ok((number, Entry::Commit(ops))) => commit(alloc, number, &ops, bytes),
        Ok((number, Entry::Forget(to))) => format!(in alloc; "{number}, forget {to}"),
        Err(bad) => format!(in alloc; "{bad:?}"),
    }
}

/// Appends the settings of a root.
fn add_settings(alloc: Global, out: &mut String, root: &Root) -> Result<(), AllocError> {
    let settings = root.settings.copy(alloc)?;
    write!(
        out,
        ", save at {}, merge at {}",
        settings.save_at, settings.merge_at
    )?;
    for (name, kind) in settings.indexes.as_slice() {
        write!(out, ", {}:{}", name.as_str(), kind_name(*kind))?;
    }
    Ok(())
}

/// Appends the files of a root.
fn add_files(out: &mut String, root: &Root) -> Result<(), AllocError> {
    for part in root.parts.as_slice() {
        let (index, documents, stamps) = (part.index, part.documents, part.stamps);
        write!(
            out,
            ", part {index} {documents} {stamps} of {}",
            part.fragments
        )?;
    }
    for number in root.removed.as_slice() {
        write!(out, ", removed {number}")?;
    }
    Ok(())
}

/// The root of some bytes, or their fault.
pub fn root(alloc: Global, bytes: &[u8]) -> Result<String, AllocError> {
    let root = match read_root(alloc, bytes) {
        Ok(root) => root,
        Err(bad) => return format!(in alloc; "{bad:?}"),
    };
    let stamps = (root.checkpoint, root.merge, root.horizon);
    let mut text = format!(in alloc; "{} at {stamps:?}, next {}", root.number, root.next)?;
    add_settings(alloc, &mut text, &root)?;
    add_files(&mut text, &root)?;
    let again = root_body(alloc, &root)?;
    written_so(alloc, text, again.as_slice() == bytes)
}
