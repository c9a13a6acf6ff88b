//! Documents, range indexes and lists of starts, as the cells of rows say them.

use doc_model::{Document, Indexes, Kind, Text, Texts};
use sqlite_items::Items;
use std::alloc::{AllocError, Global};

/// The document of a place, which is a URI and collections with spaces between them, and of the JSON text of a root.
/// Else the fault.
pub fn placed(
    alloc: Global,
    place: &str,
    root: &[u8],
) -> Result<Result<Document, String>, AllocError> {
    let root = match json_text::read(alloc, root) {
        Ok(root) => root,
        Err(bad) => return Ok(Err(format!(in alloc; "root: {bad:?}")?)),
    };
    let (uri, names) = place.split_once(' ').unwrap_or((place, ""));
    let uri = Text::from_str(alloc, uri)?;
    match Document::new(alloc, uri, collections(alloc, names)?, root) {
        Ok(document) => Ok(Ok(document)),
        Err(refusal) => Ok(Err(format!(in alloc; "document: {refusal:?}")?)),
    }
}

/// The parts of a text that spaces part.
fn collections(alloc: Global, names: &str) -> Result<Texts, AllocError> {
    let mut texts = Texts::new(alloc);
    for name in names.split(' ') {
        if !name.is_empty() {
            texts.push(Text::from_str(alloc, name)?)?;
        }
    }
    Ok(texts)
}

/// The range indexes of a cell with a `NAME:decimal` or `NAME:string` for each, and spaces between them. `None` says
/// that they are refused.
pub fn indexes(alloc: Global, cell: &str) -> Result<Option<Indexes>, AllocError> {
    let mut list = Vec::new(alloc);
    for pair in cell.split(' ') {
        if let Some((name, kind)) = pair.rsplit_once(':') {
            let kind = match kind {
                "decimal" => Kind::Decimal,
                _ => Kind::Text,
            };
            list.push((Text::from_str(alloc, name)?, kind))?;
        }
    }
    Ok(Indexes::new(list))
}

/// The name of a kind of range index.
pub fn kind_name(kind: Kind) -> &'static str {
    match kind {
        Kind::Decimal => "decimal",
        Kind::Text => "string",
    }
}

/// The numbers of a text that spaces part.
fn numbers(alloc: Global, text: &str) -> Result<Items<u64>, AllocError> {
    let mut out = Items::new(alloc);
    for word in text.split(' ') {
        if let Ok(number) = word.parse::<u64>() {
            out.push(number)?;
        }
    }
    Ok(out)
}

/// The starts of children: the list of each between two strokes.
pub fn lists(alloc: Global, cell: &str) -> Result<Items<Items<u64>>, AllocError> {
    let mut out = Items::new(alloc);
    for list in cell.strip_suffix('/').unwrap_or(cell).split('/').skip(1) {
        out.push(numbers(alloc, list)?)?;
    }
    Ok(out)
}

/// Texts, each between two strokes.
pub fn strokes(alloc: Global, cell: &str) -> Result<Texts, AllocError> {
    let mut out = Texts::new(alloc);
    for text in cell.strip_suffix('/').unwrap_or(cell).split('/').skip(1) {
        out.push(Text::from_str(alloc, text)?)?;
    }
    Ok(out)
}
