//! JSON texts, texts of queries, and words.

use doc_model::Texts;
use std::alloc::{AllocError, Global};

/// The canonical text of a JSON text, or its fault.
pub fn json(alloc: Global, text: &[u8]) -> Result<String, AllocError> {
    match json_text::read(alloc, text) {
        Ok(node) => Ok(json_text::write(alloc, &node)?.into_string()),
        Err(bad) => format!(in alloc; "{bad:?}"),
    }
}

/// The canonical text of the query that a text says, or the text's fault.
pub fn cts(alloc: Global, text: &[u8]) -> Result<String, AllocError> {
    match cts_text::read(alloc, text) {
        Ok(query) => Ok(cts_text::write(alloc, &query)?.into_string()),
        Err(bad) => format!(in alloc; "{bad:?}"),
    }
}

/// The words of a text, each between two strokes, or where they are other ones when they are cut out.
pub fn words(alloc: Global, text: &str) -> Result<String, AllocError> {
    let mut out = String::from_str(alloc, "/")?;
    for (from, to) in doc_tokens::words(alloc, text)?.as_slice() {
        let word = text.get(*from..*to).unwrap_or("?");
        write!(out, "{word}/")?;
    }
    let cut = in_strokes(alloc, &doc_tokens::plain_words(alloc, text)?)?;
    if cut.as_str() != out.as_str() {
        return format!(in alloc; "{out} by their places, {cut} cut out");
    }
    Ok(out)
}

/// The folded words of a text, each between two strokes.
pub fn folded(alloc: Global, text: &str) -> Result<String, AllocError> {
    in_strokes(alloc, &doc_tokens::folded_words(alloc, text)?)
}

/// Texts, each between two strokes.
fn in_strokes(alloc: Global, texts: &Texts) -> Result<String, AllocError> {
    let mut out = String::from_str(alloc, "/")?;
    for text in texts.as_slice() {
        write!(out, "{}/", text.as_str())?;
    }
    Ok(out)
}
