ghost use Rattle.std.specs.Prelude.{◌≡◌, IfOk};
ghost use Rattle.doc_meaning.specs.Words.{words};

use crate::is_word_char;
use std::alloc::{AllocError, Global};

/// The words of a text in order, each from the byte where it begins to the byte where it ends.
///
/// It looks once at each character.
pub fn words(alloc: Global, text: &str) -> Result<Vec<(usize, usize)>, AllocError>
    ensures { IfOk result (λ spans. spans.items ≡ words text.now) }
{
    let mut out = Vec::new(alloc);
    let mut start: Option<usize> = None;
    let mut at: usize = 0;
    for c in text.chars() {
        if is_word_char(c) {
            start = Some(start.unwrap_or(at));
        } else if let Some(from) = start {
            out.push((from, at))?;
            start = None;
        }
        at += c.len_utf8();
    }
    if let Some(from) = start {
        out.push((from, at))?;
    }
    Ok(out)
}
