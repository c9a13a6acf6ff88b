ghost use Rattle.std.specs.Prelude.{◌≡◌, IfOk};
ghost use Rattle.doc_meaning.specs.Strings.{words_seen, positions};

use doc_model::{Text, Texts};
use doc_tokens::{folded_words, plain_words};
use sqlite_items::Items;
use std::alloc::{AllocError, Global};

/// The words of a text as they are compared: case folded where case is alike, or as written.
pub fn words_seen(alloc: Global, any_case: bool, text: &str) -> Result<Texts, AllocError>
    ensures { IfOk result (λ ws. ws ≡ words_seen any_case text.now) }
{
    if any_case {
        folded_words(alloc, text)
    } else {
        plain_words(alloc, text)
    }
}

/// The positions at which the wanted words occur one after another; none where no word is wanted.
pub fn positions(alloc: Global, wanted: &[Text], seen: &[Text]) -> Result<Items<u64>, AllocError>
    ensures { IfOk result (λ found. found ≡ positions wanted.now seen.now) }
{
    let mut out = Items::new(alloc);
    if wanted.is_empty() {
        return Ok(out);
    }
    for j in 0..seen.len() {
        if seen[j..].starts_with(wanted) {
            out.push(j as u64)?;
        }
    }
    Ok(out)
}
