ghost use Rattle.std.specs.Prelude.{◌≡◌, IfOk};
ghost use Rattle.doc_meaning.specs.Strings.{words_seen};
ghost use Rattle.doc_meaning.specs.Words.{plain, folded};

use crate::{fold, words};
use doc_model::{Text, Texts};
use std::alloc::{AllocError, Global};

/// The words of a text as they are written, in order.
#[tactic(auto, unfolding(doc_meaning::specs::Words::plain))]
pub fn plain_words(alloc: Global, text: &str) -> Result<Texts, AllocError>
    ensures { IfOk result (λ ws. ws ≡ plain text.now) }
{
    let spans = words(alloc, text)?;
    let mut out = Texts::new(alloc);
    for span in &spans {
        out.push(Text::from_str(alloc, &text[span.0..span.1])?)?;
    }
    Ok(out)
}

/// The words of a text case folded, in order.
pub fn folded_words(alloc: Global, text: &str) -> Result<Texts, AllocError>
    ensures { IfOk result (λ ws. ws ≡ folded text.now) }
{
    let spans = words(alloc, text)?;
    let mut out = Texts::new(alloc);
    for span in &spans {
        out.push(fold(alloc, &text[span.0..span.1])?)?;
    }
    Ok(out)
}

/// The words of a text in the form in which they are compared: case folded where case is alike, else as they are
/// written.
pub fn words_seen(alloc: Global, any_case: bool, text: &str) -> Result<Texts, AllocError>
    ensures { IfOk result (λ ws. ws ≡ words_seen any_case text.now) }
{
    if any_case {
        folded_words(alloc, text)
    } else {
        plain_words(alloc, text)
    }
}
