ghost use Rattle.std.specs.Prelude.{◌≡◌, IfOk, map};
ghost use Rattle.doc_filter.specs.Phrases.{phrase_of};

use doc_model::{Case, Text, Texts};
use doc_tokens::{ignores_case, words_seen};
use sqlite_items::Items;
use std::alloc::{AllocError, Global};

/// A text of a query by its words.
#[derive(Debug, Drop)]
pub struct Phrase {
    /// Whether upper and lower case are alike to it.
    pub any_case: bool,
    /// Its words in the form in which they are compared.
    pub words: Texts,
}

impl Phrase {
    /// Cuts a text into its words and, where upper and lower case are alike to it, folds them.
    pub fn new(alloc: Global, text: &str, case: Case) -> Result<Phrase, AllocError>
        ensures { IfOk result (λ phrase. phrase ≡ phrase_of case text.now) }
    {
        let any_case = ignores_case(case, text);
        let words = words_seen(alloc, any_case, text)?;
        Ok(Phrase { any_case, words })
    }
}

/// The same for each of some texts.
pub fn phrases_of(alloc: Global, texts: &[Text], case: Case) -> Result<Items<Phrase>, AllocError>
    ensures { IfOk result (λ phrases. phrases ≡ map (phrase_of case) texts.now) }
{
    let mut out = Items::new(alloc);
    for text in texts {
        out.push(Phrase::new(alloc, text.as_str(), case)?)?;
    }
    Ok(out)
}
