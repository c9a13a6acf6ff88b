ghost use Rattle.std.specs.Prelude.{◌≡◌, ◌++◌, IfOk, OnOk};
ghost use Rattle.std.specs.Option.{option_copied};
ghost use Rattle.doc_filter.specs.Conditions.{starts_of, starts_of_some};
ghost use Rattle.doc_filter.specs.Found.{AreOf};
ghost use Rattle.doc_meaning.specs.Meaning.{is_nonempty};

use crate::document_words::DocumentWords;
use crate::phrase::Phrase;
use crate::phrases::{add_phrase_starts, has_phrase};
use crate::text_walk::some_text_has;
use doc_model::{Document, Text};
use sqlite_items::Items;
use std::alloc::{AllocError, Global};

/// Whether one of the phrases occurs in a string of the named properties, or in any.
pub fn some_phrase_occurs(
    alloc: Global,
    phrases: &[Phrase],
    names: Option<&[Text]>,
    document: &Document,
    words: &mut DocumentWords,
) -> Result<bool, AllocError>
    requires { AreOf words.old document.now.root }
    ensures answer { let starts = starts_of_some document.now.root (option_copied names.entry) phrases.now in
        IfOk result (λ b. b ≡ is_nonempty starts) }
    ensures kept { OnOk result (AreOf words.new document.now.root) }
{
    for phrase in phrases {
        if phrase_occurs(alloc, phrase, names, document, words)? {
            return Ok(true);
        }
    }
    Ok(false)
}

/// Whether one of them does. The first is sought in the tree itself, so that a query of one text finds no words that it
/// doesn't look at. From the second on the words of the document are found, and serve all others.
fn phrase_occurs(
    alloc: Global,
    phrase: &Phrase,
    names: Option<&[Text]>,
    document: &Document,
    words: &mut DocumentWords,
) -> Result<bool, AllocError>
    requires { AreOf words.old document.now.root }
    ensures answer { let starts = starts_of document.now.root (option_copied names.entry) phrase.now in
        IfOk result (λ b. b ≡ is_nonempty starts) }
    ensures kept { OnOk result (AreOf words.new document.now.root) }
{
    let wanted = phrase.words.as_slice();
    if wanted.is_empty() {
        return Ok(false);
    }
    if words.begins() {
        return some_text_has(alloc, document.root(), phrase.any_case, wanted, names);
    }
    words.find(alloc, phrase.any_case, document)?;
    Ok(has_phrase(words.get(phrase.any_case), wanted, names))
}

/// Adds where the phrases start in the strings of the named properties, or in all, as numbers of words.
pub fn add_starts_of_some(
    alloc: Global,
    phrases: &[Phrase],
    names: Option<&[Text]>,
    document: &Document,
    words: &mut DocumentWords,
    out: &mut Items<u64>,
) -> Result<(), AllocError>
    requires { AreOf words.old document.now.root }
    ensures starts { let starts = starts_of_some document.now.root (option_copied names.entry) phrases.now in
        OnOk result (out.new ≡ out.old ++ starts) }
    ensures kept { OnOk result (AreOf words.new document.now.root) }
{
    for phrase in phrases {
        add_starts_of(alloc, phrase, names, document, words, out)?;
    }
    Ok(())
}

fn add_starts_of(
    alloc: Global,
    phrase: &Phrase,
    names: Option<&[Text]>,
    document: &Document,
    words: &mut DocumentWords,
    out: &mut Items<u64>,
) -> Result<(), AllocError>
    requires { AreOf words.old document.now.root }
    ensures starts { let starts = starts_of document.now.root (option_copied names.entry) phrase.now in
        OnOk result (out.new ≡ out.old ++ starts) }
    ensures kept { OnOk result (AreOf words.new document.now.root) }
{
    let wanted = phrase.words.as_slice();
    if wanted.is_empty() {
        return Ok(());
    }
    words.find(alloc, phrase.any_case, document)?;
    add_phrase_starts(words.get(phrase.any_case), wanted, names, out)
}
