ghost use Rattle.std.specs.Prelude.{◌≡◌, [], IfOk, OnOk};
ghost use Rattle.doc_filter.specs.Scalars.{AreValues, are_among, equals_some_text, with_phrase, with_value};
ghost use Rattle.doc_meaning.specs.Strings.{words_seen};

use crate::comparing::text_equals_some;
use crate::phrase::Phrase;
use doc_model::{Case, Scalar, Scalars, Text, Texts};
use doc_tokens::words_seen;
use sqlite_items::Items;
use std::alloc::{AllocError, Global};

/// The values of a query, each in the form in which it is compared.
#[derive(Debug, Drop)]
pub struct Values {
    /// Those that are compared by type and value, texts as strings.
    pub scalars: Scalars,
    /// The words of the texts whose words are compared as they are written.
    pub plain: Items<Texts>,
    /// The words, case folded, of the texts to which upper and lower case are alike.
    pub folded: Items<Texts>,
}

impl Values {
    /// Makes values ready to be compared. Texts are compared word by word unless `exact`.
    pub fn new(
        alloc: Global,
        values: &[Scalar],
        case: Case,
        exact: bool,
    ) -> Result<Values, AllocError>
        ensures { IfOk result (λ made. AreValues made case exact values.now) }
    {
        let mut made = Values::none(alloc);
        for value in values {
            made.add(alloc, value, case, exact)?;
        }
        Ok(made)
    }

    fn none(alloc: Global) -> Values
        ensures { result ≡ record { scalars = []; plain = []; folded = [] } }
    {
        Values {
            scalars: Items::new(alloc),
            plain: Items::new(alloc),
            folded: Items::new(alloc),
        }
    }

    /// Adds a value in the form in which it is compared.
    fn add(
        &mut self,
        alloc: Global,
        value: &Scalar,
        case: Case,
        exact: bool,
    ) -> Result<(), AllocError>
        ensures { OnOk result (self.new ≡ with_value case exact self.old value.now) }
    {
        if exact {
            return self.scalars.push(value.copy(alloc)?);
        }
        match value {
            Scalar::Text(text) => self.add_phrase(Phrase::new(alloc, text.as_str(), case)?),
            _ => self.scalars.push(value.copy(alloc)?),
        }
    }

    fn add_phrase(&mut self, phrase: Phrase) -> Result<(), AllocError>
        ensures { OnOk result (self.new ≡ with_phrase self.old phrase) }
    {
        if phrase.any_case {
            self.folded.push(phrase.words)
        } else {
            self.plain.push(phrase.words)
        }
    }

    /// Whether a text of a document equals some value. Its words are cut once in each form that a value has.
    pub fn equal_text(&self, alloc: Global, found: &Text) -> Result<bool, AllocError>
        ensures { IfOk result (λ b. b ≡ equals_some_text self.now found.now) }
    {
        if text_equals_some(found, self.scalars.as_slice()) {
            return Ok(true);
        }
        if has_words(alloc, false, found.as_str(), self.plain.as_slice())? {
            return Ok(true);
        }
        has_words(alloc, true, found.as_str(), self.folded.as_slice())
    }
}

/// Whether a text has the words of some list, and no others.
fn has_words(
    alloc: Global,
    any_case: bool,
    text: &str,
    wanted: &[Texts],
) -> Result<bool, AllocError>
    ensures { IfOk result (λ b. b ≡ are_among wanted.now (words_seen any_case text.now)) }
{
    if wanted.is_empty() {
        return Ok(false);
    }
    let seen = words_seen(alloc, any_case, text)?;
    Ok(are_among(wanted, seen.as_slice()))
}

fn are_among(wanted: &[Texts], seen: &[Text]) -> bool
    ensures { result ≡ are_among wanted.now seen.now }
{
    wanted.iter().any(|words| seen == words.as_slice())
}
