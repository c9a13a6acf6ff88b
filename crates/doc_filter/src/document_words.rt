ghost use Rattle.std.specs.Prelude.{◌≡◌, ◌<◌, ◌^◌, [], IfSome, OnOk, Some, not, true, unwrap_or};
ghost use Rattle.doc_filter.specs.Found.{AreFound, AreOf, found_words};
ghost use Rattle.doc_filter.specs.Tokenized.{tokenized_strings};
ghost use Rattle.doc_model.specs.Tree.{size};
ghost use Rattle.doc_model.specs.declared.node.Node.{Node};

use crate::tokenized_string::TokenizedString;
use crate::tokenized_strings::tokenized_strings;
use doc_model::{Document, Node};
use sqlite_items::Items;
use std::alloc::{AllocError, Global};

/// The text values of a document by their words, found when they are first asked for.
#[derive(Debug, Drop)]
pub struct DocumentWords {
    /// By the words as they are written.
    pub plain: Option<Items<TokenizedString>>,
    /// By the case folded words.
    pub folded: Option<Items<TokenizedString>>,
    /// Whether a text was sought before.
    pub sought: bool,
}

impl DocumentWords {
    /// Nothing is found yet.
    pub fn new() -> DocumentWords
        ensures { (root : Node) → AreOf result root }
    {
        DocumentWords {
            plain: None,
            folded: None,
            sought: false,
        }
    }

    /// Whether no text was sought before. From now on one was.
    pub fn begins(&mut self) -> bool
        ensures answer { result ≡ not self.old.sought }
        ensures sought { self.new.sought ≡ true }
        ensures kept { (root : Node) → AreOf self.old root → AreOf self.new root }
    {
        let first = !self.sought;
        self.sought = true;
        first
    }

    /// Finds the words in one of the two forms, unless that is done already.
    #[tactic(auto, using(crate::proofs::FoundLemmas::are_numbered, doc_meaning::proofs::FitLemmas::document_fits))]
    pub fn find(
        &mut self,
        alloc: Global,
        any_case: bool,
        document: &Document,
    ) -> Result<(), AllocError>
        requires { AreOf self.old document.now.root }
        ensures { OnOk result (AreFound any_case self.new document.now.root) }
    {
        let root = document.root();
        if any_case {
            find_once(alloc, true, root, &mut self.folded)
        } else {
            find_once(alloc, false, root, &mut self.plain)
        }
    }

    /// The text values by the words in this form, none before they are found.
    pub fn get(&self, any_case: bool) -> &[TokenizedString]
        ensures { result.now ≡ unwrap_or (found_words any_case self.now) [] }
    {
        let found = if any_case { &self.folded } else { &self.plain };
        match found {
            Some(strings) => strings.as_slice(),
            None => &[],
        }
    }
}

fn find_once(
    alloc: Global,
    any_case: bool,
    root: &Node,
    found: &mut Option<Items<TokenizedString>>,
) -> Result<(), AllocError>
    requires fits { size root.now < 2 ^ 64 }
    requires right { IfSome found.old (λ strings. strings ≡ tokenized_strings any_case root.now) }
    ensures { OnOk result (found.new ≡ Some (tokenized_strings any_case root.now)) }
{
    if found.is_none() {
        *found = Some(tokenized_strings(alloc, any_case, root)?);
    }
    Ok(())
}
