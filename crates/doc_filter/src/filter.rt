ghost use Rattle.std.specs.Prelude.{◌≡◌, IfOk};
ghost use Rattle.doc_filter.specs.Filters.{FiltersBy, lets_through};

use crate::condition::Condition;
use crate::document_words::DocumentWords;
use crate::holding::holds;
use crate::preparing::prepare;
use doc_model::{Document, Query};
use std::alloc::{AllocError, Global};

/// A query made ready to be asked of many documents: its texts are cut into words and folded once.
#[derive(Debug, Drop)]
pub struct Filter {
    condition: Condition,
}

impl Filter {
    /// Makes a query ready, in time and memory of its size. It goes as deep as the query.
    pub fn new(alloc: Global, query: &Query) -> Result<Filter, AllocError>
        ensures { IfOk result (λ filter. FiltersBy filter query.now) }
    {
        let condition = prepare(alloc, query)?;
        Ok(Filter { condition })
    }

    /// Whether a document satisfies the query.
    ///
    /// The children of and, or and and-not are asked in their order up to the one that decides. The first text is
    /// sought in the tree itself, up to where it occurs. For each further text, and for near, the words of the
    /// document are found, once as they are written and once case folded, each form only if a text asks for it.
    /// Values and ranges go once through the tree, whatever their number.
    pub fn matches(&self, alloc: Global, document: &Document) -> Result<bool, AllocError>
        ensures { IfOk result (λ b. b ≡ lets_through self.now document.now) }
    {
        let mut words = DocumentWords::new();
        holds(alloc, &self.condition, document, &mut words)
    }
}
