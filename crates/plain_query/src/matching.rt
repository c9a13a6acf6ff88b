ghost use Rattle.std.specs.Prelude.{◌≡◌, IfOk};
ghost use Rattle.doc_meaning.specs.Meaning.{satisfies};

use crate::meaning;
use doc_model::{Document, Query};
use std::alloc::{AllocError, Global};

/// Whether a document satisfies a query.
pub fn matches(alloc: Global, query: &Query, document: &Document) -> Result<bool, AllocError>
    ensures { IfOk result (λ b. b ≡ satisfies query.now document.now) }
{
    Ok(meaning(alloc, query, document)?.holds)
}
