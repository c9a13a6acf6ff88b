ghost use Rattle.std.specs.Prelude.{◌≡◌, IfOk};
ghost use Rattle.doc_meaning.specs.Answers.{answer_in};

use crate::LiveDocuments;
use doc_filter::Filter;
use doc_model::{Query, Texts};
use std::alloc::{AllocError, Global};

impl LiveDocuments {
    /// The URIs of the documents that satisfy a query, in the order of their bytes. It makes one filter of the query
    /// and asks it of each document.
    pub fn answer(&self, alloc: Global, query: &Query) -> Result<Texts, AllocError>
        ensures { IfOk result (λ uris. uris ≡ answer_in self.now query.now) }
    {
        let filter = Filter::new(alloc, query)?;
        let mut found = Texts::new(alloc);
        for (uri, version) in self.versions.iter() {
            if filter.matches(alloc, &version.document)? {
                found.push(uri.copy(alloc)?)?;
            }
        }
        Ok(found)
    }
}
