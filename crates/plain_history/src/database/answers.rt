ghost use Rattle.std.specs.Prelude.{◌≡◌, IfOk};
ghost use Rattle.doc_meaning.specs.Answers.{answer_in, estimate_in};
ghost use Rattle.plain_history.specs.Candidates.{candidates_in};

use crate::Database;
use doc_model::{Query, Texts};
use plain_query::{bounds, matches};
use std::alloc::{AllocError, Global};

impl Database {
    /// The URIs of the documents that satisfy a query, in the order of their bytes.
    pub fn answer(&self, alloc: Global, query: &Query) -> Result<Texts, AllocError>
        ensures { IfOk result (λ uris. uris ≡ answer_in self.now query.now) }
    {
        let mut found = Texts::new(alloc);
        for (uri, version) in self.live.iter() {
            if matches(alloc, query, &version.document)? {
                found.push(uri.copy(alloc)?)?;
            }
        }
        Ok(found)
    }

    /// The URIs of the documents that pass the wider test of a query.
    fn candidates(&self, alloc: Global, query: &Query) -> Result<Texts, AllocError>
        ensures { IfOk result (λ uris. uris ≡ candidates_in self.now query.now) }
    {
        let mut found = Texts::new(alloc);
        for (uri, version) in self.live.iter() {
            if bounds(alloc, query, &version.document)?.maybe {
                found.push(uri.copy(alloc)?)?;
            }
        }
        Ok(found)
    }

    /// How many documents pass the wider test of a query.
    pub fn estimate(&self, alloc: Global, query: &Query) -> Result<u64, AllocError>
        ensures { IfOk result (λ count. count ≡ estimate_in self.now query.now) }
    {
        Ok(self.candidates(alloc, query)?.len() as u64)
    }
}
