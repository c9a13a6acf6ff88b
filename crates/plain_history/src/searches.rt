ghost use Rattle.std.specs.Prelude.{◌≡◌, IfOk};
ghost use Rattle.doc_model.specs.Queries.{broken_query_rule};

use crate::History;
use doc_meaning::ReadReply;
use doc_model::{Query, QueryBad, Texts, check_query};
use std::alloc::{AllocError, Global};

impl History {
    ghost use Rattle.doc_meaning.specs.Replies.{search_reply, estimate_reply};
    ghost use Rattle.plain_history.specs.Histories.{history_of};

    /// The URIs of the documents at a timestamp that satisfy a query, or why they aren't told.
    pub fn search_reply(
        &self,
        alloc: Global,
        at: u64,
        query: &Query,
    ) -> Result<ReadReply<Texts>, AllocError>
        ensures { IfOk result (λ reply. reply ≡ search_reply (history_of self.now) at query.now) }
    {
        if let Some(why) = self.broken_rule(alloc, query)? {
            return Ok(ReadReply::Bad(why));
        }
        let found = self.database_at(alloc, at)?.answer(alloc, query)?;
        Ok(self.reply_at(at, found))
    }

    /// How many documents at a timestamp may satisfy a query, or why that isn't told.
    pub fn estimate_reply(
        &self,
        alloc: Global,
        at: u64,
        query: &Query,
    ) -> Result<ReadReply<u64>, AllocError>
        ensures { IfOk result (λ reply. reply ≡ estimate_reply (history_of self.now) at query.now) }
    {
        if let Some(why) = self.broken_rule(alloc, query)? {
            return Ok(ReadReply::Bad(why));
        }
        let found = self.database_at(alloc, at)?.estimate(alloc, query)?;
        Ok(self.reply_at(at, found))
    }

    /// The first rule that a query breaks.
    fn broken_rule(&self, alloc: Global, query: &Query) -> Result<Option<QueryBad>, AllocError>
        ensures { IfOk result (λ why. why ≡ broken_query_rule query.now self.now.settings.indexes) }
    {
        match check_query(alloc, query, &self.settings.indexes) {
            Ok(()) => Ok(None),
            Err(QueryBad::Memory) => Err(AllocError),
            Err(why) => Ok(Some(why)),
        }
    }
}
