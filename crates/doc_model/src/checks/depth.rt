ghost use Rattle.std.specs.Prelude.{◌↔◌, ◌≤◌, IsTrue, map};
ghost use Rattle.doc_model.specs.Queries.{query_depth};
ghost use Rattle.doc_model.specs.Tree.{greatest};

use crate::{Queries, Query};

/// Whether at most so many queries lie within each other. It looks no deeper.
#[cycle(query_within)]
pub fn is_within(query: &Query, limit: u32) -> bool
    ensures { IsTrue result ↔ (query_depth query.now ≤ limit) }
{
    if limit == 0 {
        return false;
    }
    match query {
        Query::And(queries) => all_within(queries, limit - 1),
        Query::Or(queries) => all_within(queries, limit - 1),
        Query::Near { queries, .. } => all_within(queries, limit - 1),
        Query::Not(query) => is_within(query.get(), limit - 1),
        Query::AndNot { positive, negative } => {
            is_within(positive.get(), limit - 1) && is_within(negative.get(), limit - 1)
        }
        _ => true,
    }
}

#[cycle(query_within)]
fn all_within(queries: &Queries, limit: u32) -> bool
    ensures { IsTrue result ↔ (greatest (map query_depth queries.now) ≤ limit) }
{
    for query in queries.as_slice() {
        if !is_within(query, limit) {
            return false;
        }
    }
    true
}
