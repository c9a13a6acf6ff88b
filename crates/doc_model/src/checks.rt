ghost use Rattle.std.specs.Prelude.{◌≡◌, OnOk, IfErr, None};
ghost use Rattle.doc_model.specs.Queries.{broken_query_rule, RefusesQuery};

mod count;
mod depth;
mod directories;
mod kinds;
mod near;
mod ranges;

use crate::limits::{MAX_QUERY_DEPTH, MAX_QUERY_ITEMS};
use crate::{Indexes, Query, QueryBad};
use count::charge;
use depth::is_within;
use directories::directories_end;
use near::near_children_fit;
use ranges::missing_index;
use std::alloc::Global;

/// Whether a query keeps the rules that `QueryBad` names, with these indexes. It returns the first rule that the query
/// breaks. Null and booleans in a range query need no index.
///
/// It looks no deeper than 32 queries and at no more than 10,000 parts before the last three rules, and takes
/// memory for the name of a missing index alone. The last rule takes the time of the parts, and for each name of
/// a range query that of two looks at the indexes.
pub fn check_query(alloc: Global, query: &Query, indexes: &Indexes) -> Result<(), QueryBad>
    ensures ok { OnOk result (broken_query_rule query.now indexes.now ≡ None) }
    ensures refused { IfErr result (RefusesQuery query.now indexes.now) }
{
    if !is_within(query, MAX_QUERY_DEPTH) {
        return Err(QueryBad::TooDeep {
            limit: MAX_QUERY_DEPTH,
        });
    }
    if charge(query, MAX_QUERY_ITEMS).is_none() {
        return Err(QueryBad::TooMany {
            limit: MAX_QUERY_ITEMS,
        });
    }
    if !directories_end(query) {
        return Err(QueryBad::BadDirectory);
    }
    if !near_children_fit(query) {
        return Err(QueryBad::NearChild);
    }
    match missing_index(alloc, query, indexes) {
        Ok(None) => Ok(()),
        Ok(Some((name, kind))) => Err(QueryBad::NoRange { name, kind }),
        Err(_) => Err(QueryBad::Memory),
    }
}
