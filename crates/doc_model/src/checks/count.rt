ghost use Rattle.std.specs.Prelude.{sum_by};
ghost use Rattle.doc_model.specs.Queries.{query_count};
ghost use Rattle.doc_model.specs.Tree.{Leaves};

use crate::{Queries, Query};

/// What is left of a budget once the queries, texts, names, values and URIs of a query are taken off.
/// `None` says that they are more. It stops as soon as the budget is spent.
#[cycle(count)]
pub fn charge(query: &Query, left: u32) -> Option<u32>
    ensures { Leaves left (query_count query.now) result }
{
    let left = left.checked_sub(1)?;
    match query {
        Query::True | Query::False => Some(left),
        Query::And(queries) => charge_all(queries, left),
        Query::Or(queries) => charge_all(queries, left),
        Query::Near { queries, .. } => charge_all(queries, left),
        Query::Not(query) => charge(query.get(), left),
        Query::AndNot { positive, negative } => {
            let left = charge(positive.get(), left)?;
            charge(negative.get(), left)
        }
        Query::Word { texts, .. } => take_off(left, texts.len()),
        Query::PropWord { names, texts, .. } => take_off(take_off(left, names.len())?, texts.len()),
        Query::PropValue { names, values, .. } => {
            take_off(take_off(left, names.len())?, values.len())
        }
        Query::Range { names, values, .. } => {
            take_off(take_off(left, names.len())?, values.len())
        }
        Query::Collection(uris) => take_off(left, uris.len()),
        Query::Directory { uris, .. } => take_off(left, uris.len()),
        Query::DocUri(uris) => take_off(left, uris.len()),
    }
}

#[cycle(count)]
fn charge_all(queries: &Queries, left: u32) -> Option<u32>
    ensures { Leaves left (sum_by query_count queries.now) result }
{
    let mut rest = left;
    for query in queries.as_slice() {
        rest = charge(query, rest)?;
    }
    Some(rest)
}

fn take_off(left: u32, count: usize) -> Option<u32>
    ensures { Leaves left count result }
{
    if count > left as usize {
        return None;
    }
    Some(left - count as u32)
}
