ghost use Rattle.std.specs.Prelude.{◌≡◌, ◌∷◌, [], IfOk, map, flat_map};
ghost use Rattle.std.specs.Option.{option_map};
ghost use Rattle.doc_model.specs.Kinds.{listed};
ghost use Rattle.doc_model.specs.Queries.{missing_index, first_missing, range_indexes, wanted_indexes};

use crate::checks::kinds::{Kinds, kinds_among, other_kind};
use crate::{Indexes, Kind, Queries, Query, Scalars, Text, Texts};
use std::alloc::{AllocError, Global};

/// The first index that a query wants and that isn't there, as a property's name and a kind.
#[cycle(ranges)]
pub fn missing_index(
    alloc: Global,
    query: &Query,
    indexes: &Indexes,
) -> Result<Option<(Text, Kind)>, AllocError>
    ensures { IfOk result (λ missing. missing ≡ missing_index query.now indexes.now) }
{
    match query {
        Query::Range { names, values, .. } => missing_in_range(alloc, names, values, indexes),
        Query::And(queries) => missing_in_any(alloc, queries, indexes),
        Query::Or(queries) => missing_in_any(alloc, queries, indexes),
        Query::Near { queries, .. } => missing_in_any(alloc, queries, indexes),
        Query::Not(query) => missing_index(alloc, query.get(), indexes),
        Query::AndNot { positive, negative } => {
            match missing_index(alloc, positive.get(), indexes)? {
                Some(missing) => Ok(Some(missing)),
                None => missing_index(alloc, negative.get(), indexes),
            }
        }
        _ => Ok(None),
    }
}

#[cycle(ranges)]
fn missing_in_any(
    alloc: Global,
    queries: &Queries,
    indexes: &Indexes,
) -> Result<Option<(Text, Kind)>, AllocError>
    ensures { IfOk result (λ missing. missing ≡ first_missing indexes.now (flat_map wanted_indexes queries.now)) }
{
    for query in queries.as_slice() {
        if let Some(missing) = missing_index(alloc, query, indexes)? {
            return Ok(Some(missing));
        }
    }
    Ok(None)
}

/// It takes the time of the values and, for each name, of two looks at the indexes.
fn missing_in_range(
    alloc: Global,
    names: &Texts,
    values: &Scalars,
    indexes: &Indexes,
) -> Result<Option<(Text, Kind)>, AllocError>
    ensures { IfOk result (λ missing. missing ≡ first_missing indexes.now (range_indexes names.now values.now)) }
{
    let kinds = kinds_among(values);
    for name in names.as_slice() {
        if let Some(kind) = missing_of_name(name, kinds, indexes) {
            return Ok(Some((name.copy(alloc)?, kind)));
        }
    }
    Ok(None)
}

fn missing_of_name(name: &Text, kinds: Kinds, indexes: &Indexes) -> Option<Kind>
    ensures { option_map (λ k. (name.now, k)) result
        ≡ first_missing indexes.now (map (λ k. (name.now, k)) (listed kinds)) }
{
    match kinds {
        Kinds::Neither => None,
        Kinds::One(kind) => missing_kind(name, kind, indexes),
        Kinds::Both(first) => match missing_kind(name, first, indexes) {
            Some(kind) => Some(kind),
            None => missing_kind(name, other_kind(first), indexes),
        },
    }
}

fn missing_kind(name: &Text, kind: Kind, indexes: &Indexes) -> Option<Kind>
    ensures { option_map (λ k. (name.now, k)) result ≡ first_missing indexes.now ((name.now, kind) ∷ []) }
{
    if indexes.has(name.as_str(), kind) {
        None
    } else {
        Some(kind)
    }
}
