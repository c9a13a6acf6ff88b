ghost use Rattle.std.specs.Prelude.{◌≡◌};
ghost use Rattle.std.specs.List.{list_all};
ghost use Rattle.doc_model.specs.Queries.{fits, near_children_fit};

use crate::{Queries, Query};

/// Whether the children of each near in a query may be there.
pub fn near_children_fit(query: &Query) -> bool
    ensures { result ≡ near_children_fit query.now }
{
    fits(query, false)
}

/// Whether a query may be where it is: among the children of near, or elsewhere.
#[cycle(near)]
fn fits(query: &Query, in_near: bool) -> bool
    ensures { result ≡ fits query.now in_near }
{
    match query {
        Query::Word { .. } | Query::PropWord { .. } => true,
        Query::Or(queries) => all_fit(queries, in_near),
        Query::Near { queries, .. } => !in_near && all_fit(queries, true),
        Query::And(queries) => !in_near && all_fit(queries, false),
        Query::Not(query) => !in_near && fits(query.get(), false),
        Query::AndNot { positive, negative } => {
            !in_near && fits(positive.get(), false) && fits(negative.get(), false)
        }
        Query::True
        | Query::False
        | Query::PropValue { .. }
        | Query::Range { .. }
        | Query::Collection(_)
        | Query::Directory { .. }
        | Query::DocUri(_) => !in_near,
    }
}

#[cycle(near)]
fn all_fit(queries: &Queries, in_near: bool) -> bool
    ensures { result ≡ list_all (λ q. fits q in_near) queries.now }
{
    for query in queries.as_slice() {
        if !fits(query, in_near) {
            return false;
        }
    }
    true
}
