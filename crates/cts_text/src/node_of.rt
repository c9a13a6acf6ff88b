//! The canonical tree of a query.

ghost use Rattle.std.specs.Prelude.{◌≡◌, map, IfOk, IsTrue, OnOk};
ghost use Rattle.std.specs.List.{list_all};
ghost use Rattle.cts_meaning.specs.Canonical.{has_distances, query_node};

use crate::forms::{
    and_not, and_or, bare, directory, near, not_query, prop_value, prop_word, range, uris, word,
};
use cts_meaning::QueryForm;
use doc_model::{Node, Nodes, Queries, Query};
use std::alloc::{AllocError, Global};

/// It goes as deep as the query.
#[cycle(node_of)]
pub(crate) fn node_of(alloc: Global, query: &Query) -> Result<Node, AllocError>
    ensures node { IfOk result (λ n. n ≡ query_node query.now) }
    ensures distances { OnOk result (IsTrue (has_distances query.now)) }
{
    match query {
        Query::True => bare::node(alloc, QueryForm::True),
        Query::False => bare::node(alloc, QueryForm::False),
        Query::And(queries) => and_or::node(alloc, QueryForm::And, each_node(alloc, queries)?),
        Query::Or(queries) => and_or::node(alloc, QueryForm::Or, each_node(alloc, queries)?),
        Query::Not(query) => not_query::node(alloc, node_of(alloc, query.get())?),
        Query::AndNot { positive, negative } => {
            let positive = node_of(alloc, positive.get())?;
            and_not::node(alloc, positive, node_of(alloc, negative.get())?)
        }
        Query::Word { texts, case } => word::node(alloc, texts, *case),
        Query::PropWord { names, texts, case } => prop_word::node(alloc, names, texts, *case),
        Query::PropValue {
            names,
            values,
            case,
            exact,
        } => prop_value::node(alloc, names, values, *case, *exact),
        Query::Range { names, op, values } => range::node(alloc, names, *op, values),
        Query::Near {
            queries,
            distance,
            ordered,
        } => near::node(alloc, each_node(alloc, queries)?, *distance, *ordered),
        Query::Collection(uris) => uris::node(alloc, QueryForm::Collection, uris),
        Query::Directory { uris, infinite } => directory::node(alloc, uris, *infinite),
        Query::DocUri(uris) => uris::node(alloc, QueryForm::DocUri, uris),
    }
}

#[cycle(node_of)]
fn each_node(alloc: Global, queries: &Queries) -> Result<Nodes, AllocError>
    ensures nodes { IfOk result (λ nodes. nodes ≡ map query_node queries.now) }
    ensures distances { OnOk result (IsTrue (list_all has_distances queries.now)) }
{
    let mut nodes = Nodes::new(alloc);
    for query in queries.as_slice() {
        nodes.push(node_of(alloc, query)?)?;
    }
    Ok(nodes)
}
