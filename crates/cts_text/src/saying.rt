//! The query that a tree without faults says. A tree with faults makes some query.

ghost use Rattle.std.specs.Prelude.{◌≡◌, codes, IfOk, Some};
ghost use Rattle.cts_meaning.specs.Saying.{value_of};
ghost use Rattle.cts_text.specs.Saids.{AreSaid, AreSaidAt, IsSaid, IsSaidAs, IsSaidAt, IsSaidBy};
ghost use Rattle.doc_model.specs.declared.node.Node.TheVariants as node;

use crate::forms::{
    and_not, and_or, directory, form_named, near, not_query, prop_value, prop_word, range, uris,
    word,
};
use cts_meaning::QueryForm;
use doc_model::{Members, Node, Nodes, Queries, Query};
use std::alloc::{AllocError, Global};

/// The query that a tree says. It goes as deep as the tree.
#[cycle(saying)]
pub(crate) fn query_of(alloc: Global, node: &Node) -> Result<Query, AllocError>
    ensures { IfOk result (λ q. IsSaid node.now q) }
{
    match node {
        Node::Members(members) => query_in(alloc, members),
        _ => Ok(Query::False),
    }
}

// The query of an object of one member.
#[cycle(saying)]
fn query_in(alloc: Global, members: &Members) -> Result<Query, AllocError>
    ensures { IfOk result (λ q. IsSaid (node.Members members.now) q) }
{
    let [member] = members.as_slice() else {
        return Ok(Query::False);
    };
    match form_named(member.0.as_str()) {
        Some(form) => query_by(alloc, form, &member.1),
        None => Ok(Query::False),
    }
}

#[cycle(saying)]
fn query_by(alloc: Global, form: QueryForm, argument: &Node) -> Result<Query, AllocError>
    ensures { IfOk result (λ q. IsSaidBy form argument.now q) }
{
    match argument {
        Node::Members(members) => query_as(alloc, form, members),
        _ => Ok(Query::False),
    }
}

#[cycle(saying)]
fn query_as(alloc: Global, form: QueryForm, members: &Members) -> Result<Query, AllocError>
    ensures { IfOk result (λ q. IsSaidAs form members.now q) }
{
    match form {
        QueryForm::True => Ok(Query::True),
        QueryForm::False => Ok(Query::False),
        QueryForm::And => and_or::and(alloc, members),
        QueryForm::Or => and_or::or(alloc, members),
        QueryForm::Not => not_query::query(alloc, members),
        QueryForm::AndNot => and_not::query(alloc, members),
        QueryForm::Word => word::query(alloc, members),
        QueryForm::PropWord => prop_word::query(alloc, members),
        QueryForm::PropValue => prop_value::query(alloc, members),
        QueryForm::Range => range::query(alloc, members),
        QueryForm::Near => near::query(alloc, members),
        QueryForm::Collection => uris::collection(alloc, members),
        QueryForm::DocUri => uris::document(alloc, members),
        QueryForm::Directory => directory::query(alloc, members),
    }
}

/// The query of the member of this name.
#[cycle(saying)]
pub(crate) fn child(alloc: Global, members: &Members, name: &str) -> Result<Query, AllocError>
    ensures { IfOk result (λ q. IsSaidAt (value_of name.now members.now) q) }
{
    for member in members.as_slice() {
        if member.0.as_str() == name {
            return query_of(alloc, &member.1);
        }
    }
    Ok(Query::False)
}

/// The queries of the member `queries`.
#[cycle(saying)]
pub(crate) fn queries_in(alloc: Global, members: &Members) -> Result<Queries, AllocError>
    ensures { IfOk result (λ queries. AreSaidAt (value_of (codes "queries") members.now) queries) }
{
    for member in members.as_slice() {
        if member.0.as_str() == "queries" {
            return queries_of(alloc, &member.1);
        }
    }
    Ok(Queries::new(alloc))
}

#[cycle(saying)]
fn queries_of(alloc: Global, node: &Node) -> Result<Queries, AllocError>
    ensures { IfOk result (λ queries. AreSaidAt (Some node.now) queries) }
{
    match node {
        Node::Items(items) => each_query(alloc, items),
        _ => Ok(Queries::new(alloc)),
    }
}

#[cycle(saying)]
fn each_query(alloc: Global, items: &Nodes) -> Result<Queries, AllocError>
    ensures { IfOk result (λ queries. AreSaid items.now queries) }
{
    let mut queries = Queries::new(alloc);
    for item in items.as_slice() {
        queries.push(query_of(alloc, item)?)?;
    }
    Ok(queries)
}
