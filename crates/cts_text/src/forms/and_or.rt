//! andQuery and orQuery, whose text differs in the name alone.

ghost use Rattle.std.specs.Prelude.{◌≡◌, ◌∷◌, [], codes, IfOk};
ghost use Rattle.std.specs.List.{list_all};
ghost use Rattle.cts_meaning.specs.Canonical.{query_object};
ghost use Rattle.cts_meaning.specs.Shapes.{field_shape, fields_of, is_given};
ghost use Rattle.cts_meaning.specs.declared.form.QueryForm.TheVariants as form;
ghost use Rattle.cts_text.specs.Saids.{IsSaidAs};
ghost use Rattle.doc_model.specs.declared.node.Node.TheVariants as node;

use crate::objects::{member, query_object};
use crate::saying::queries_in;
use crate::values::has_member;
use cts_meaning::{QueryForm, Shape};
use doc_model::{Members, Node, Nodes, Query};
use std::alloc::{AllocError, Global};

pub(super) fn field_shape(name: &str) -> Option<Shape>
    ensures { result ≡ field_shape (fields_of form.And) name.now }
{
    match name {
        "queries" => Some(Shape::Queries),
        _ => None,
    }
}

pub(super) fn is_complete(members: &Members) -> bool
    ensures { result ≡ list_all (is_given members.now) (fields_of form.And) }
{
    has_member(members, "queries")
}

/// The query that an andQuery says.
#[cycle(saying)]
pub(crate) fn and(alloc: Global, members: &Members) -> Result<Query, AllocError>
    ensures { IfOk result (λ q. IsSaidAs form.And members.now q) }
{
    Ok(Query::And(queries_in(alloc, members)?))
}

/// The query that an orQuery says.
#[cycle(saying)]
pub(crate) fn or(alloc: Global, members: &Members) -> Result<Query, AllocError>
    ensures { IfOk result (λ q. IsSaidAs form.Or members.now q) }
{
    Ok(Query::Or(queries_in(alloc, members)?))
}

/// A query of this form, with the trees of the queries in it.
pub(crate) fn node(alloc: Global, form: QueryForm, queries: Nodes) -> Result<Node, AllocError>
    ensures { IfOk result (λ n. n ≡ query_object form ((codes "queries", node.Items queries) ∷ [])) }
{
    let members = member(alloc, "queries", Node::Items(queries))?;
    query_object(alloc, form, members)
}
