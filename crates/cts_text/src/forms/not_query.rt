//! notQuery.

ghost use Rattle.std.specs.Prelude.{◌≡◌, ◌∷◌, [], codes, IfOk};
ghost use Rattle.std.specs.List.{list_all};
ghost use Rattle.cts_meaning.specs.Canonical.{query_object};
ghost use Rattle.cts_meaning.specs.Shapes.{field_shape, fields_of, is_given};
ghost use Rattle.cts_meaning.specs.declared.form.QueryForm.TheVariants as form;
ghost use Rattle.cts_text.specs.Saids.{IsSaidAs};

use crate::objects::{member, query_object};
use crate::saying::child;
use crate::values::has_member;
use cts_meaning::{QueryForm, Shape};
use doc_model::{Members, Node, Query};
use sqlite_items::Boxed;
use std::alloc::{AllocError, Global};

pub(super) fn field_shape(name: &str) -> Option<Shape>
    ensures { result ≡ field_shape (fields_of form.Not) name.now }
{
    match name {
        "query" => Some(Shape::Query),
        _ => None,
    }
}

pub(super) fn is_complete(members: &Members) -> bool
    ensures { result ≡ list_all (is_given members.now) (fields_of form.Not) }
{
    has_member(members, "query")
}

#[cycle(saying)]
pub(crate) fn query(alloc: Global, members: &Members) -> Result<Query, AllocError>
    ensures { IfOk result (λ q. IsSaidAs form.Not members.now q) }
{
    let query = child(alloc, members, "query")?;
    Ok(Query::Not(Boxed::new(alloc, query)?))
}

pub(crate) fn node(alloc: Global, query: Node) -> Result<Node, AllocError>
    ensures { IfOk result (λ n. n ≡ query_object form.Not ((codes "query", query) ∷ [])) }
{
    let members = member(alloc, "query", query)?;
    query_object(alloc, QueryForm::Not, members)
}
