//! andNotQuery.

ghost use Rattle.std.specs.Prelude.{◌≡◌, ◌∷◌, [], codes, IfOk};
ghost use Rattle.std.specs.List.{list_all};
ghost use Rattle.cts_meaning.specs.Canonical.{query_object};
ghost use Rattle.cts_meaning.specs.Shapes.{field_shape, fields_of, is_given};
ghost use Rattle.cts_meaning.specs.declared.form.QueryForm.TheVariants as form;
ghost use Rattle.cts_text.specs.Saids.{IsSaidAs};

use crate::objects::{member, query_object, with};
use crate::saying::child;
use crate::values::has_member;
use cts_meaning::{QueryForm, Shape};
use doc_model::{Members, Node, Query};
use sqlite_items::Boxed;
use std::alloc::{AllocError, Global};

pub(super) fn field_shape(name: &str) -> Option<Shape>
    ensures { result ≡ field_shape (fields_of form.AndNot) name.now }
{
    match name {
        "positiveQuery" => Some(Shape::Query),
        "negativeQuery" => Some(Shape::Query),
        _ => None,
    }
}

pub(super) fn is_complete(members: &Members) -> bool
    ensures { result ≡ list_all (is_given members.now) (fields_of form.AndNot) }
{
    has_member(members, "positiveQuery") && has_member(members, "negativeQuery")
}

#[cycle(saying)]
pub(crate) fn query(alloc: Global, members: &Members) -> Result<Query, AllocError>
    ensures { IfOk result (λ q. IsSaidAs form.AndNot members.now q) }
{
    let positive = child(alloc, members, "positiveQuery")?;
    let negative = child(alloc, members, "negativeQuery")?;
    Ok(Query::AndNot {
        positive: Boxed::new(alloc, positive)?,
        negative: Boxed::new(alloc, negative)?,
    })
}

pub(crate) fn node(alloc: Global, positive: Node, negative: Node) -> Result<Node, AllocError>
    ensures { IfOk result (λ n. n ≡ query_object form.AndNot
        ((codes "positiveQuery", positive) ∷ (codes "negativeQuery", negative) ∷ [])) }
{
    let first = member(alloc, "positiveQuery", positive)?;
    let both = with(alloc, first, "negativeQuery", negative)?;
    query_object(alloc, QueryForm::AndNot, both)
}
