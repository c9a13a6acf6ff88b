//! jsonPropertyRangeQuery.

ghost use Rattle.std.specs.Prelude.{◌≡◌, ◌∷◌, [], codes, IfOk};
ghost use Rattle.std.specs.List.{list_all};
ghost use Rattle.cts_meaning.specs.Canonical.{query_object, scalars_node, texts_node};
ghost use Rattle.cts_meaning.specs.Shapes.{compare_text, field_shape, fields_of, is_given};
ghost use Rattle.cts_meaning.specs.declared.form.QueryForm.TheVariants as form;
ghost use Rattle.cts_text.specs.Saids.{IsSaidAs};
ghost use Rattle.doc_model.specs.declared.node.Node.TheVariants as node;

use crate::compare::compare_text;
use crate::objects::{member, query_object, scalars_node, text_node, texts_node, with};
use crate::values::{compare_in, has_member, scalars_in, texts_in};
use cts_meaning::{QueryForm, Shape};
use doc_model::{Compare, Members, Node, Query, Scalars, Texts};
use std::alloc::{AllocError, Global};

pub(super) fn field_shape(name: &str) -> Option<Shape>
    ensures { result ≡ field_shape (fields_of form.Range) name.now }
{
    match name {
        "property" => Some(Shape::Texts),
        "operator" => Some(Shape::Compare),
        "value" => Some(Shape::Comparables),
        _ => None,
    }
}

pub(super) fn is_complete(members: &Members) -> bool
    ensures { result ≡ list_all (is_given members.now) (fields_of form.Range) }
{
    has_member(members, "property")
        && has_member(members, "operator")
        && has_member(members, "value")
}

pub(crate) fn query(alloc: Global, members: &Members) -> Result<Query, AllocError>
    ensures { IfOk result (λ q. IsSaidAs form.Range members.now q) }
{
    let names = texts_in(alloc, members, "property")?;
    let op = compare_in(members);
    let values = scalars_in(alloc, members, "value")?;
    Ok(Query::Range { names, op, values })
}

pub(crate) fn node(
    alloc: Global,
    names: &Texts,
    op: Compare,
    values: &Scalars,
) -> Result<Node, AllocError>
    ensures { IfOk result (λ n. n ≡ query_object form.Range ((codes "property", texts_node names.now)
        ∷ (codes "operator", node.Text (compare_text op)) ∷ (codes "value", scalars_node values.now) ∷ [])) }
{
    let named = member(alloc, "property", texts_node(alloc, names)?)?;
    let compared = with(
        alloc,
        named,
        "operator",
        text_node(alloc, compare_text(op))?,
    )?;
    let all = with(alloc, compared, "value", scalars_node(alloc, values)?)?;
    query_object(alloc, QueryForm::Range, all)
}
