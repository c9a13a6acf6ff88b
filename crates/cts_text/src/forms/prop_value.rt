//! jsonPropertyValueQuery.

ghost use Rattle.std.specs.Prelude.{◌≡◌, ◌++◌, ◌∷◌, codes, IfOk};
ghost use Rattle.std.specs.List.{list_all};
ghost use Rattle.cts_meaning.specs.Canonical.{case_options, option_if, options_member, query_object, scalars_node};
ghost use Rattle.cts_meaning.specs.Canonical.{texts_node};
ghost use Rattle.cts_meaning.specs.Shapes.{field_shape, fields_of, is_given};
ghost use Rattle.cts_meaning.specs.declared.form.QueryForm.TheVariants as form;
ghost use Rattle.cts_text.specs.Saids.{IsSaidAs};

use crate::objects::{
    case_options, member, query_object, scalars_node, texts_node, with, with_option_if,
    with_options,
};
use crate::values::{case_in, has_member, has_option, scalars_in, texts_in};
use cts_meaning::{OptionKind, QueryForm, Shape};
use doc_model::{Case, Members, Node, Query, Scalars, Texts};
use std::alloc::{AllocError, Global};

pub(super) fn field_shape(name: &str) -> Option<Shape>
    ensures { result ≡ field_shape (fields_of form.PropValue) name.now }
{
    match name {
        "property" => Some(Shape::Texts),
        "value" => Some(Shape::Scalars),
        "options" => Some(Shape::Options(OptionKind::Value)),
        _ => None,
    }
}

pub(super) fn is_complete(members: &Members) -> bool
    ensures { result ≡ list_all (is_given members.now) (fields_of form.PropValue) }
{
    has_member(members, "property") && has_member(members, "value")
}

pub(crate) fn query(alloc: Global, members: &Members) -> Result<Query, AllocError>
    ensures { IfOk result (λ q. IsSaidAs form.PropValue members.now q) }
{
    let names = texts_in(alloc, members, "property")?;
    let values = scalars_in(alloc, members, "value")?;
    let case = case_in(members);
    let exact = has_option(members, "exact");
    Ok(Query::PropValue {
        names,
        values,
        case,
        exact,
    })
}

pub(crate) fn node(
    alloc: Global,
    names: &Texts,
    values: &Scalars,
    case: Case,
    exact: bool,
) -> Result<Node, AllocError>
    ensures { IfOk result (λ n. n ≡ query_object form.PropValue ((codes "property", texts_node names.now)
        ∷ (codes "value", scalars_node values.now)
        ∷ options_member (case_options case ++ option_if exact (codes "exact")))) }
{
    let named = member(alloc, "property", texts_node(alloc, names)?)?;
    let valued = with(alloc, named, "value", scalars_node(alloc, values)?)?;
    let options = with_option_if(alloc, case_options(alloc, case)?, exact, "exact")?;
    let all = with_options(alloc, valued, &options)?;
    query_object(alloc, QueryForm::PropValue, all)
}
