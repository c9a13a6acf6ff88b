//! jsonPropertyWordQuery.

ghost use Rattle.std.specs.Prelude.{◌≡◌, ◌∷◌, codes, IfOk};
ghost use Rattle.std.specs.List.{list_all};
ghost use Rattle.cts_meaning.specs.Canonical.{case_options, options_member, query_object, texts_node};
ghost use Rattle.cts_meaning.specs.Shapes.{field_shape, fields_of, is_given};
ghost use Rattle.cts_meaning.specs.declared.form.QueryForm.TheVariants as form;
ghost use Rattle.cts_text.specs.Saids.{IsSaidAs};

use crate::objects::{case_options, member, query_object, texts_node, with, with_options};
use crate::values::{case_in, has_member, texts_in};
use cts_meaning::{OptionKind, QueryForm, Shape};
use doc_model::{Case, Members, Node, Query, Texts};
use std::alloc::{AllocError, Global};

pub(super) fn field_shape(name: &str) -> Option<Shape>
    ensures { result ≡ field_shape (fields_of form.PropWord) name.now }
{
    match name {
        "property" => Some(Shape::Texts),
        "text" => Some(Shape::Texts),
        "options" => Some(Shape::Options(OptionKind::Word)),
        _ => None,
    }
}

pub(super) fn is_complete(members: &Members) -> bool
    ensures { result ≡ list_all (is_given members.now) (fields_of form.PropWord) }
{
    has_member(members, "property") && has_member(members, "text")
}

pub(crate) fn query(alloc: Global, members: &Members) -> Result<Query, AllocError>
    ensures { IfOk result (λ q. IsSaidAs form.PropWord members.now q) }
{
    let names = texts_in(alloc, members, "property")?;
    let texts = texts_in(alloc, members, "text")?;
    let case = case_in(members);
    Ok(Query::PropWord { names, texts, case })
}

pub(crate) fn node(
    alloc: Global,
    names: &Texts,
    texts: &Texts,
    case: Case,
) -> Result<Node, AllocError>
    ensures { IfOk result (λ n. n ≡ query_object form.PropWord ((codes "property", texts_node names.now)
        ∷ (codes "text", texts_node texts.now) ∷ options_member (case_options case))) }
{
    let named = member(alloc, "property", texts_node(alloc, names)?)?;
    let told = with(alloc, named, "text", texts_node(alloc, texts)?)?;
    let all = with_options(alloc, told, &case_options(alloc, case)?)?;
    query_object(alloc, QueryForm::PropWord, all)
}
