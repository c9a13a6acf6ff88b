//! collectionQuery and documentQuery, whose text differs in the name alone.

ghost use Rattle.std.specs.Prelude.{◌≡◌, ◌∷◌, [], codes, IfOk};
ghost use Rattle.std.specs.List.{list_all};
ghost use Rattle.cts_meaning.specs.Canonical.{query_object, texts_node};
ghost use Rattle.cts_meaning.specs.Shapes.{field_shape, fields_of, is_given};
ghost use Rattle.cts_meaning.specs.declared.form.QueryForm.TheVariants as form;
ghost use Rattle.cts_text.specs.Saids.{IsSaidAs};

use crate::objects::{member, query_object, texts_node};
use crate::values::{has_member, texts_in};
use cts_meaning::{QueryForm, Shape};
use doc_model::{Members, Node, Query, Texts};
use std::alloc::{AllocError, Global};

pub(super) fn field_shape(name: &str) -> Option<Shape>
    ensures { result ≡ field_shape (fields_of form.Collection) name.now }
{
    match name {
        "uris" => Some(Shape::Texts),
        _ => None,
    }
}

pub(super) fn is_complete(members: &Members) -> bool
    ensures { result ≡ list_all (is_given members.now) (fields_of form.Collection) }
{
    has_member(members, "uris")
}

pub(crate) fn collection(alloc: Global, members: &Members) -> Result<Query, AllocError>
    ensures { IfOk result (λ q. IsSaidAs form.Collection members.now q) }
{
    Ok(Query::Collection(texts_in(alloc, members, "uris")?))
}

pub(crate) fn document(alloc: Global, members: &Members) -> Result<Query, AllocError>
    ensures { IfOk result (λ q. IsSaidAs form.DocUri members.now q) }
{
    Ok(Query::DocUri(texts_in(alloc, members, "uris")?))
}

/// A query of this form, with these URIs.
pub(crate) fn node(alloc: Global, form: QueryForm, uris: &Texts) -> Result<Node, AllocError>
    ensures { IfOk result (λ n. n ≡ query_object form ((codes "uris", texts_node uris.now) ∷ [])) }
{
    let members = member(alloc, "uris", texts_node(alloc, uris)?)?;
    query_object(alloc, form, members)
}
