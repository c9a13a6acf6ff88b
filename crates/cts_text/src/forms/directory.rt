//! directoryQuery.

ghost use Rattle.std.specs.Prelude.{◌≡◌, ◌++◌, ◌∷◌, codes, IfOk};
ghost use Rattle.std.specs.List.{list_all};
ghost use Rattle.cts_meaning.specs.Canonical.{only_if, query_object, texts_node};
ghost use Rattle.cts_meaning.specs.Shapes.{field_shape, fields_of, is_given};
ghost use Rattle.cts_meaning.specs.declared.form.QueryForm.TheVariants as form;
ghost use Rattle.cts_meaning.specs.Saying.{depth_text};
ghost use Rattle.cts_text.specs.Saids.{IsSaidAs};
ghost use Rattle.doc_model.specs.declared.node.Node.TheVariants as node;

use crate::objects::{member, query_object, text_node, texts_node, with};
use crate::values::{has_member, is_infinite, texts_in};
use cts_meaning::{QueryForm, Shape};
use doc_model::{Members, Node, Query, Texts};
use std::alloc::{AllocError, Global};

pub(super) fn field_shape(name: &str) -> Option<Shape>
    ensures { result ≡ field_shape (fields_of form.Directory) name.now }
{
    match name {
        "uris" => Some(Shape::Texts),
        "depth" => Some(Shape::Depth),
        _ => None,
    }
}

pub(super) fn is_complete(members: &Members) -> bool
    ensures { result ≡ list_all (is_given members.now) (fields_of form.Directory) }
{
    has_member(members, "uris")
}

pub(crate) fn query(alloc: Global, members: &Members) -> Result<Query, AllocError>
    ensures { IfOk result (λ q. IsSaidAs form.Directory members.now q) }
{
    let uris = texts_in(alloc, members, "uris")?;
    let infinite = is_infinite(members);
    Ok(Query::Directory { uris, infinite })
}

pub(crate) fn node(alloc: Global, uris: &Texts, infinite: bool) -> Result<Node, AllocError>
    ensures { IfOk result (λ n. n ≡ query_object form.Directory
        ((codes "uris", texts_node uris.now) ∷ only_if infinite (codes "depth") (node.Text (depth_text infinite)))) }
{
    let members = member(alloc, "uris", texts_node(alloc, uris)?)?;
    let members = with_depth(alloc, members, infinite)?;
    query_object(alloc, QueryForm::Directory, members)
}

fn with_depth(alloc: Global, members: Members, infinite: bool) -> Result<Members, AllocError>
    ensures { IfOk result (λ ms. ms ≡ members ++ only_if infinite (codes "depth") (node.Text (depth_text infinite))) }
{
    if infinite {
        with(alloc, members, "depth", text_node(alloc, "infinity")?)
    } else {
        Ok(members)
    }
}
