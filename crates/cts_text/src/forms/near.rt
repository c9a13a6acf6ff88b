//! nearQuery.

ghost use Rattle.std.specs.Prelude.{◌≡◌, ◌==◌, ◌++◌, ◌∷◌, ◌≤◌, codes, not, IfOk};
ghost use Rattle.std.specs.List.{list_all};
ghost use Rattle.cts_meaning.specs.Canonical.{only_if, option_if, options_member, query_object};
ghost use Rattle.cts_meaning.specs.Shapes.{field_shape, fields_of, greatest_distance, is_given, whole};
ghost use Rattle.cts_meaning.specs.declared.form.QueryForm.TheVariants as form;
ghost use Rattle.cts_text.specs.Saids.{IsSaidAs};
ghost use Rattle.doc_model.specs.declared.node.Node.TheVariants as node;

use crate::distance::{DEFAULT_DISTANCE, whole_node};
use crate::objects::{member, query_object, with, with_option_if, with_options};
use crate::saying::queries_in;
use crate::values::{distance_in, has_member, has_option};
use cts_meaning::{OptionKind, QueryForm, Shape};
use doc_model::{Members, Node, Nodes, Query, Texts};
use std::alloc::{AllocError, Global};

pub(super) fn field_shape(name: &str) -> Option<Shape>
    ensures { result ≡ field_shape (fields_of form.Near) name.now }
{
    match name {
        "queries" => Some(Shape::Queries),
        "distance" => Some(Shape::Distance),
        "options" => Some(Shape::Options(OptionKind::Near)),
        _ => None,
    }
}

pub(super) fn is_complete(members: &Members) -> bool
    ensures { result ≡ list_all (is_given members.now) (fields_of form.Near) }
{
    has_member(members, "queries")
}

#[cycle(saying)]
pub(crate) fn query(alloc: Global, members: &Members) -> Result<Query, AllocError>
    ensures { IfOk result (λ q. IsSaidAs form.Near members.now q) }
{
    let queries = queries_in(alloc, members)?;
    let distance = distance_in(members);
    let ordered = has_option(members, "ordered");
    Ok(Query::Near {
        queries,
        distance,
        ordered,
    })
}

pub(crate) fn node(
    alloc: Global,
    queries: Nodes,
    distance: u32,
    ordered: bool,
) -> Result<Node, AllocError>
    ensures node { IfOk result (λ n. n ≡ query_object form.Near ((codes "queries", node.Items queries)
        ∷ only_if (not (distance == 10)) (codes "distance") (whole distance)
        ++ options_member (option_if ordered (codes "ordered")))) }
    ensures near { distance ≤ greatest_distance }
{
    let first = member(alloc, "queries", Node::Items(queries))?;
    let further = with_distance(alloc, first, distance)?;
    let options = with_option_if(alloc, Texts::new(alloc), ordered, "ordered")?;
    let all = with_options(alloc, further, &options)?;
    query_object(alloc, QueryForm::Near, all)
}

/// Members and the distance behind them, where it is needed.
fn with_distance(alloc: Global, members: Members, distance: u32) -> Result<Members, AllocError>
    ensures { IfOk result (λ ms. ms ≡ members ++ only_if (not (distance == 10)) (codes "distance") (whole distance)) }
{
    if distance == DEFAULT_DISTANCE {
        return Ok(members);
    }
    with(alloc, members, "distance", whole_node(distance))
}
