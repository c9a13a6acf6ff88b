ghost use Rattle.std.specs.Prelude.{◌≡◌, ◌≤◌, IfOk, IsTrue};
ghost use Rattle.doc_model.specs.Tree.{depth};
ghost use Rattle.cts_meaning.specs.Canonical.{has_comparables, query_node, query_text};
ghost use Rattle.cts_meaning.specs.Saying.{IsQueryText};

use crate::node_of::node_of;
use doc_model::{Query, Text};
use std::alloc::{AllocError, Global};

/// The canonical text of a query, in time of its length. It goes as deep as the query, and takes memory for a tree
/// beside the text.
pub fn write(alloc: Global, query: &Query) -> Result<Text, AllocError>
    ensures text { IfOk result (λ text. text ≡ query_text query.now) }
    ensures of_query { IfOk result (λ text. IsTrue (has_comparables query.now) → depth (query_node query.now) ≤ 128
        → IsQueryText text query.now) }
{
    json_text::write(alloc, &node_of(alloc, query)?)
}
