//! trueQuery and falseQuery, which have no members.

ghost use Rattle.std.specs.Prelude.{◌≡◌, [], IfOk};
ghost use Rattle.cts_meaning.specs.Canonical.{query_object};

use crate::objects::query_object;
use cts_meaning::QueryForm;
use doc_model::{Members, Node};
use std::alloc::{AllocError, Global};

/// A query of this form, without members.
pub(crate) fn node(alloc: Global, form: QueryForm) -> Result<Node, AllocError>
    ensures { IfOk result (λ n. n ≡ query_object form []) }
{
    query_object(alloc, form, Members::new(alloc))
}
