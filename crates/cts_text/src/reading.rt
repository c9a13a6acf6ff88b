ghost use Rattle.std.specs.Prelude.{IfErr, IfOk};
ghost use Rattle.doc_model.specs.declared.query.Query.{Query};
ghost use Rattle.cts_meaning.specs.Saying.{IsQueryText};
ghost use Rattle.cts_text.specs.Answers.{RefusesQueryText, TakesQuery};

use crate::QueryTextBad;
use crate::judging::judge;
use crate::saying::query_of;
use cts_meaning::Shape;
use doc_model::Query;
use std::alloc::Global;

/// The query whose text the bytes are, in time n log n: of members with one name the last value counts. A fault of
/// the JSON goes before one of a node, and that of a node before what is in it.
pub fn read(alloc: Global, bytes: &[u8]) -> Result<Query, QueryTextBad>
    ensures found { IfOk result (λ q. IsQueryText bytes.now q) }
    ensures only { (q : Query) → IsQueryText bytes.now q → TakesQuery q result }
    ensures refused { IfErr result (RefusesQueryText bytes.now) }
{
    let tree = json_text::read(alloc, bytes)?;
    match judge(Shape::Query, &tree, 0) {
        Ok(_) => Ok(query_of(alloc, &tree)?),
        Err(node) => Err(QueryTextBad::Shape { node }),
    }
}
