ghost use Rattle.std.specs.Prelude.{◌≡◌, ◌≢◌, ◌-◌, IfOk, IfErr};
ghost use Rattle.doc_model.specs.declared.node.Node.{Node};
ghost use Rattle.json_text.specs.Answers.{ReadAnswers, Takes, placed};
ghost use Rattle.json_text.specs.Faults.{IsRefusedText};
ghost use Rattle.json_text.specs.Grammar.{IsJson};
ghost use Rattle.json_text.specs.Laws.{KeepsRules};
ghost use Rattle.json_text.specs.Reading.{Gives, text_read};
ghost use Rattle.json_text.specs.declared.bad.JsonBad.TheVariants.{Memory};

use crate::bad::JsonBad;
use crate::fault::{Fault, Stop};
use crate::scan::{behind_white, unexpected};
use crate::value::value;
use doc_model::Node;
use std::alloc::Global;

/// How many arrays and objects may enclose each other.
const DEEPEST: u32 = 128;

#[tactic(auto, unfolding(crate::specs::Reading::text_read))]
fn whole(alloc: Global, bytes: &[u8]) -> Result<Node, Stop>
    ensures { Gives (λ n. n) result (text_read bytes.now) }
{
    let (node, rest) = value(alloc, DEEPEST, behind_white(bytes))?;
    let rest = behind_white(rest);
    if !rest.is_empty() {
        return Err(Stop::Fault(unexpected(rest)));
    }
    Ok(node)
}

fn place(len: usize, left: usize) -> u64
    ensures { result ≡ len - left }
{
    len.saturating_sub(left) as u64
}

fn placed(len: usize, fault: Fault) -> JsonBad
    ensures { result ≡ placed len fault }
{
    match fault {
        Fault::Syntax(left) => JsonBad::Syntax {
            place: place(len, left),
        },
        Fault::Utf8(left) => JsonBad::Utf8 {
            place: place(len, left),
        },
        Fault::Depth(left) => JsonBad::Depth {
            place: place(len, left),
        },
        Fault::Number(left) => JsonBad::Number {
            place: place(len, left),
        },
    }
}

/// The tree whose text the bytes are (RFC 8259), in time n log n: of members with one name the last value counts.
pub fn read(alloc: Global, bytes: &[u8]) -> Result<Node, JsonBad>
    ensures found { IfOk result (λ v. IsJson bytes.now v) }
    ensures only { (v : Node) → IsJson bytes.now v → Takes v result }
    ensures rules { IfOk result (λ v. KeepsRules bytes.now v) }
    ensures refused { IfErr result (λ e. e ≢ Memory → IsRefusedText bytes.now e) }
    ensures answer { ReadAnswers bytes.now result }
{
    match whole(alloc, bytes) {
        Ok(node) => Ok(node),
        Err(Stop::Fault(fault)) => Err(placed(bytes.len(), fault)),
        Err(Stop::Memory) => Err(JsonBad::Memory),
    }
}
