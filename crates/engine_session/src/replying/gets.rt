//! Replies to gets.

ghost use Rattle.std.specs.Prelude.{◌≡◌, ◌⊎◌, IfOk, map};
ghost use Rattle.doc_engine.specs.EngineState.{Sees};
ghost use Rattle.doc_meaning.specs.History.{History};
ghost use Rattle.doc_model.specs.declared.node.Node.TheVariants as node;
ghost use Rattle.engine_session.specs.Step.{got_at};
ghost use Rattle.transcript.specs.Answers.{reply_of_version};
ghost use Rattle.transcript.specs.declared.reply.Reply.TheVariants as reply;

use doc_engine::{Snapshot, TooOld};
use doc_meaning::Version;
use doc_model::{Node, Nodes, Text};
use json_text::write;
use std::alloc::{AllocError, Global};
use transcript::Reply;

// The live version of a URI, in time and memory of its size.
pub(crate) fn get(alloc: Global, seen: &Snapshot<'_>, uri: &Text) -> Reply
    ensures { ((h : History) → Sees seen.now h → result ≡ got_at h uri.now) ⊎ (result ≡ reply.Memory) }
{
    let front = seen.stamp();
    match seen.get(uri) {
        Ok(Some(version)) => doc_of(alloc, version, front).unwrap_or(Reply::Memory),
        Ok(None) => Reply::NoDoc { at: front, front },
        Err(TooOld { asked, merge }) => Reply::Old { asked, merge },
    }
}

// A version that is live at the front.
#[tactic(auto, using(crate::proofs::Writing::texts_text))]
fn doc_of(alloc: Global, version: &Version, front: u64) -> Result<Reply, AllocError>
    ensures { IfOk result (λ said. said ≡ reply_of_version front front version.now) }
{
    let document = &version.document;
    let collections = array_of(alloc, document.collections().as_slice())?;
    Ok(Reply::Doc {
        created: version.created,
        at: front,
        front,
        collections: write(alloc, &collections)?,
        root: write(alloc, document.root())?,
    })
}

// The texts as a JSON array.
fn array_of(alloc: Global, texts: &[Text]) -> Result<Node, AllocError>
    ensures { IfOk result (λ array. array ≡ node.Items (map node.Text texts.now)) }
{
    let mut items = Nodes::new(alloc);
    for text in texts {
        items.push(Node::Text(text.copy(alloc)?))?;
    }
    Ok(Node::Items(items))
}
