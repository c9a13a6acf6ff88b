//! Settings, documents, operations and queries.

ghost use Rattle.std.specs.Prelude.{◌≡◌, [], IfOk, IsTrue};
ghost use Rattle.doc_model.specs.Operations.{removes_uri};

use doc_model::{Case, Document, Indexes, Node, Op, Query, Settings, Text, Texts};
use sqlite_items::Items;
use std::alloc::{AllocError, Global};
use std::test::Fail;

/// Settings without range indexes.
pub fn plain_settings(alloc: Global) -> Settings
    ensures { result.indexes ≡ [] }
{
    Settings {
        indexes: Indexes::none(alloc),
        save_at: 10_000,
        merge_at: 8,
    }
}

// The member `"t":TEXT`.
fn member(alloc: Global, text: &str) -> Result<(Text, Node), Fail> {
    let name = Text::from_str(alloc, "t")?;
    let text = Text::from_str(alloc, text)?;
    Ok((name, Node::Text(text)))
}

/// The object `{"t":TEXT}`.
pub fn object(alloc: Global, text: &str) -> Result<Node, Fail> {
    let member = member(alloc, text)?;
    let mut members = Items::new(alloc);
    members.push(member)?;
    Ok(Node::Members(members))
}

// A document without collections.
fn document(alloc: Global, uri: &str, root: Node) -> Result<Document, Fail> {
    let uri = Text::from_str(alloc, uri)?;
    Ok(Document::new(alloc, uri, Texts::new(alloc), root)?)
}

/// Puts a document without collections.
pub fn put(alloc: Global, uri: &str, root: Node, expect: Option<u64>) -> Result<Op, Fail>
    ensures { IfOk result (λ op. IsTrue (removes_uri op)) }
{
    let document = document(alloc, uri, root)?;
    Ok(Op::Put { document, expect })
}

/// Puts `{"t":TEXT}`.
pub fn put_text(alloc: Global, uri: &str, text: &str, expect: Option<u64>) -> Result<Op, Fail>
    ensures { IfOk result (λ op. IsTrue (removes_uri op)) }
{
    put(alloc, uri, object(alloc, text)?, expect)
}

/// Searches for a text.
pub fn word(alloc: Global, text: &str) -> Result<Query, AllocError> {
    let text = Text::from_str(alloc, text)?;
    let mut texts = Texts::new(alloc);
    texts.push(text)?;
    Ok(Query::Word {
        texts,
        case: Case::Auto,
    })
}
