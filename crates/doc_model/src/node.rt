ghost use Rattle.std.specs.Prelude.{◌≡◌, IfOk};

use crate::{Dec, Text};
use sqlite_items::Items;
use std::alloc::{AllocError, Global};

/// A JSON value (RFC 8259, section 3).
///
/// The names of an object's members are distinct in every document; the type alone doesn't keep it.
#[cycle(node)]
#[derive(Debug, Drop)]
pub enum Node {
    Null,
    Bool(bool),
    Num(Dec),
    Text(Text),
    Items(Items<Node>),
    Members(Items<(Text, Node)>),
}

/// The items of an array, in order.
pub type Nodes = Items<Node>;

/// The members of an object, in order, each a name and a value.
pub type Members = Items<(Text, Node)>;

impl Node {
    /// An equal tree, in time and memory of its size. It goes as deep as the tree.
    #[cycle(copy)]
    pub fn copy(&self, alloc: Global) -> Result<Node, AllocError>
        ensures { IfOk result (λ n. n ≡ self.now) }
    {
        match self {
            Node::Null => Ok(Node::Null),
            Node::Bool(b) => Ok(Node::Bool(*b)),
            Node::Num(n) => Ok(Node::Num(*n)),
            Node::Text(t) => Ok(Node::Text(t.copy(alloc)?)),
            Node::Items(items) => Ok(Node::Items(copy_items(alloc, items)?)),
            Node::Members(members) => Ok(Node::Members(copy_members(alloc, members)?)),
        }
    }
}

#[cycle(copy)]
fn copy_items(alloc: Global, items: &Items<Node>) -> Result<Items<Node>, AllocError>
    ensures { IfOk result (λ n. n ≡ items.now) }
{
    let mut out = Items::new(alloc);
    for item in items.as_slice() {
        out.push(item.copy(alloc)?)?;
    }
    Ok(out)
}

#[cycle(copy)]
fn copy_members(
    alloc: Global,
    members: &Items<(Text, Node)>,
) -> Result<Items<(Text, Node)>, AllocError>
    ensures { IfOk result (λ n. n ≡ members.now) }
{
    let mut out = Items::new(alloc);
    for member in members.as_slice() {
        out.push((member.0.copy(alloc)?, member.1.copy(alloc)?))?;
    }
    Ok(out)
}
