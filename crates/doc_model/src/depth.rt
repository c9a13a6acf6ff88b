ghost use Rattle.std.specs.Prelude.{◌↔◌, ◌≤◌, IsTrue, map};
ghost use Rattle.doc_model.specs.Tree.{depth, greatest};

use crate::{Members, Node, Nodes};

/// Whether at most so many arrays and objects enclose each other. It looks no deeper.
#[cycle(within)]
pub fn is_within(node: &Node, limit: u32) -> bool
    ensures { IsTrue result ↔ (depth node.now ≤ limit) }
{
    match node {
        Node::Items(items) => limit > 0 && items_within(items, limit - 1),
        Node::Members(members) => limit > 0 && members_within(members, limit - 1),
        _ => true,
    }
}

#[cycle(within)]
fn items_within(items: &Nodes, limit: u32) -> bool
    ensures { IsTrue result ↔ (greatest (map depth items.now) ≤ limit) }
{
    for item in items.as_slice() {
        if !is_within(item, limit) {
            return false;
        }
    }
    true
}

#[cycle(within)]
fn members_within(members: &Members, limit: u32) -> bool
    ensures { IsTrue result ↔ (greatest (map (λ m. depth m.1) members.now) ≤ limit) }
{
    for member in members.as_slice() {
        if !is_within(&member.1, limit) {
            return false;
        }
    }
    true
}
