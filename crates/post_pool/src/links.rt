ghost use Rattle.std.specs.Prelude.{◌≡◌, ◌++◌, ◌+◌, ◌<◌, ◌≤◌, vec_len, vec_capacity};
ghost use Rattle.post_pool.specs.Links.{LeadsTo, ends_with, items_of, linked_to, nodes_with};

/// The index of no node.
pub(crate) const NO_NODE: u32 = u32::MAX;

/// An item of a chain, and the index of the node behind it, `NO_NODE` at the chain's end.
#[derive(Clone, Copy, Debug)]
pub(crate) struct Node {
    pub(crate) item: u32,
    pub(crate) next: u32,
}

/// The indices of a chain's first and last nodes, and how many nodes it has. Those of an empty chain mean nothing.
#[derive(Clone, Copy, Debug)]
pub(crate) struct Ends {
    pub(crate) first: u32,
    pub(crate) last: u32,
    pub(crate) len: u32,
}

/// An empty chain.
pub(crate) const NO_ENDS: Ends = Ends {
    first: NO_NODE,
    last: NO_NODE,
    len: 0,
};

/// Puts a node behind a chain's last one, without memory, and returns the chain's new ends.
pub(crate) fn append(nodes: &mut Vec<Node>, ends: Ends, item: u32) -> Ends
    requires room { vec_len nodes.old < vec_capacity nodes.old }
    requires index { vec_len nodes.old < NO_NODE }
    requires last { 0 < ends.len → ends.last < vec_len nodes.old }
    requires count { ends.len < NO_NODE }
    ensures nodes { nodes.new.items ≡ nodes_with nodes.old.items ends item }
    ensures ends { result ≡ ends_with ends (vec_len nodes.old) }
{
    let index = nodes.len() as u32;
    link(nodes, ends, index);
    nodes.push_reserved(Node {
        item,
        next: NO_NODE,
    });
    Ends {
        first: if ends.len > 0 { ends.first } else { index },
        last: index,
        len: ends.len + 1,
    }
}

/// Lets a chain's last node lead to an index.
fn link(nodes: &mut Vec<Node>, ends: Ends, index: u32)
    requires { 0 < ends.len → ends.last < vec_len nodes.old }
    ensures nodes { nodes.new.items ≡ linked_to nodes.old.items ends.last index ends.len }
    ensures room { vec_capacity nodes.new ≡ vec_capacity nodes.old }
{
    if ends.len > 0 {
        nodes[ends.last as usize].next = index;
    }
}

/// Adds a chain's items to a list that has room for them.
pub(crate) fn gather(nodes: &[Node], ends: Ends, out: &mut Vec<u32>)
    requires linked { LeadsTo nodes.now ends.last ends.first ends.len }
    requires room { vec_len out.old + ends.len ≤ vec_capacity out.old }
    ensures { out.new.items ≡ out.old.items ++ items_of nodes.now ends }
{
    let mut at = ends.first;
    let mut left = ends.len;
    while left > 0 {
        let node = nodes[at as usize];
        out.push_reserved(node.item);
        at = node.next;
        left -= 1;
    }
}
