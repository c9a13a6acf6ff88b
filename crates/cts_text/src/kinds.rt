//! What a node holds, if it is of one kind.

ghost use Rattle.std.specs.Prelude.{◌≡◌};
ghost use Rattle.std.specs.Option.{option_copied};
ghost use Rattle.cts_meaning.specs.Kinds.{items_in, number_in, text_in};

use doc_model::{Dec, Node, Nodes, Text};

pub(crate) fn text_of(node: &Node) -> Option<&Text>
    ensures { option_copied result ≡ text_in node.now }
{
    match node {
        Node::Text(text) => Some(text),
        _ => None,
    }
}

pub(crate) fn number_of(node: &Node) -> Option<&Dec>
    ensures { option_copied result ≡ number_in node.now }
{
    match node {
        Node::Num(number) => Some(number),
        _ => None,
    }
}

pub(crate) fn items_of(node: &Node) -> Option<&Nodes>
    ensures { option_copied result ≡ items_in node.now }
{
    match node {
        Node::Items(items) => Some(items),
        _ => None,
    }
}
