ghost use Rattle.std.specs.Prelude.{◌≡◌, ◌++◌, ◌∷◌, [], map, ◌≤◌, ◌&&◌, IfOk, OnOk, IsTrue, string_bytes};
ghost use Rattle.std.specs.List.{list_all};
ghost use Rattle.std.specs.Str.{is_utf8};
ghost use Rattle.doc_model.specs.Tree.{depth, has_distinct_names};
ghost use Rattle.json_text.specs.Grammar.{joined, IsJson};
ghost use Rattle.json_text.specs.Canonical.{comma, node_text, member_text, has_values};

use crate::amount::put_number;
use crate::quoting::{put_ascii, put_text};
use doc_model::{Members, Node, Nodes, Text};
use std::alloc::{AllocError, Global};

fn put_comma(out: &mut String, needed: bool) -> Result<(), AllocError>
    ensures { OnOk result (string_bytes out.new ≡ string_bytes out.old ++ comma needed) }
{
    if needed {
        put_ascii(out, b',')?;
    }
    Ok(())
}

/// Appends a node. It goes as deep as the tree.
#[cycle(writing)]
fn put_node(out: &mut String, node: &Node) -> Result<(), AllocError>
    ensures written { OnOk result (string_bytes out.new ≡ string_bytes out.old ++ node_text node.now) }
    ensures values { OnOk result (IsTrue (has_values node.now)) }
{
    match node {
        Node::Null => out.push_str("null"),
        Node::Bool(true) => out.push_str("true"),
        Node::Bool(false) => out.push_str("false"),
        Node::Num(number) => put_number(out, number),
        Node::Text(text) => put_text(out, text),
        Node::Items(items) => {
            put_ascii(out, b'[')?;
            put_items(out, items)?;
            put_ascii(out, b']')
        }
        Node::Members(members) => {
            put_ascii(out, b'{')?;
            put_members(out, members)?;
            put_ascii(out, b'}')
        }
    }
}

#[cycle(writing)]
fn put_items(out: &mut String, items: &Nodes) -> Result<(), AllocError>
    ensures written { OnOk result (string_bytes out.new ≡ string_bytes out.old ++ joined (map node_text items.now)) }
    ensures values { OnOk result (IsTrue (list_all has_values items.now)) }
{
    let mut more = false;
    for item in items.as_slice() {
        put_comma(out, more)?;
        put_node(out, item)?;
        more = true;
    }
    Ok(())
}

#[cycle(writing)]
fn put_members(out: &mut String, members: &Members) -> Result<(), AllocError>
    ensures written { OnOk result (string_bytes out.new ≡ string_bytes out.old ++ joined (map member_text members.now)) }
    ensures values { OnOk result (IsTrue (list_all (λ m. is_utf8 m.0 && has_values m.1) members.now)) }
{
    let mut more = false;
    for member in members.as_slice() {
        put_comma(out, more)?;
        put_text(out, &member.0)?;
        put_ascii(out, b':')?;
        put_node(out, &member.1)?;
        more = true;
    }
    Ok(())
}

/// The canonical text of a tree, in time of its length. It goes as deep as the tree.
pub fn write(alloc: Global, node: &Node) -> Result<Text, AllocError>
    ensures text { IfOk result (λ text. text ≡ node_text node.now) }
    ensures of_node { IfOk result (λ text. depth node.now ≤ 128 → IsTrue (has_distinct_names node.now) → IsJson text node.now) }
{
    let mut out = String::new(alloc);
    put_node(&mut out, node)?;
    Ok(Text::from_string(out))
}
