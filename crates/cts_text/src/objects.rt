//! Canonical objects, arrays and options.

ghost use Rattle.std.specs.Prelude.{◌≡◌, ◌++◌, ◌∷◌, [], map, IfOk, OnOk};
ghost use Rattle.cts_meaning.specs.Canonical.{case_options, option_if, options_member, query_object, scalars_node};
ghost use Rattle.cts_meaning.specs.Canonical.{texts_node};
ghost use Rattle.cts_meaning.specs.Shapes.{scalar_node};
ghost use Rattle.doc_model.specs.declared.node.Node.TheVariants as node;

use crate::forms::form_name;
use cts_meaning::QueryForm;
use doc_model::{Case, Members, Node, Nodes, Scalar, Scalars, Text, Texts};
use std::alloc::{AllocError, Global};

/// The object of a query of this form, with these members in its argument object.
pub(crate) fn query_object(
    alloc: Global,
    form: QueryForm,
    members: Members,
) -> Result<Node, AllocError>
    ensures { IfOk result (λ n. n ≡ query_object form members) }
{
    let outer = with(
        alloc,
        Members::new(alloc),
        form_name(form),
        Node::Members(members),
    )?;
    Ok(Node::Members(outer))
}

/// One member alone.
pub(crate) fn member(alloc: Global, name: &str, value: Node) -> Result<Members, AllocError>
    ensures { IfOk result (λ ms. ms ≡ (name.now, value) ∷ []) }
{
    with(alloc, Members::new(alloc), name, value)
}

/// Members and one more behind them.
pub(crate) fn with(
    alloc: Global,
    members: Members,
    name: &str,
    value: Node,
) -> Result<Members, AllocError>
    ensures { IfOk result (λ ms. ms ≡ members ++ (name.now, value) ∷ []) }
{
    let mut more = members;
    more.push((Text::from_str(alloc, name)?, value))?;
    Ok(more)
}

/// Members and the options behind them, where there are some.
pub(crate) fn with_options(
    alloc: Global,
    members: Members,
    options: &Texts,
) -> Result<Members, AllocError>
    ensures { IfOk result (λ ms. ms ≡ members ++ options_member options.now) }
{
    match options.as_slice() {
        [] => Ok(members),
        [_, ..] => with(alloc, members, "options", texts_node(alloc, options)?),
    }
}

pub(crate) fn texts_node(alloc: Global, texts: &Texts) -> Result<Node, AllocError>
    ensures { IfOk result (λ n. n ≡ texts_node texts.now) }
{
    let mut items = Nodes::new(alloc);
    for text in texts.as_slice() {
        items.push(Node::Text(text.copy(alloc)?))?;
    }
    Ok(Node::Items(items))
}

pub(crate) fn text_node(alloc: Global, text: &str) -> Result<Node, AllocError>
    ensures { IfOk result (λ n. n ≡ node.Text text.now) }
{
    Ok(Node::Text(Text::from_str(alloc, text)?))
}

pub(crate) fn scalars_node(alloc: Global, scalars: &Scalars) -> Result<Node, AllocError>
    ensures { IfOk result (λ n. n ≡ scalars_node scalars.now) }
{
    let mut items = Nodes::new(alloc);
    for scalar in scalars.as_slice() {
        items.push(scalar_node(alloc, scalar)?)?;
    }
    Ok(Node::Items(items))
}

fn scalar_node(alloc: Global, scalar: &Scalar) -> Result<Node, AllocError>
    ensures { IfOk result (λ n. n ≡ scalar_node scalar.now) }
{
    match scalar {
        Scalar::Null => Ok(Node::Null),
        Scalar::Bool(b) => Ok(Node::Bool(*b)),
        Scalar::Num(number) => Ok(Node::Num(*number)),
        Scalar::Text(text) => Ok(Node::Text(text.copy(alloc)?)),
    }
}

pub(crate) fn case_options(alloc: Global, case: Case) -> Result<Texts, AllocError>
    ensures { IfOk result (λ options. options ≡ case_options case) }
{
    match case {
        Case::Auto => Ok(Texts::new(alloc)),
        Case::Sensitive => with_option(alloc, Texts::new(alloc), "case-sensitive"),
        Case::Insensitive => with_option(alloc, Texts::new(alloc), "case-insensitive"),
    }
}

/// Options and one more behind them, where it is needed.
pub(crate) fn with_option_if(
    alloc: Global,
    options: Texts,
    needed: bool,
    option: &str,
) -> Result<Texts, AllocError>
    ensures { IfOk result (λ more. more ≡ options ++ option_if needed option.now) }
{
    if needed {
        with_option(alloc, options, option)
    } else {
        Ok(options)
    }
}

fn with_option(alloc: Global, options: Texts, option: &str) -> Result<Texts, AllocError>
    ensures { IfOk result (λ more. more ≡ options ++ option.now ∷ []) }
{
    let mut more = options;
    more.push(Text::from_str(alloc, option)?)?;
    Ok(more)
}
