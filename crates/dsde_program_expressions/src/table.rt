//! A table of nodes, with room kept for a node in front of its parts.

ghost use Rattle.std.specs.Prelude.{◌≡◌, ◌+◌, ◌∷◌, [], ◌++◌, length, slice_set, IfOk, OnOk};
ghost use Rattle.dsde_language.specs.Expressions.{expr_id};
ghost use Rattle.dsde_program_layout.specs.Lay.{kept, roomy, rooms};

use crate::resolver::Laid;
use dsde_language::{ExprId, Node};
use dsde_program_slots::given::check_tables::narrow;
use dsde_syntax::given::lists::Memory;
use dsde_values::{Seq, Ty};

/// Adds a node, and gives its number.
fn add(nodes: &mut Seq<Node>, node: Node) -> Result<u32, Memory>
    ensures nodes { OnOk result (nodes.new ≡ nodes.old ++ node ∷ []) }
    ensures number { IfOk result (λ number. number ≡ length nodes.old) }
{
    let number = narrow(nodes.len())?;
    nodes.push(node)?;
    Ok(number)
}

/// Adds a node that has no parts, of this type.
pub(crate) fn leaf(nodes: &mut Seq<Node>, ty: Ty, node: Node) -> Result<Laid, Memory>
    ensures number { IfOk result (λ laid. laid.number ≡ expr_id (length nodes.old)) }
    ensures ty { IfOk result (λ laid. laid.ty ≡ ty) }
    ensures nodes { OnOk result (nodes.new ≡ nodes.old ++ node ∷ []) }
{
    let number = add(nodes, node)?;
    Ok(Laid {
        number: ExprId(number),
        ty,
    })
}

/// Keeps room for a node, and gives its number.
pub(crate) fn room(nodes: &mut Seq<Node>) -> Result<u32, Memory>
    ensures number { IfOk result (λ number. number ≡ length nodes.old) }
    ensures nodes { OnOk result (nodes.new ≡ roomy nodes.old) }
    ensures grows { OnOk result (length nodes.new ≡ length nodes.old + 1) }
{
    add(nodes, Node::Nothing)
}

/// Keeps room for so many nodes.
pub(crate) fn rooms(nodes: &mut Seq<Node>, count: usize) -> Result<(), Memory>
    ensures nodes { OnOk result (nodes.new ≡ rooms count nodes.old) }
    ensures grows { OnOk result (length nodes.new ≡ length nodes.old + count) }
{
    for _place in 0..count {
        room(nodes)?;
    }
    Ok(())
}

/// Puts a node of this type where room was kept for it.
pub(crate) fn put(nodes: &mut Seq<Node>, ty: Ty, number: u32, node: Node) -> Laid
    ensures number { result.number ≡ expr_id number }
    ensures ty { result.ty ≡ ty }
    ensures nodes { nodes.new ≡ slice_set nodes.old number node }
{
    if let Some(place) = nodes.get_mut(number as usize) {
        *place = node;
    }
    Laid {
        number: ExprId(number),
        ty,
    }
}

/// The type of the first of some parts, where this is the next one's.
pub(crate) fn kept(first: Option<Ty>, own: Ty) -> Option<Ty>
    ensures { result ≡ kept first own }
{
    match first {
        Some(first) => Some(first),
        None => Some(own),
    }
}
