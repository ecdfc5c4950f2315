//! Expressions that make a list anew from the list in a slot.

ghost use Rattle.std.specs.Prelude.{◌≡◌, IfSome, IsTrue};
ghost use Rattle.dsde_language.specs.declared.node.Node.TheVariants as node_of;
ghost use Rattle.dsde_eval_short.specs.Changes.{IsSlot, IsChange, Makes};

use dsde_language::{Binary, Builtin, ExprId, Node};
use dsde_values::Seq;

/// What is done to a list with one value.
#[derive(Clone, Copy)]
pub enum Which {
    /// The value is put behind its items.
    Push,
    /// Its first items are left, so many.
    Take,
    /// Its first items are taken away, so many.
    Skip,
    /// The items of another list are put behind its own.
    Join,
}

/// How an expression makes a list anew from the list in a slot, with the place of the builtin or the
/// operator, and the numbers of the expressions beside the list.
#[derive(Clone, Copy)]
pub enum Change {
    By(Which, u32, ExprId),
    /// The item at an index is replaced.
    Put(u32, ExprId, ExprId),
}

/// How the expression with a number makes a list anew from the list in a slot, if it does.
pub fn own_change(nodes: &Seq<Node>, slot: u32, number: ExprId) -> Option<Change>
    ensures { IfSome result (λ own. IsChange nodes.now slot number own) }
{
    match nodes.get(number.0 as usize) {
        Some(Node::Builtin(which, at, args)) => {
            by_builtin(nodes, slot, *which, *at, args.as_slice())
        }
        Some(Node::Binary(Binary::Join, at, list, part)) => {
            if is_slot(nodes, *list, slot) {
                Some(Change::By(Which::Join, *at, *part))
            } else {
                None
            }
        }
        _ => None,
    }
}

/// The same, of a builtin of these arguments.
fn by_builtin(
    nodes: &Seq<Node>,
    slot: u32,
    which: Builtin,
    at: u32,
    args: &[ExprId],
) -> Option<Change>
    ensures { IfSome result (λ own. Makes nodes.now slot (node_of.Builtin which at args.now) own) }
{
    match args {
        [list, part] if is_slot(nodes, *list, slot) => match which {
            Builtin::Push => Some(Change::By(Which::Push, at, *part)),
            Builtin::Take => Some(Change::By(Which::Take, at, *part)),
            Builtin::Skip => Some(Change::By(Which::Skip, at, *part)),
            _ => None,
        },
        [list, index, part] if is_slot(nodes, *list, slot) => match which {
            Builtin::Put => Some(Change::Put(at, *index, *part)),
            _ => None,
        },
        _ => None,
    }
}

/// Whether an expression is the name of a slot.
fn is_slot(nodes: &Seq<Node>, number: ExprId, slot: u32) -> bool
    ensures { IsTrue result → IsSlot nodes.now slot number }
{
    match nodes.get(number.0 as usize) {
        Some(Node::Slot(own)) => *own == slot,
        _ => false,
    }
}
