//! Whole numbers that expressions come to, of which no values are made.

ghost use Rattle.std.specs.Prelude.{◌≡◌, Ok, IfSome, IsTrue};
ghost use Rattle.dsde_language.specs.declared.node.Node.TheVariants as node_of;
ghost use Rattle.dsde_language.specs.MeaningTables.{means_in, node_mean};
ghost use Rattle.dsde_values.specs.declared.value.Value.TheVariants as value;
ghost use Rattle.dsde_eval_short.specs.given.eval_operators.Reckoning.{reckons};
ghost use Rattle.dsde_eval_tables.specs.Evaluating.{coded_of};

use crate::evaluator::Evaluator;
use dsde_eval_short::given::eval_operators::{reckoned, reckons};
use dsde_language::{Binary, ExprId, Node};
use dsde_values::{Seq, Value};

/// The whole number that a value is, if it is one.
fn whole_of(own: &Value) -> Option<i64>
    ensures { IfSome result (λ number. own.now ≡ value.Int number) }
{
    match own {
        Value::Int(number) => Some(*number),
        _ => None,
    }
}

impl Evaluator<'_> {
    /// The whole number that an expression comes to, if it is made of numbers that are spelled or
    /// stand in the slots, by operators that make numbers of numbers, and there is no fault.
    #[cycle(reckoning)]
    pub(crate) fn reckon(&self, depth: u32, number: ExprId, slots: &Seq<Value>) -> Option<i64>
        ensures { IfSome result (λ own. (means_in (coded_of self.now) depth).part number slots.now ≡ Ok (value.Int own)) }
    {
        if depth == 0 {
            return None;
        }
        match self.tables.nodes.get(number.0 as usize) {
            Some(node) => self.reckon_node(depth - 1, node, slots),
            None => None,
        }
    }

    /// The same of one node.
    #[cycle(reckoning)]
    fn reckon_node(&self, depth: u32, node: &Node, slots: &Seq<Value>) -> Option<i64>
        ensures { IfSome result (λ own. node_mean (means_in (coded_of self.now) depth) self.now.functions.now node.now slots.now ≡ Ok (value.Int own)) }
    {
        match node {
            Node::Int(own) => Some(*own),
            Node::Slot(slot) => whole_of(slots.get(*slot as usize)?),
            Node::Field(field, part) => {
                whole_of(self.field_standing(depth, *field, *part, slots)?)
            }
            Node::Binary(which, at, left, right) if reckons(*which) => {
                self.reckon_sides(depth, *which, *at, *left, *right, slots)
            }
            _ => None,
        }
    }

    /// The same of an operator that makes a number of numbers.
    #[cycle(reckoning)]
    #[tactic(auto, using(crate::proofs::Reckoning::sides))]
    fn reckon_sides(
        &self,
        depth: u32,
        which: Binary,
        at: u32,
        left: ExprId,
        right: ExprId,
        slots: &Seq<Value>,
    ) -> Option<i64>
        requires { IsTrue (reckons which) }
        ensures { IfSome result (λ own. node_mean (means_in (coded_of self.now) depth) self.now.functions.now (node_of.Binary which at left right) slots.now ≡ Ok (value.Int own)) }
    {
        let one = self.reckon(depth, left, slots)?;
        let other = self.reckon(depth, right, slots)?;
        match reckoned(which, at, one, other) {
            Ok(own) => Some(own),
            Err(_) => None,
        }
    }

    /// The whole number in the option that an expression comes to, if it makes the option of such a
    /// number.
    pub fn held_number(&self, depth: u32, number: ExprId, slots: &Seq<Value>) -> Option<i64>
        ensures { IfSome result (λ own. (means_in (coded_of self.now) depth).part number slots.now ≡ Ok (value.Some (value.Int own))) }
    {
        if depth == 0 {
            return None;
        }
        match self.tables.nodes.get(number.0 as usize) {
            Some(Node::Some(part)) => self.reckon(depth - 1, *part, slots),
            _ => None,
        }
    }
}
