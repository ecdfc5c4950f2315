//! Values that are looked at where they stand, and not copied.

ghost use Rattle.std.specs.Prelude.{◌≡◌, ◌≢◌, Ok, Err, IfSome};
ghost use Rattle.dsde_language.specs.declared.node.Node.TheVariants as node_of;
ghost use Rattle.dsde_language.specs.Outcome.{Stuck, Gives};
ghost use Rattle.dsde_language.specs.MeaningOperators.{combined};
ghost use Rattle.dsde_language.specs.MeaningTables.{means_in, node_mean};
ghost use Rattle.dsde_eval_tables.specs.Evaluating.{coded_of, index_at, made_of_one};

use crate::evaluator::Evaluator;
use dsde_eval_short::given::eval_operators::{indexed, of_one, operated_on};
use dsde_faults::EvalEnd;
use dsde_language::{Binary, Builtin, ExprId, Node};
use dsde_values::{Seq, Value, copy_value};

impl Evaluator<'_> {
    /// The value of one node, if its parts are looked at where they stand in the slots, or are spelled
    /// in the text.
    pub(crate) fn looked(
        &self,
        depth: u32,
        node: &Node,
        slots: &Seq<Value>,
    ) -> Option<Result<Value, EvalEnd>>
        requires { node_mean (means_in (coded_of self.now) depth) self.now.functions.now node.now slots.now ≢ Err Stuck }
        ensures { IfSome result (λ own. Gives (node_mean (means_in (coded_of self.now) depth) self.now.functions.now node.now slots.now) own) }
    {
        match node {
            Node::Binary(which, at, left, right) => {
                self.operated(depth, *which, *at, *left, *right, slots)
            }
            Node::Field(number, part) => {
                let own = self.field_standing(depth, *number, *part, slots)?;
                Some(self.copied(own))
            }
            Node::Index(at, list, index) => self.item(depth, *at, *list, *index, slots),
            Node::Builtin(which, _, args) => match args.as_slice() {
                [one] => self.of_one(depth, *which, *one, slots),
                _ => None,
            },
            _ => None,
        }
    }

    /// A copy of a value.
    fn copied(&self, value: &Value) -> Result<Value, EvalEnd>
        ensures { Gives (Ok value.now) result }
    {
        Ok(copy_value(self.alloc, value)?)
    }

    /// What an expression comes to, if it is the name of a slot or a field of one, where it stands.
    #[tactic(auto, using(crate::proofs::Depths::depths))]
    fn standing<'s>(&self, depth: u32, number: ExprId, slots: &'s Seq<Value>) -> Option<&'s Value>
        ensures { IfSome result (λ own. (means_in (coded_of self.now) depth).part number slots.now ≡ Ok own.now) }
    {
        if depth == 0 {
            return None;
        }
        match self.tables.nodes.get(number.0 as usize) {
            Some(Node::Slot(slot)) => slots.get(*slot as usize),
            Some(Node::Field(field, part)) => self.field_standing(depth - 1, *field, *part, slots),
            _ => None,
        }
    }

    /// A field of a record, if it is a slot's, where it stands.
    pub(crate) fn field_standing<'s>(
        &self,
        depth: u32,
        field: u32,
        part: ExprId,
        slots: &'s Seq<Value>,
    ) -> Option<&'s Value>
        ensures { IfSome result (λ own. node_mean (means_in (coded_of self.now) depth) self.now.functions.now (node_of.Field field part) slots.now ≡ Ok own.now) }
    {
        match self.in_slot(depth, part, slots)? {
            Value::Rec(_, parts) => parts.get(field as usize),
            _ => None,
        }
    }

    /// What an expression comes to, if it is the name of a slot, where it stands.
    #[tactic(auto, using(crate::proofs::Depths::depths))]
    fn in_slot<'s>(&self, depth: u32, number: ExprId, slots: &'s Seq<Value>) -> Option<&'s Value>
        ensures { IfSome result (λ own. (means_in (coded_of self.now) depth).part number slots.now ≡ Ok own.now) }
    {
        if depth == 0 {
            return None;
        }
        match self.tables.nodes.get(number.0 as usize) {
            Some(Node::Slot(slot)) => slots.get(*slot as usize),
            _ => None,
        }
    }

    /// The number, the truth or the variant that an expression spells, if it does.
    #[tactic(auto, using(crate::proofs::Depths::depths))]
    fn spelled(&self, depth: u32, number: ExprId, slots: &Seq<Value>) -> Option<Value>
        ensures { IfSome result (λ own. (means_in (coded_of self.now) depth).part number slots.now ≡ Ok own) }
    {
        if depth == 0 {
            return None;
        }
        match self.tables.nodes.get(number.0 as usize) {
            Some(Node::Int(number)) => Some(Value::Int(*number)),
            Some(Node::Bool(truth)) => Some(Value::Bool(*truth)),
            Some(Node::Variant(number, variant)) => Some(Value::Enum(*number, *variant)),
            _ => None,
        }
    }

    /// What an operator makes of the values on its two sides, if the left one stands in the slots, and
    /// the right one stands there or is spelled.
    fn operated(
        &self,
        depth: u32,
        which: Binary,
        at: u32,
        left: ExprId,
        right: ExprId,
        slots: &Seq<Value>,
    ) -> Option<Result<Value, EvalEnd>>
        requires { node_mean (means_in (coded_of self.now) depth) self.now.functions.now (node_of.Binary which at left right) slots.now ≢ Err Stuck }
        ensures { IfSome result (λ own. Gives (node_mean (means_in (coded_of self.now) depth) self.now.functions.now (node_of.Binary which at left right) slots.now) own) }
    {
        let one = self.standing(depth, left, slots)?;
        match self.spelled(depth, right, slots) {
            Some(other) => compared(which, at, one, &other),
            None => compared(which, at, one, self.standing(depth, right, slots)?),
        }
    }

    /// A copy of the item of a list at an index, if the list stands in the slots, and the index stands
    /// there or is spelled.
    fn item(
        &self,
        depth: u32,
        at: u32,
        list: ExprId,
        index: ExprId,
        slots: &Seq<Value>,
    ) -> Option<Result<Value, EvalEnd>>
        requires { index_at (means_in (coded_of self.now) depth).part at list index slots.now ≢ Err Stuck }
        ensures { IfSome result (λ own. Gives (index_at (means_in (coded_of self.now) depth).part at list index slots.now) own) }
    {
        let own = self.standing(depth, list, slots)?;
        match self.spelled(depth, index, slots) {
            Some(place) => Some(indexed(self.alloc, at, own, &place)),
            None => Some(indexed(self.alloc, at, own, self.standing(depth, index, slots)?)),
        }
    }

    /// What a builtin of one argument makes of it, if it stands in the slots.
    fn of_one(
        &self,
        depth: u32,
        which: Builtin,
        one: ExprId,
        slots: &Seq<Value>,
    ) -> Option<Result<Value, EvalEnd>>
        requires { made_of_one (means_in (coded_of self.now) depth).part which one slots.now ≢ Err Stuck }
        ensures { IfSome result (λ made. Gives (made_of_one (means_in (coded_of self.now) depth).part which one slots.now) made) }
    {
        let own = self.standing(depth, one, slots)?;
        Some(of_one(which, own))
    }
}

/// What an operator makes of two values that are looked at, if it neither joins lists nor leaves its
/// right side alone.
fn compared(which: Binary, at: u32, left: &Value, right: &Value) -> Option<Result<Value, EvalEnd>>
    requires { combined which at left.now (Ok right.now) ≢ Err Stuck }
    ensures { IfSome result (λ own. Gives (combined which at left.now (Ok right.now)) own) }
{
    match which {
        Binary::Or | Binary::And | Binary::Join => None,
        _ => Some(operated_on(which, at, left, right)),
    }
}
