//! Expressions are evaluated, and blocks are run.

ghost use Rattle.std.specs.Prelude.{◌≡◌, ◌≢◌, ◌⊎◌, ◌++◌, ◌∷◌, [], Some, Err};
ghost use Rattle.dsde_language.specs.Outcome.{Stuck, Gives};
ghost use Rattle.dsde_language.specs.MeaningOperators.{combined};
ghost use Rattle.dsde_language.specs.Flow.{why};
ghost use Rattle.dsde_language.specs.MeaningTables.{means_in, node_mean, values_from, holds_at, each_from, arms_from, run_code, builtin_at, braced_at, once, for_each, test_at, arms_flow, act_flow, acts_flow, state_of, with_slot, Flows, Tests};
ghost use Rattle.dsde_language.specs.declared.act.Act.TheVariants as act_of;
ghost use Rattle.dsde_language.specs.declared.node.Node.TheVariants as node_of;
ghost use Rattle.dsde_eval_short.specs.Changes.{changed_in};
ghost use Rattle.dsde_eval_tables.specs.Spots.{Reaches};
ghost use Rattle.dsde_eval_tables.specs.Evaluating.{coded_of, one_kept, index_at, Adds};
ghost use Rattle.dsde_eval_tables.specs.Passing.{PassesIn, ActsPass, ActPasses, ArmsPass, BracedPasses, EachPasses};

use crate::evaluator::Evaluator;
use crate::slots::{set_number, set_slot};
use crate::spot::{
    Got, Spot, field_in, held_of, inner_of, is_there, item_of, one_of, slot_copy, taken,
};
use dsde_eval_short::given::eval_operators::{
    denied, items_of, listed, negated, of_three, of_two, operated, truth_of,
};
use dsde_eval_short::{Change, change_slot, changes_are_assignments, own_change, put_slot};
use dsde_faults::EvalEnd;
use dsde_language::{Act, ActArm, Binary, BlockId, Builtin, ExprId, FnCode, Node, NodeArm};
use dsde_values::{Boxed, Item, Seq, Value};

impl Evaluator<'_> {
    /// What the expression with a number comes to over slots, to a depth, where that is a value or a
    /// fault: the value, which is a copy where it stands in the slots, or the first fault with its
    /// place. `Memory` where memory runs out. The slots are as before, at every end.
    #[cycle(evaluating)]
    #[tactic(auto, using(crate::proofs::Depths::depths))]
    pub fn eval(&self, depth: u32, number: ExprId, slots: &mut Seq<Value>) -> Result<Value, EvalEnd>
        requires { (means_in (coded_of self.now) depth).part number slots.old ≢ Err Stuck }
        ensures gives { Gives ((means_in (coded_of self.now) depth).part number slots.old) result }
        ensures keeps { slots.new ≡ slots.old }
    {
        if depth == 0 {
            unreachable!()
        }
        match self.tables.nodes.get(number.0 as usize) {
            Some(node) => self.value(depth - 1, node, slots),
            None => unreachable!(),
        }
    }

    /// The value of one node, over what its parts come to. Those that are met most go a short way, on
    /// which what stands in the slots is looked at there.
    #[cycle(evaluating)]
    fn value(&self, depth: u32, node: &Node, slots: &mut Seq<Value>) -> Result<Value, EvalEnd>
        requires { node_mean (means_in (coded_of self.now) depth) self.now.functions.now node.now slots.old ≢ Err Stuck }
        ensures gives { Gives (node_mean (means_in (coded_of self.now) depth) self.now.functions.now node.now slots.old) result }
        ensures keeps { slots.new ≡ slots.old }
    {
        match node {
            Node::Slot(number) => slot_copy(self.alloc, *number, slots),
            Node::Int(number) => Ok(Value::Int(*number)),
            Node::Some(part) => self.some(depth, *part, slots),
            Node::Binary(which, at, left, right) => match self.looked(depth, node, slots) {
                Some(own) => own,
                None => self.binary(depth, *which, *at, *left, *right, slots),
            },
            _ => match self.looked(depth, node, slots) {
                Some(own) => own,
                None => self.any(depth, node, slots),
            },
        }
    }

    /// The same, by the way that all nodes can go.
    #[cycle(evaluating)]
    #[inline(never)]
    fn any(&self, depth: u32, node: &Node, slots: &mut Seq<Value>) -> Result<Value, EvalEnd>
        requires { node_mean (means_in (coded_of self.now) depth) self.now.functions.now node.now slots.old ≢ Err Stuck }
        ensures gives { Gives (node_mean (means_in (coded_of self.now) depth) self.now.functions.now node.now slots.old) result }
        ensures keeps { slots.new ≡ slots.old }
    {
        let got = self.node(depth, node, slots)?;
        taken(self.alloc, got, slots)
    }

    /// What an expression comes to, but a value that stands in the slots is not copied: the answer is
    /// where it stands.
    #[cycle(evaluating)]
    #[tactic(auto, using(crate::proofs::Depths::depths))]
    fn reach(&self, depth: u32, number: ExprId, slots: &mut Seq<Value>) -> Result<Got, EvalEnd>
        requires { (means_in (coded_of self.now) depth).part number slots.old ≢ Err Stuck }
        ensures gives { Reaches ((means_in (coded_of self.now) depth).part number slots.old) result slots.old }
        ensures keeps { slots.new ≡ slots.old }
    {
        if depth == 0 {
            unreachable!()
        }
        match self.tables.nodes.get(number.0 as usize) {
            Some(node) => self.node(depth - 1, node, slots),
            None => unreachable!(),
        }
    }

    /// One node, over what its parts come to. What has parts is a function of its own that is called:
    /// the room for all of them at once would be cleared at each node.
    #[cycle(evaluating)]
    #[tactic(auto, using(crate::proofs::Steps::steps))]
    fn node(&self, depth: u32, node: &Node, slots: &mut Seq<Value>) -> Result<Got, EvalEnd>
        requires { node_mean (means_in (coded_of self.now) depth) self.now.functions.now node.now slots.old ≢ Err Stuck }
        ensures gives { Reaches (node_mean (means_in (coded_of self.now) depth) self.now.functions.now node.now slots.old) result slots.old }
        ensures keeps { slots.new ≡ slots.old }
    {
        match node {
            Node::Slot(number) => Ok(Got::At(Spot {
                slot: *number,
                steps: Seq::new(self.alloc),
            })),
            Node::Int(number) => Ok(Got::Own(Value::Int(*number))),
            Node::Bool(truth) => Ok(Got::Own(Value::Bool(*truth))),
            Node::Variant(number, variant) => Ok(Got::Own(Value::Enum(*number, *variant))),
            Node::New(number, parts) => self.record(depth, *number, parts.as_slice(), slots),
            Node::Nothing => Ok(Got::Own(Value::Nothing)),
            Node::Empty => Ok(Got::Own(Value::List(Seq::new(self.alloc)))),
            Node::Some(part) => Ok(Got::Own(self.some(depth, *part, slots)?)),
            Node::Call(function, args) => self.call(depth, *function, args.as_slice(), slots),
            Node::Builtin(which, at, args) => {
                self.builtin(depth, *which, *at, args.as_slice(), slots)
            }
            Node::List(at, items) => self.list(depth, *at, items.as_slice(), slots),
            Node::Each { list, cond, value } => {
                self.comprehension(depth, *list, *cond, *value, slots)
            }
            Node::If(arms, other) => self.arms(depth, arms.as_slice(), *other, slots),
            Node::OrElse(left, right) => self.or_else(depth, *left, *right, slots),
            Node::Binary(which, at, left, right) => {
                Ok(Got::Own(self.binary(depth, *which, *at, *left, *right, slots)?))
            }
            Node::Not(part) => self.not(depth, *part, slots),
            Node::Neg(at, part) => self.neg(depth, *at, *part, slots),
            Node::Field(number, part) => self.field(depth, *number, *part, slots),
            Node::Index(at, list, index) => self.index(depth, *at, *list, *index, slots),
            Node::Unwrap(at, part) => self.unwrap(depth, *at, *part, slots),
        }
    }

    /// A record of what the expressions of its fields come to.
    #[cycle(evaluating)]
    #[inline(never)]
    fn record(
        &self,
        depth: u32,
        number: u32,
        parts: &[ExprId],
        slots: &mut Seq<Value>,
    ) -> Result<Got, EvalEnd>
        requires { node_mean (means_in (coded_of self.now) depth) self.now.functions.now (node_of.New number parts.now) slots.old ≢ Err Stuck }
        ensures gives { Reaches (node_mean (means_in (coded_of self.now) depth) self.now.functions.now (node_of.New number parts.now) slots.old) result slots.old }
        ensures keeps { slots.new ≡ slots.old }
    {
        let values = self.values(depth, parts, slots)?;
        Ok(Got::Own(Value::Rec(number, values)))
    }

    /// An option that holds a value.
    #[cycle(evaluating)]
    #[inline(never)]
    fn some(&self, depth: u32, part: ExprId, slots: &mut Seq<Value>) -> Result<Value, EvalEnd>
        requires { node_mean (means_in (coded_of self.now) depth) self.now.functions.now (node_of.Some part) slots.old ≢ Err Stuck }
        ensures gives { Gives (node_mean (means_in (coded_of self.now) depth) self.now.functions.now (node_of.Some part) slots.old) result }
        ensures keeps { slots.new ≡ slots.old }
    {
        let own = self.eval(depth, part, slots)?;
        Ok(Value::Some(Boxed::new(self.alloc, own)?))
    }

    /// A list of what some expressions come to.
    #[cycle(evaluating)]
    #[inline(never)]
    fn list(
        &self,
        depth: u32,
        at: u32,
        items: &[ExprId],
        slots: &mut Seq<Value>,
    ) -> Result<Got, EvalEnd>
        requires { node_mean (means_in (coded_of self.now) depth) self.now.functions.now (node_of.List at items.now) slots.old ≢ Err Stuck }
        ensures gives { Reaches (node_mean (means_in (coded_of self.now) depth) self.now.functions.now (node_of.List at items.now) slots.old) result slots.old }
        ensures keeps { slots.new ≡ slots.old }
    {
        let values = self.values(depth, items, slots)?;
        Ok(Got::Own(listed(at, values)?))
    }

    /// What an option holds, and else the expression to its right.
    #[cycle(evaluating)]
    #[tactic(auto, using(crate::proofs::Steps::steps))]
    #[inline(never)]
    fn or_else(
        &self,
        depth: u32,
        left: ExprId,
        right: ExprId,
        slots: &mut Seq<Value>,
    ) -> Result<Got, EvalEnd>
        requires { node_mean (means_in (coded_of self.now) depth) self.now.functions.now (node_of.OrElse left right) slots.old ≢ Err Stuck }
        ensures gives { Reaches (node_mean (means_in (coded_of self.now) depth) self.now.functions.now (node_of.OrElse left right) slots.old) result slots.old }
        ensures keeps { slots.new ≡ slots.old }
    {
        let got = self.reach(depth, left, slots)?;
        match held_of(got, slots)? {
            Some(inner) => Ok(inner),
            None => self.reach(depth, right, slots),
        }
    }

    /// An operator of two expressions.
    #[cycle(evaluating)]
    #[inline(never)]
    fn binary(
        &self,
        depth: u32,
        which: Binary,
        at: u32,
        left: ExprId,
        right: ExprId,
        slots: &mut Seq<Value>,
    ) -> Result<Value, EvalEnd>
        requires { node_mean (means_in (coded_of self.now) depth) self.now.functions.now (node_of.Binary which at left right) slots.old ≢ Err Stuck }
        ensures gives { Gives (node_mean (means_in (coded_of self.now) depth) self.now.functions.now (node_of.Binary which at left right) slots.old) result }
        ensures keeps { slots.new ≡ slots.old }
    {
        let own = self.eval(depth, left, slots)?;
        self.combined(depth, which, at, own, right, slots)
    }

    /// Whether an expression does not hold.
    #[cycle(evaluating)]
    #[inline(never)]
    fn not(&self, depth: u32, part: ExprId, slots: &mut Seq<Value>) -> Result<Got, EvalEnd>
        requires { node_mean (means_in (coded_of self.now) depth) self.now.functions.now (node_of.Not part) slots.old ≢ Err Stuck }
        ensures gives { Reaches (node_mean (means_in (coded_of self.now) depth) self.now.functions.now (node_of.Not part) slots.old) result slots.old }
        ensures keeps { slots.new ≡ slots.old }
    {
        let own = self.eval(depth, part, slots)?;
        Ok(Got::Own(denied(&own)))
    }

    /// A number with the other sign.
    #[cycle(evaluating)]
    #[inline(never)]
    fn neg(&self, depth: u32, at: u32, part: ExprId, slots: &mut Seq<Value>) -> Result<Got, EvalEnd>
        requires { node_mean (means_in (coded_of self.now) depth) self.now.functions.now (node_of.Neg at part) slots.old ≢ Err Stuck }
        ensures gives { Reaches (node_mean (means_in (coded_of self.now) depth) self.now.functions.now (node_of.Neg at part) slots.old) result slots.old }
        ensures keeps { slots.new ≡ slots.old }
    {
        let own = self.eval(depth, part, slots)?;
        Ok(Got::Own(negated(at, &own)?))
    }

    /// A field of a record. The record is not copied.
    #[cycle(evaluating)]
    #[inline(never)]
    fn field(
        &self,
        depth: u32,
        number: u32,
        part: ExprId,
        slots: &mut Seq<Value>,
    ) -> Result<Got, EvalEnd>
        requires { node_mean (means_in (coded_of self.now) depth) self.now.functions.now (node_of.Field number part) slots.old ≢ Err Stuck }
        ensures gives { Reaches (node_mean (means_in (coded_of self.now) depth) self.now.functions.now (node_of.Field number part) slots.old) result slots.old }
        ensures keeps { slots.new ≡ slots.old }
    {
        let got = self.reach(depth, part, slots)?;
        field_in(number, got, slots)
    }

    /// What an option holds, which must hold a value.
    #[cycle(evaluating)]
    #[inline(never)]
    fn unwrap(
        &self,
        depth: u32,
        at: u32,
        part: ExprId,
        slots: &mut Seq<Value>,
    ) -> Result<Got, EvalEnd>
        requires { node_mean (means_in (coded_of self.now) depth) self.now.functions.now (node_of.Unwrap at part) slots.old ≢ Err Stuck }
        ensures gives { Reaches (node_mean (means_in (coded_of self.now) depth) self.now.functions.now (node_of.Unwrap at part) slots.old) result slots.old }
        ensures keeps { slots.new ≡ slots.old }
    {
        let got = self.reach(depth, part, slots)?;
        inner_of(at, got, slots)
    }

    /// The item of a list at an index. The list is not copied.
    #[cycle(evaluating)]
    #[inline(never)]
    fn index(
        &self,
        depth: u32,
        at: u32,
        list: ExprId,
        index: ExprId,
        slots: &mut Seq<Value>,
    ) -> Result<Got, EvalEnd>
        requires { index_at (means_in (coded_of self.now) depth).part at list index slots.old ≢ Err Stuck }
        ensures gives { Reaches (index_at (means_in (coded_of self.now) depth).part at list index slots.old) result slots.old }
        ensures keeps { slots.new ≡ slots.old }
    {
        let got = self.reach(depth, list, slots)?;
        is_there(&got, slots);
        let place = self.eval(depth, index, slots)?;
        item_of(self.alloc, at, got, &place, slots)
    }

    /// What some expressions come to, in their order.
    #[cycle(evaluating)]
    fn values(
        &self,
        depth: u32,
        numbers: &[ExprId],
        slots: &mut Seq<Value>,
    ) -> Result<Seq<Value>, EvalEnd>
        requires { values_from (means_in (coded_of self.now) depth).part [] numbers.now slots.old ≢ Err Stuck }
        ensures gives { Gives (values_from (means_in (coded_of self.now) depth).part [] numbers.now slots.old) result }
        ensures keeps { slots.new ≡ slots.old }
    {
        let mut done = Seq::new(self.alloc);
        for number in numbers {
            done.push(self.eval(depth, *number, slots)?)?;
        }
        Ok(done)
    }

    /// A call of the function with a number, over what its arguments come to.
    #[cycle(evaluating)]
    #[inline(never)]
    fn call(
        &self,
        depth: u32,
        function: u32,
        args: &[ExprId],
        slots: &mut Seq<Value>,
    ) -> Result<Got, EvalEnd>
        requires { node_mean (means_in (coded_of self.now) depth) self.now.functions.now (node_of.Call function args.now) slots.old ≢ Err Stuck }
        ensures gives { Reaches (node_mean (means_in (coded_of self.now) depth) self.now.functions.now (node_of.Call function args.now) slots.old) result slots.old }
        ensures keeps { slots.new ≡ slots.old }
    {
        let mut values = self.values(depth, args, slots)?;
        match self.functions.get(function as usize) {
            Some(code) => Ok(Got::Own(self.run_code(depth, code, &mut values)?)),
            None => unreachable!(),
        }
    }

    /// A function's value, behind its block.
    #[cycle(evaluating)]
    fn run_code(&self, depth: u32, code: &FnCode, slots: &mut Seq<Value>) -> Result<Value, EvalEnd>
        requires { run_code (means_in (coded_of self.now) depth) code.now slots.old ≢ Err Stuck }
        ensures { Gives (run_code (means_in (coded_of self.now) depth) code.now slots.old) result }
    {
        let mut sends = Seq::new(self.alloc);
        self.block(depth, code.block, slots, &mut sends)?;
        self.eval(depth, code.value, slots)
    }

    /// A builtin of its arguments. A single one is not copied.
    #[cycle(evaluating)]
    #[inline(never)]
    fn builtin(
        &self,
        depth: u32,
        which: Builtin,
        at: u32,
        args: &[ExprId],
        slots: &mut Seq<Value>,
    ) -> Result<Got, EvalEnd>
        requires { builtin_at (means_in (coded_of self.now) depth).part which at args.now slots.old ≢ Err Stuck }
        ensures gives { Reaches (builtin_at (means_in (coded_of self.now) depth).part which at args.now slots.old) result slots.old }
        ensures keeps { slots.new ≡ slots.old }
    {
        match args {
            [one] => {
                let first = self.reach(depth, *one, slots)?;
                Ok(Got::Own(one_of(which, first, slots)?))
            }
            [one, two] => {
                let first = self.eval(depth, *one, slots)?;
                let second = self.eval(depth, *two, slots)?;
                Ok(Got::Own(of_two(self.alloc, which, at, first, second)?))
            }
            [one, two, three] => {
                let first = self.eval(depth, *one, slots)?;
                let second = self.eval(depth, *two, slots)?;
                let third = self.eval(depth, *three, slots)?;
                Ok(Got::Own(of_three(which, at, first, second, third)?))
            }
            _ => unreachable!(),
        }
    }

    /// An operator of the value to its left, and of the expression to its right, which `or` and
    /// `and` do not always look at.
    #[cycle(evaluating)]
    fn combined(
        &self,
        depth: u32,
        which: Binary,
        at: u32,
        left: Value,
        right: ExprId,
        slots: &mut Seq<Value>,
    ) -> Result<Value, EvalEnd>
        requires { combined which at left ((means_in (coded_of self.now) depth).part right slots.old) ≢ Err Stuck }
        ensures gives { Gives (combined which at left ((means_in (coded_of self.now) depth).part right slots.old)) result }
        ensures keeps { slots.new ≡ slots.old }
    {
        match which {
            Binary::Or => {
                if truth_of(&left) {
                    Ok(Value::Bool(true))
                } else {
                    self.eval(depth, right, slots)
                }
            }
            Binary::And => {
                if truth_of(&left) {
                    self.eval(depth, right, slots)
                } else {
                    Ok(Value::Bool(false))
                }
            }
            _ => {
                let other = self.eval(depth, right, slots)?;
                operated(which, at, left, other)
            }
        }
    }

    /// The list that a comprehension makes of another.
    #[cycle(evaluating)]
    #[inline(never)]
    fn comprehension(
        &self,
        depth: u32,
        list: ExprId,
        cond: Option<ExprId>,
        number: ExprId,
        slots: &mut Seq<Value>,
    ) -> Result<Got, EvalEnd>
        requires { node_mean (means_in (coded_of self.now) depth) self.now.functions.now (node_of.Each list cond number) slots.old ≢ Err Stuck }
        ensures gives { Reaches (node_mean (means_in (coded_of self.now) depth) self.now.functions.now (node_of.Each list cond number) slots.old) result slots.old }
        ensures keeps { slots.new ≡ slots.old }
    {
        let own = self.eval(depth, list, slots)?;
        let values = self.each(depth, cond, number, items_of(own), slots)?;
        Ok(Got::Own(Value::List(values)))
    }

    /// A comprehension's values, for the items of its list.
    #[cycle(evaluating)]
    fn each(
        &self,
        depth: u32,
        cond: Option<ExprId>,
        number: ExprId,
        items: Seq<Value>,
        slots: &mut Seq<Value>,
    ) -> Result<Seq<Value>, EvalEnd>
        requires { each_from (means_in (coded_of self.now) depth).part cond number [] items slots.old ≢ Err Stuck }
        ensures gives { Gives (each_from (means_in (coded_of self.now) depth).part cond number [] items slots.old) result }
        ensures keeps { slots.new ≡ slots.old }
    {
        let mut done = Seq::new(self.alloc);
        for item in items.into_vec() {
            self.each_one(depth, cond, number, item, &mut done, slots)?;
        }
        Ok(done)
    }

    /// Adds a comprehension's value for one item, if its condition holds.
    #[cycle(evaluating)]
    fn each_one(
        &self,
        depth: u32,
        cond: Option<ExprId>,
        number: ExprId,
        item: Value,
        done: &mut Seq<Value>,
        slots: &mut Seq<Value>,
    ) -> Result<(), EvalEnd>
        requires { one_kept (means_in (coded_of self.now) depth).part cond number done.old (slots.old ++ item ∷ []) ≢ Err Stuck }
        ensures adds { Adds (one_kept (means_in (coded_of self.now) depth).part cond number done.old (slots.old ++ item ∷ [])) result done.new }
        ensures keeps { slots.new ≡ slots.old }
    {
        let size = slots.len();
        slots.push(item)?;
        let end = self.kept(depth, cond, number, done, slots);
        slots.truncate(size);
        end
    }

    /// The same, with the item in the last slot.
    #[cycle(evaluating)]
    fn kept(
        &self,
        depth: u32,
        cond: Option<ExprId>,
        number: ExprId,
        done: &mut Seq<Value>,
        slots: &mut Seq<Value>,
    ) -> Result<(), EvalEnd>
        requires { one_kept (means_in (coded_of self.now) depth).part cond number done.old slots.old ≢ Err Stuck }
        ensures adds { Adds (one_kept (means_in (coded_of self.now) depth).part cond number done.old slots.old) result done.new }
        ensures keeps { slots.new ≡ slots.old }
    {
        if self.holds(depth, cond, slots)? {
            let value = self.eval(depth, number, slots)?;
            done.push(value)?;
        }
        Ok(())
    }

    /// Whether a condition holds; one that is left out does.
    #[cycle(evaluating)]
    fn holds(
        &self,
        depth: u32,
        cond: Option<ExprId>,
        slots: &mut Seq<Value>,
    ) -> Result<bool, EvalEnd>
        requires { holds_at (means_in (coded_of self.now) depth).part cond slots.old ≢ Err Stuck }
        ensures gives { Gives (holds_at (means_in (coded_of self.now) depth).part cond slots.old) result }
        ensures keeps { slots.new ≡ slots.old }
    {
        match cond {
            Some(cond) => {
                let test = self.eval(depth, cond, slots)?;
                Ok(truth_of(&test))
            }
            None => Ok(true),
        }
    }

    /// The value behind the first condition that holds, and else the last one.
    #[cycle(evaluating)]
    #[inline(never)]
    fn arms(
        &self,
        depth: u32,
        arms: &[NodeArm],
        other: ExprId,
        slots: &mut Seq<Value>,
    ) -> Result<Got, EvalEnd>
        requires { arms_from (means_in (coded_of self.now) depth).part arms.now other slots.old ≢ Err Stuck }
        ensures gives { Reaches (arms_from (means_in (coded_of self.now) depth).part arms.now other slots.old) result slots.old }
        ensures keeps { slots.new ≡ slots.old }
    {
        for arm in arms {
            let test = self.eval(depth, arm.cond, slots)?;
            if truth_of(&test) {
                return self.reach(depth, arm.value, slots);
            }
        }
        self.reach(depth, other, slots)
    }

    /// Runs the block with a number over slots and sends, to a depth, where it comes to its end or to
    /// a fault: the answer is the first fault with its place, if there is one, and the slots and the
    /// sends are those that the statements left. `Memory` where memory runs out; then they are those
    /// of a state that the statements pass through.
    #[cycle(evaluating)]
    #[tactic(auto, using(crate::proofs::Depths::depths))]
    pub fn block(
        &self,
        depth: u32,
        number: BlockId,
        slots: &mut Seq<Value>,
        sends: &mut Seq<Item>,
    ) -> Result<(), EvalEnd>
        requires { why ((means_in (coded_of self.now) depth).run number (state_of slots.old sends.old)) ≢ Some Stuck }
        ensures flows { Flows ((means_in (coded_of self.now) depth).run number (state_of slots.old sends.old)) result slots.new sends.new }
        ensures passes { result ≡ Err EvalEnd.Memory → PassesIn (coded_of self.now) depth number (state_of slots.old sends.old) (state_of slots.new sends.new) }
    {
        if depth == 0 {
            unreachable!()
        }
        match self.tables.blocks.get(number.0 as usize) {
            Some(acts) => self.acts(depth - 1, acts.as_slice(), slots, sends),
            None => unreachable!(),
        }
    }

    /// Runs statements in their order.
    #[cycle(evaluating)]
    fn acts(
        &self,
        depth: u32,
        acts: &[Act],
        slots: &mut Seq<Value>,
        sends: &mut Seq<Item>,
    ) -> Result<(), EvalEnd>
        requires { why (acts_flow (means_in (coded_of self.now) depth) acts.now (state_of slots.old sends.old)) ≢ Some Stuck }
        ensures flows { Flows (acts_flow (means_in (coded_of self.now) depth) acts.now (state_of slots.old sends.old)) result slots.new sends.new }
        ensures passes { result ≡ Err EvalEnd.Memory → ActsPass (means_in (coded_of self.now) depth) (PassesIn (coded_of self.now) depth) acts.now (state_of slots.old sends.old) (state_of slots.new sends.new) }
    {
        for act in acts {
            self.act(depth, act, slots, sends)?;
        }
        Ok(())
    }

    /// Runs one statement.
    #[cycle(evaluating)]
    fn act(
        &self,
        depth: u32,
        act: &Act,
        slots: &mut Seq<Value>,
        sends: &mut Seq<Item>,
    ) -> Result<(), EvalEnd>
        requires { why (act_flow (means_in (coded_of self.now) depth) act.now (state_of slots.old sends.old)) ≢ Some Stuck }
        ensures flows { Flows (act_flow (means_in (coded_of self.now) depth) act.now (state_of slots.old sends.old)) result slots.new sends.new }
        ensures passes { result ≡ Err EvalEnd.Memory → ActPasses (means_in (coded_of self.now) depth) (PassesIn (coded_of self.now) depth) act.now (state_of slots.old sends.old) (state_of slots.new sends.new) }
    {
        match act {
            Act::Let(number) => {
                let value = self.eval(depth, *number, slots)?;
                slots.push(value)?;
                Ok(())
            }
            Act::Set(slot, number) => self.set(depth, *slot, *number, slots, sends),
            Act::Send(port, number) => {
                let value = self.eval(depth, *number, slots)?;
                sends.push(Item { port: *port, value })?;
                Ok(())
            }
            Act::If(arms, last) => self.act_arms(depth, arms.as_slice(), *last, slots, sends),
            Act::For(list, block) => {
                let own = self.eval(depth, *list, slots)?;
                self.for_each(depth, *block, items_of(own), slots, sends)
            }
        }
    }

    /// Assigns what an expression comes to. A list that is made anew from the list in the same slot is
    /// changed where it is, and a number that is made of numbers is written there.
    #[cycle(evaluating)]
    fn set(
        &self,
        depth: u32,
        slot: u32,
        number: ExprId,
        slots: &mut Seq<Value>,
        sends: &Seq<Item>,
    ) -> Result<(), EvalEnd>
        requires { why (act_flow (means_in (coded_of self.now) depth) (act_of.Set slot number) (state_of slots.old sends.now)) ≢ Some Stuck }
        ensures flows { Flows (act_flow (means_in (coded_of self.now) depth) (act_of.Set slot number) (state_of slots.old sends.now)) result slots.new sends.now }
        ensures passes { result ≡ Err EvalEnd.Memory → state_of slots.new sends.now ≡ state_of slots.old sends.now }
    {
        if let Some(change) = own_change(&self.tables.nodes, slot, number) {
            changes_are_assignments();
            return self.change(depth.saturating_sub(1), slot, change, slots, sends);
        }
        if let Some(own) = self.reckon(depth, number, slots) {
            return set_number(slot, own, slots, sends);
        }
        let value = self.eval(depth, number, slots)?;
        set_slot(slot, value, slots, sends)
    }

    /// Changes the list in a slot.
    #[cycle(evaluating)]
    fn change(
        &self,
        depth: u32,
        slot: u32,
        change: Change,
        slots: &mut Seq<Value>,
        sends: &Seq<Item>,
    ) -> Result<(), EvalEnd>
        requires { why (changed_in (means_in (coded_of self.now) depth).part slot change (state_of slots.old sends.now)) ≢ Some Stuck }
        ensures flows { Flows (changed_in (means_in (coded_of self.now) depth).part slot change (state_of slots.old sends.now)) result slots.new sends.now }
        ensures keeps { result ≡ Err EvalEnd.Memory → slots.new ≡ slots.old }
    {
        match change {
            Change::By(which, at, number) => {
                let own = self.eval(depth, number, slots)?;
                change_slot(which, at, slot, own, slots, sends)
            }
            Change::Put(at, index, number) => {
                let place = self.eval(depth, index, slots)?;
                let own = self.eval(depth, number, slots)?;
                put_slot(at, slot, &place, own, slots, sends)
            }
        }
    }

    /// Whether the condition of a statement holds.
    #[cycle(evaluating)]
    fn test(
        &self,
        depth: u32,
        cond: ExprId,
        slots: &mut Seq<Value>,
        sends: &Seq<Item>,
    ) -> Result<bool, EvalEnd>
        requires { why (test_at (means_in (coded_of self.now) depth).part cond (state_of slots.old sends.now)) ≢ Some Stuck }
        ensures gives { Tests (test_at (means_in (coded_of self.now) depth).part cond (state_of slots.old sends.now)) result slots.old sends.now }
        ensures keeps { slots.new ≡ slots.old }
    {
        let test = self.eval(depth, cond, slots)?;
        Ok(truth_of(&test))
    }

    /// Runs the block behind the first condition that holds, and else the last one, if there is one.
    #[cycle(evaluating)]
    fn act_arms(
        &self,
        depth: u32,
        arms: &[ActArm],
        last: Option<BlockId>,
        slots: &mut Seq<Value>,
        sends: &mut Seq<Item>,
    ) -> Result<(), EvalEnd>
        requires { why (arms_flow (means_in (coded_of self.now) depth) arms.now last (state_of slots.old sends.old)) ≢ Some Stuck }
        ensures flows { Flows (arms_flow (means_in (coded_of self.now) depth) arms.now last (state_of slots.old sends.old)) result slots.new sends.new }
        ensures passes { result ≡ Err EvalEnd.Memory → ArmsPass (means_in (coded_of self.now) depth) (PassesIn (coded_of self.now) depth) arms.now last (state_of slots.old sends.old) (state_of slots.new sends.new) }
    {
        for arm in arms {
            if self.test(depth, arm.cond, slots, sends)? {
                return self.braced(depth, arm.then, slots, sends);
            }
        }
        match last {
            Some(block) => self.braced(depth, block, slots, sends),
            None => Ok(()),
        }
    }

    /// Runs a block, and takes back the slots that it added.
    #[cycle(evaluating)]
    fn braced(
        &self,
        depth: u32,
        block: BlockId,
        slots: &mut Seq<Value>,
        sends: &mut Seq<Item>,
    ) -> Result<(), EvalEnd>
        requires { why (braced_at (means_in (coded_of self.now) depth).run block (state_of slots.old sends.old)) ≢ Some Stuck }
        ensures flows { Flows (braced_at (means_in (coded_of self.now) depth).run block (state_of slots.old sends.old)) result slots.new sends.new }
        ensures passes { result ≡ Err EvalEnd.Memory → BracedPasses (PassesIn (coded_of self.now) depth) block (state_of slots.old sends.old) (state_of slots.old sends.old) (state_of slots.new sends.new) }
    {
        let size = slots.len();
        let end = self.block(depth, block, slots, sends);
        slots.truncate(size);
        end
    }

    /// Runs a block over one more slot, which it takes back.
    #[cycle(evaluating)]
    fn once(
        &self,
        depth: u32,
        block: BlockId,
        item: Value,
        slots: &mut Seq<Value>,
        sends: &mut Seq<Item>,
    ) -> Result<(), EvalEnd>
        requires { why (once (means_in (coded_of self.now) depth).run block item (state_of slots.old sends.old)) ≢ Some Stuck }
        ensures flows { Flows (once (means_in (coded_of self.now) depth).run block item (state_of slots.old sends.old)) result slots.new sends.new }
        ensures passes { result ≡ Err EvalEnd.Memory → (state_of slots.new sends.new ≡ state_of slots.old sends.old) ⊎ BracedPasses (PassesIn (coded_of self.now) depth) block (with_slot item (state_of slots.old sends.old)) (state_of slots.old sends.old) (state_of slots.new sends.new) }
    {
        let size = slots.len();
        slots.push(item)?;
        let end = self.block(depth, block, slots, sends);
        slots.truncate(size);
        end
    }

    /// Runs a block for each item in order.
    #[cycle(evaluating)]
    fn for_each(
        &self,
        depth: u32,
        block: BlockId,
        items: Seq<Value>,
        slots: &mut Seq<Value>,
        sends: &mut Seq<Item>,
    ) -> Result<(), EvalEnd>
        requires { why (for_each (means_in (coded_of self.now) depth).run block items (state_of slots.old sends.old)) ≢ Some Stuck }
        ensures flows { Flows (for_each (means_in (coded_of self.now) depth).run block items (state_of slots.old sends.old)) result slots.new sends.new }
        ensures passes { result ≡ Err EvalEnd.Memory → EachPasses (means_in (coded_of self.now) depth) (PassesIn (coded_of self.now) depth) block items (state_of slots.old sends.old) (state_of slots.new sends.new) }
    {
        for item in items.into_vec() {
            self.once(depth, block, item, slots, sends)?;
        }
        Ok(())
    }
}
