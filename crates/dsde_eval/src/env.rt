//! Expressions and blocks by their numbers.

ghost use Rattle.std.specs.Prelude.{◌≡◌, Ok, Err, IfSome};
ghost use Rattle.dsde_values.specs.declared.value.Value.TheVariants as value;
ghost use Rattle.dsde_language.specs.MeaningTables.{state_of};
ghost use Rattle.dsde_sound_expressions.specs.Coded.{coded_of};
ghost use Rattle.dsde_eval_tables.specs.declared.evaluator.Evaluator.{Evaluator};
ghost use Rattle.dsde_eval_tables.specs.Evaluating as evaluating;
ghost use Rattle.dsde_eval_tables.specs.Passing.{PassesIn};
ghost use Rattle.dsde_sound_expressions.specs.Conditions.{CanEval, Came, CanRun, Ran};

use crate::laws::laws;
use dsde_eval_tables::{Evaluator, GREATEST_HEIGHT};
use dsde_faults::EvalEnd;
use dsde_language::{BlockId, ExprId};
use dsde_program::Program;
use dsde_values::{Item, Seq, Value, Values};
use std::alloc::Global;

/// The values that an expression or a block sees, each in its slot.
#[derive(Drop)]
pub struct Env {
    pub slots: Values,
}

/// What evaluates the expressions of a program.
fn evaluator<'p>(alloc: Global, program: &'p Program) -> Evaluator<'p>
    ensures { evaluating.coded_of result ≡ coded_of program.now }
{
    Evaluator {
        alloc,
        tables: program.tables(),
        functions: program.functions(),
    }
}

/// What the expression with a number comes to: a value, exactly what it means over the values of
/// its slots, or the first fault. The slots are then as they were.
pub fn eval(alloc: Global, program: &Program, expr: ExprId, env: &mut Env) -> Result<Value, EvalEnd>
    requires { CanEval program.now expr.0 env.old.slots }
    ensures means { Came program.now expr.0 env.old.slots result }
    ensures keeps { env.new ≡ env.old }
{
    laws();
    program.right();
    evaluator(alloc, program).eval(GREATEST_HEIGHT, expr, &mut env.slots)
}

/// The whole number in the option that the expression with a number comes to, if it can be told
/// before the option is made: where it is made of numbers that are spelled or stand in the slots.
pub fn held_number(alloc: Global, program: &Program, expr: ExprId, env: &Env) -> Option<i64>
    ensures { IfSome result (λ number. Came program.now expr.0 env.now.slots (Ok (value.Some (value.Int number)))) }
{
    laws();
    program.right();
    evaluator(alloc, program).held_number(GREATEST_HEIGHT, expr, &env.slots)
}

/// Runs the block with a number. The slots are then those behind its statements, or where the first
/// fault stopped them, and what they sent stands behind what was sent before. Where memory runs out
/// both are as they were before one of the statements or behind the last, in the program's tables.
pub fn run_block(
    alloc: Global,
    program: &Program,
    block: BlockId,
    env: &mut Env,
    sends: &mut Seq<Item>,
) -> Result<(), EvalEnd>
    requires { CanRun program.now block.0 env.old.slots sends.old }
    ensures ran { Ran program.now block.0 env.old.slots sends.old result env.new.slots sends.new }
    ensures passes { result ≡ Err EvalEnd.Memory → PassesIn (coded_of program.now) 513 block (state_of env.old.slots sends.old) (state_of env.new.slots sends.new) }
{
    laws();
    program.right();
    evaluator(alloc, program).block(GREATEST_HEIGHT + 1, block, &mut env.slots, sends)
}
