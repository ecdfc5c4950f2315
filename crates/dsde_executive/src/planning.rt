//! Structures.

ghost use Rattle.std.specs.Prelude.{◌≡◌, ◌++◌, true, IfOk};
ghost use Rattle.dsde_sound_structures.specs.given.sound_expressions.Coded.{coded_of};
ghost use Rattle.dsde_executive_planner.specs.given.eval_tables.Evaluating as evaluating;
ghost use Rattle.dsde_executive_planner.specs.declared.planner.Planner.{Planner};
ghost use Rattle.dsde_sound_structures.specs.given.sound_expressions.Structures.{StructuresStand};
ghost use Rattle.dsde_sound_structures.specs.Agreement.{StructuresAgree};
ghost use Rattle.dsde_sound_structures.specs.given.formalism.Leaf.{Gives};
ghost use Rattle.dsde_sound_structures.specs.given.system.Program.{system};
ghost use Rattle.dsde_sound_structures.specs.given.system.Fitting.{FitsArgs, FitsState};
ghost use Rattle.dsde_executive.specs.Structure.{in_structure, IsPlan};

use dsde_executive_planner::Planner;
use dsde_executive_planner::given::eval_tables::{Evaluator, GREATEST_HEIGHT, slots_of};
use dsde_executive_planner::given::structure::Plan;
use dsde_faults::EvalEnd;
use dsde_language::ModelId;
use dsde_lists::Memory;
use dsde_program::Program;
use dsde_sound_structures::given::sound_expressions::structures_stand;
use dsde_sound_structures::structures_agree;
use dsde_values::{Values, copy_values};
use std::alloc::Global;

/// Laws: the structures of a model in which nothing is wrong stand at their numbers, and give in
/// tables the plans that they give over names, which fit their networks.
fn laws()
    ensures stand { StructuresStand }
    ensures agree { StructuresAgree }
{
    structures_stand();
    structures_agree();
}

/// What plans the structures of a program.
fn planner<'p>(alloc: Global, program: &'p Program) -> Planner<'p>
    ensures coded { evaluating.coded_of result.evaluator ≡ coded_of program.now }
    ensures depth { result.depth ≡ 512 }
{
    let evaluator = Evaluator {
        alloc,
        tables: program.tables(),
        functions: program.functions(),
    };
    Planner {
        evaluator,
        depth: GREATEST_HEIGHT,
    }
}

/// What a structure sees: copies of the arguments, and of the state behind them.
fn seen(alloc: Global, args: &Values, state: &Values) -> Result<Values, Memory>
    ensures { IfOk result (λ slots. slots ≡ args.now ++ state.now) }
{
    let state = copy_values(alloc, state.as_slice())?;
    slots_of(alloc, args, state)
}

/// The structure of a network with these arguments in this state of its executive: its components in
/// the order of their names, which are distinct, with arguments of their parameters' types, and its
/// links in the order in which the structure gives them, between ports that there are, none from the
/// network to itself. Or the first fault with its place.
pub fn structure(
    alloc: Global,
    program: &Program,
    model: ModelId,
    args: &Values,
    state: &Values,
) -> Result<Plan, EvalEnd>
    requires network { (system program.now).is_network model ≡ true }
    requires args { FitsArgs program.now model.0 args.now }
    requires state { FitsState program.now model.0 state.now }
    ensures gives { Gives (((system program.now).network model args.now).structure state.now) (in_structure result) }
    ensures fits { IfOk result (λ plan. IsPlan program.now model.0 plan) }
{
    laws();
    program.right();
    let slots = seen(alloc, args, state)?;
    let makes = program.makes(model);
    planner(alloc, program).plan(makes.as_slice(), slots)
}
