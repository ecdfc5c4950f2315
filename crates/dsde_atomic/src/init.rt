//! The first values of state variables.

ghost use Rattle.std.specs.Prelude.{IfOk};
ghost use Rattle.dsde_system.specs.given.formalism.Leaf.{Gives};
ghost use Rattle.dsde_system.specs.Program.{system};
ghost use Rattle.dsde_system.specs.Fitting.{FitsArgs, FitsState};
ghost use Rattle.dsde_atomic.specs.Steps.{Begins};

use crate::body::{at_site, behind, code_of};
use dsde_eval::given::program::Program;
use dsde_eval::{Env, eval};
use dsde_faults::{EvalEnd, LeafEnd, Site};
use dsde_language::ModelId;
use dsde_values::{Values, copy_values};
use std::alloc::Global;

/// The initial state: the first value of each state variable, in their order.
pub(crate) fn init(
    alloc: Global,
    program: &Program,
    model: ModelId,
    args: &Values,
) -> Result<Values, LeafEnd>
    requires { FitsArgs program.now model.0 args.now }
    ensures gives { Gives ((system program.now).component model args.now).init result }
    ensures fits { IfOk result (λ state. FitsState program.now model.0 state) }
{
    let slots = copy_values(alloc, args.as_slice())?;
    let mut env = Env { slots };
    match begin(alloc, program, model, &mut env) {
        Ok(()) => Ok(behind(env.slots, args.len())),
        Err(end) => Err(at_site(Site::Init, end)),
    }
}

/// Puts the first value of each state variable behind the arguments, each over what is before it.
fn begin(alloc: Global, program: &Program, model: ModelId, env: &mut Env) -> Result<(), EvalEnd>
    requires { FitsArgs program.now model.0 env.old.slots }
    ensures { Begins program.now model.0 env.old.slots result env.new.slots }
{
    let code = code_of(program, model);
    let numbers = code.inits.as_slice();
    for number in numbers {
        let value = eval(alloc, program, *number, env)?;
        env.slots.push(value)?;
    }
    Ok(())
}
