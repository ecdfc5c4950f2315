//! The model that runs.

ghost use Rattle.std.specs.Prelude.{IfOk};
ghost use Rattle.dsde_language.specs.DeclaredModels.{top_number};
ghost use Rattle.dsde_system.specs.Program.{system};
ghost use Rattle.dsde_system.specs.Fitting.{FitsArgs, Topped};

use crate::body::at_site;
use crate::laws::laws;
use dsde_eval::given::program::Program;
use dsde_eval::{Env, eval};
use dsde_faults::{LeafEnd, Site};
use dsde_values::{Seq, Values};
use std::alloc::Global;

/// The arguments of the model that runs.
pub fn top_args(alloc: Global, program: &Program) -> Result<Values, LeafEnd>
    ensures gives { Topped (system program.now).top (top_number program.now) result }
    ensures fits { IfOk result (λ args. FitsArgs program.now (top_number program.now).0 args) }
{
    laws();
    program.right();
    let mut env = Env {
        slots: Seq::new(alloc),
    };
    let mut args = Seq::new(alloc);
    let numbers = program.top_args().as_slice();
    for number in numbers {
        match eval(alloc, program, *number, &mut env) {
            Ok(value) => args.push(value)?,
            Err(end) => return Err(at_site(Site::Top, end)),
        }
    }
    Ok(args)
}
