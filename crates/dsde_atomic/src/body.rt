//! The bodies of models, and the values that they see.

ghost use Rattle.std.specs.Prelude.{◌≡◌, ◌<◌, ◌≤◌, Some, length, drop};
ghost use Rattle.dsde_language.specs.NodeModels.{infos_of};
ghost use Rattle.dsde_language.specs.DeclaredModels.{Own};
ghost use Rattle.dsde_system.specs.given.sound_expressions.Bodies.{BodyStands};
ghost use Rattle.dsde_atomic.specs.Steps.{own_at, sited};

use crate::laws::laws;
use dsde_eval::given::program::Program;
use dsde_faults::{EvalEnd, LeafEnd, Site};
use dsde_language::{Code, ModelId};
use dsde_values::{Seq, Values};

/// The body of the atomic model with a number, or of the network's executive.
pub(crate) fn code_of<'p>(program: &'p Program, model: ModelId) -> &'p Code
    requires { model.0 < length (infos_of program.now) }
    ensures { (own : Own) → own_at program.now model.0 ≡ Some own → BodyStands program.now own result.now }
{
    laws();
    program.right();
    program.code(model)
}

/// An end in a part of a component.
pub(crate) fn at_site(site: Site, end: EvalEnd) -> LeafEnd
    ensures { result ≡ sited site end }
{
    match end {
        EvalEnd::Fault(kind, at) => LeafEnd::Fault(site, kind, at),
        EvalEnd::Memory => LeafEnd::Memory,
    }
}

/// The values behind the first ones.
pub(crate) fn behind(values: Values, count: usize) -> Values
    requires { count ≤ length values }
    ensures { result ≡ drop count values }
{
    let mut all = values.into_vec();
    let size = all.len();
    all.rotate_left(count);
    all.truncate(size - count);
    Seq::from_vec(all)
}
