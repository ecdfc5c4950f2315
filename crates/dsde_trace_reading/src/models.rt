//! What a program says of its models.

ghost use Rattle.std.specs.Prelude.{◌≡◌, ◌<◌, ℕ, Bool, length};
ghost use Rattle.dsde_language.specs.DeclaredModels.{top_outs, types_of};
ghost use Rattle.dsde_language.specs.NodeModels.{infos_of};
ghost use Rattle.dsde_values.specs.Value.{IsLawful};
ghost use Rattle.dsde_program_layout.specs.Declared.{leaf_ins};
ghost use Rattle.dsde_trace_reading.specs.Lines.{network_at};
ghost use Rattle.dsde_trace_reading.specs.Parts.{IsTold, model_at};

use dsde_language::{Info, ModelId};
use dsde_program_layout::infos_are_declared;
use dsde_sound_structures::{top_is_declared, types_are_lawful};
use dsde_trace::given::program::Program;
use dsde_values::{Field, Types};

/// What the model with a number declares.
pub fn info_of<'p>(program: &'p Program, number: u32) -> &'p Info
    requires { number < length (infos_of program.now) }
    ensures { IsTold program.now (model_at number) result.now }
{
    // A law: what is told of a model is what its declaration says.
    infos_are_declared();
    program.info(ModelId(number))
}

/// How many models there are: each model has a number below.
pub fn count_of(program: &Program) -> u32
    ensures count { result ≡ length (infos_of program.now) }
    ensures all { (number : ℕ) (network : Bool) → network_at program.now (model_at number) ≡ Some network → number < result }
{
    // A law: what is told of a model is what its declaration says.
    infos_are_declared();
    program.models()
}

/// The in ports of the atomic model, or of the network's executive.
pub fn ins_of(info: &Info) -> &[Field]
    ensures { result.now ≡ leaf_ins info.now }
{
    if info.network {
        return info.boss_ins.as_slice();
    }
    info.ins.as_slice()
}

/// The out ports of the model that runs.
pub fn outs_of<'p>(program: &'p Program) -> &'p [Field]
    ensures { result.now ≡ top_outs program.now }
{
    program.right();
    // Laws: the model that runs is one of the file's, and what is told of it is what it declares.
    top_is_declared();
    infos_are_declared();
    program.info(program.top_model()).outs.as_slice()
}

/// The types of the program.
pub fn types_of<'p>(program: &'p Program) -> &'p Types
    ensures value { result.now ≡ types_of program.now }
    ensures lawful { IsLawful result.now }
{
    program.right();
    // A law: the types of a model in which nothing is wrong are lawful.
    types_are_lawful();
    program.types()
}
