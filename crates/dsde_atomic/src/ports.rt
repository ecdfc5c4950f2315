//! The ports and the places of models.

ghost use Rattle.std.specs.Prelude.{◌≡◌, ◌<◌, true, List, length};
ghost use Rattle.dsde_values.specs.declared.value.Value.{Value};
ghost use Rattle.dsde_language.specs.NodeModels.{infos_of};
ghost use Rattle.dsde_system.specs.Program.{system};

use crate::body::code_of;
use dsde_eval::given::program::Program;
use dsde_language::ModelId;

/// How many in ports the atomic model with a number has, or the executive of the network.
pub fn ports_in(program: &Program, model: ModelId) -> usize
    requires { model.0 < length (infos_of program.now) }
    ensures { (args : List Value) → ((system program.now).component model args).ins ≡ result }
{
    let info = program.info(model);
    if info.network {
        return info.boss_ins.len();
    }
    info.ins.len()
}

/// How many out ports the atomic model with a number has, or the executive of the network.
pub fn ports_out(program: &Program, model: ModelId) -> usize
    requires { model.0 < length (infos_of program.now) }
    ensures { (args : List Value) → ((system program.now).component model args).outs ≡ result }
{
    let info = program.info(model);
    if info.network {
        return info.boss_outs.len();
    }
    info.outs.len()
}

/// Whether the model with a number is a network.
pub fn is_network(program: &Program, model: ModelId) -> bool
    requires { model.0 < length (infos_of program.now) }
    ensures { (system program.now).is_network model ≡ result }
{
    program.info(model).network
}

/// How many in ports the network with a number has, as those see them that link to it.
pub fn network_in(program: &Program, model: ModelId) -> usize
    requires below { model.0 < length (infos_of program.now) }
    requires network { (system program.now).is_network model ≡ true }
    ensures { (args : List Value) → ((system program.now).network model args).ins ≡ result }
{
    program.info(model).ins.len()
}

/// How many out ports the network with a number has, as those see them that link to it.
pub fn network_out(program: &Program, model: ModelId) -> usize
    requires below { model.0 < length (infos_of program.now) }
    requires network { (system program.now).is_network model ≡ true }
    ensures { (args : List Value) → ((system program.now).network model args).outs ≡ result }
{
    program.info(model).outs.len()
}

/// The place of the word `network` of the network with a number.
pub fn network_at(program: &Program, model: ModelId) -> u32
    requires { model.0 < length (infos_of program.now) }
    ensures { (args : List Value) → ((system program.now).network model args).at ≡ result }
{
    program.info(model).at
}

/// The place of the word `atomic` of the atomic model with a number, or `exec` of the network.
pub fn component_at(program: &Program, model: ModelId) -> u32
    requires { model.0 < length (infos_of program.now) }
    ensures { (args : List Value) → ((system program.now).component model args).at ≡ result }
{
    code_of(program, model).start_at
}
