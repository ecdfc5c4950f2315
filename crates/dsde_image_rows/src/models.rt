//! What texts say of the models of a program.

ghost use Rattle.std.specs.Prelude.{◌≡◌, ◌<◌, length, IfOk, IfSome};
ghost use Rattle.std.specs.Str.{bytes_eq};
ghost use Rattle.dsde_language.specs.NodeModels.{infos_of};
ghost use Rattle.dsde_sound_structures.specs.given.system.Fitting.{FitsArgs, FitsState};
ghost use Rattle.dsde_image_rows.specs.Script.{script};

use crate::reading::values_of;
use dsde_input_records::value_is_spelled;
use dsde_language::ModelId;
use dsde_program_layout::infos_are_declared;
use dsde_sim_starting::given::program::Program;
use dsde_sound_structures::types_are_lawful;
use dsde_values::{Memory, Text, Values};
use std::alloc::Global;

/// The name of the model with a number.
pub fn name_of(alloc: Global, program: &Program, model: ModelId) -> Result<Text, Memory>
    requires { model.0 < length (infos_of program.now) }
    ensures { IfOk result (λ text. text ≡ (script program.now).model model) }
{
    infos_are_declared();
    Text::from_slice(alloc, program.info(model).name.as_slice())
}

/// Whether a text is the name of the model with a number.
pub fn is_named(program: &Program, model: ModelId, text: &[u8]) -> bool
    requires { model.0 < length (infos_of program.now) }
    ensures { result ≡ bytes_eq text.now ((script program.now).model model) }
{
    infos_are_declared();
    text == program.info(model).name.as_slice()
}

/// The arguments of the model with a number that texts spell, one each, if they spell them.
pub fn args_of(
    alloc: Global,
    program: &Program,
    model: ModelId,
    texts: &[Text],
) -> Result<Option<Values>, Memory>
    requires { model.0 < length (infos_of program.now) }
    ensures is { IfOk result (λ found. found ≡ (script program.now).args model texts.now) }
    ensures fits { IfOk result (λ found. IfSome found (FitsArgs program.now model.0)) }
{
    program.right();
    types_are_lawful();
    infos_are_declared();
    value_is_spelled();
    let fields = program.info(model).params.as_slice();
    values_of(alloc, program.types(), fields, texts)
}

/// The values of the state variables of the model with a number that texts spell, one each, if they
/// spell them.
pub fn state_of(
    alloc: Global,
    program: &Program,
    model: ModelId,
    texts: &[Text],
) -> Result<Option<Values>, Memory>
    requires { model.0 < length (infos_of program.now) }
    ensures is { IfOk result (λ found. found ≡ (script program.now).state model texts.now) }
    ensures fits { IfOk result (λ found. IfSome found (FitsState program.now model.0)) }
{
    program.right();
    types_are_lawful();
    infos_are_declared();
    value_is_spelled();
    let fields = program.info(model).states.as_slice();
    values_of(alloc, program.types(), fields, texts)
}
