//! Laws of whole runs. Each is a call that does nothing.

ghost use Rattle.dsde_sound_runs.specs.Ends.{AdvanceFits, InputsArrive, RunsEnd, StartFits};

use dsde_input_records::record_is_spelled;
use dsde_sim_starting::given::sound_structures::{
    components_are_sure, gathered_fits, ports_are_lawful, reach_covers, sent_fits,
    structures_are_sure, top_is_declared, top_is_sure, types_are_lawful,
};
use dsde_sound_expressions::bodies_stand;
use dsde_structure::survivors_keep_their_roles;
use dsde_values::one_name;

/// A law: of a model in which nothing is wrong each run comes to an end, on records that come to it
/// and none of which is a failed read. So no step of its definitions is ever left without a value and
/// without a fault, which an answer for want of memory could hide behind.
pub fn runs_end()
    ensures { RunsEnd }
{
    components_are_sure();
    structures_are_sure();
    top_is_sure();
    gathered_fits();
    sent_fits();
    reach_covers();
    survivors_keep_their_roles();
    one_name();
}

/// A law: of a model in which nothing is wrong an engine that starts has a tree of the program, and keeps
/// one in each turn.
pub fn engines_fit()
    ensures start { StartFits }
    ensures advance { AdvanceFits }
{
    components_are_sure();
    structures_are_sure();
    top_is_sure();
    gathered_fits();
    sent_fits();
    reach_covers();
    survivors_keep_their_roles();
    one_name();
}

/// A law: the records that bytes spell for such a model come to it, and none is a failed read.
pub fn inputs_arrive()
    ensures { InputsArrive }
{
    record_is_spelled();
    types_are_lawful();
    ports_are_lawful();
    top_is_declared();
    bodies_stand();
}
