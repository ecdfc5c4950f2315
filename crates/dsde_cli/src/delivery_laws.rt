//! The turns of a run, and that each is delivered. Each law is a call that does nothing.

ghost use Rattle.std.specs.Prelude.{◌≡◌, ◌++◌, ℕ, Ok};
ghost use Rattle.std.specs.List.{AllByRecursion};
ghost use Rattle.dsde_syntax.specs.declared.decl.Model.{Model};
ghost use Rattle.dsde_syntax.specs.Shape.{IsShaped};
ghost use Rattle.dsde_input_records.specs.Records.{Records};
ghost use Rattle.dsde_formalism.specs.System.{System};
ghost use Rattle.dsde_sound_runs.specs.given.system.Program.{system};
ghost use Rattle.dsde_sim_tree.specs.Engine.{Engine};
ghost use Rattle.dsde_sim_tree.specs.Turn.{start};
ghost use Rattle.dsde_sim_movers.specs.Names.{NamesParts};
ghost use Rattle.dsde_sound_runs.specs.given.run_meaning.Run.{Spots, go, run};
ghost use Rattle.dsde_cli.specs.DeliveredTurns.{AreOfTurns, IsRunTurnDelivered, run_turns};

use dsde_executive_plans::plans_are_in_order;
use dsde_sim_movers::{trees_are_named, turns_are_delivered, turns_move_one_by_one};
use dsde_sound_expressions::shaped_items_are_proper;
use dsde_sound_names::plans_are_ordinary;

/// Each structure of a model that a text can spell has its components in the order of their names,
/// none of them named as an executive.
pub fn models_name_parts()
    ensures { (model : Model) → IsShaped model → NamesParts (system model) }
{
    shaped_items_are_proper();
    plans_are_in_order();
    plans_are_ordinary();
}

/// What a run tells behind its start is what its turns tell, one after the other, and at most the
/// line that says how it ended.
pub fn runs_are_their_turns()
    ensures { (system : System) (spots : Spots) (records : Records) (turns : ℕ) (engine : Engine) → (start system).end ≡ Ok engine →
        ((run system spots records turns).events ≡ (start system).events ++ (go system spots turns records engine).events)
        × AreOfTurns system (run_turns system records turns) (go system spots turns records engine).events }
{}

/// Each turn of a run of a model that a text can spell is delivered by the tree before it, whatever
/// the records are.
pub fn runs_are_delivered()
    ensures { (model : Model) (records : Records) (turns : ℕ) → IsShaped model →
        AllByRecursion (IsRunTurnDelivered (system model)) (run_turns (system model) records turns) }
{
    models_name_parts();
    trees_are_named();
    turns_are_delivered();
    turns_move_one_by_one();
}
