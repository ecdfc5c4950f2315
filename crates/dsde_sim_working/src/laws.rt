//! What a program means leads on, and what fits it has its names. Each law is a call that does nothing.

ghost use Rattle.dsde_syntax.specs.declared.decl.Model.{Model};
ghost use Rattle.dsde_sim_tree.specs.declared.sim.Sim.{Sim};
ghost use Rattle.dsde_sim_moving.specs.Fitting.{FitsTree};
ghost use Rattle.dsde_sim_working.specs.Forward.{ProgramsLeadOn};
ghost use Rattle.dsde_sim_movers.specs.Names.{IsNamed};

use dsde_system::given::executive_plans::plans_are_in_order;

/// A law: an advance of a component of a program gives no time before its last event, and the
/// components of each structure of a program stand in the order of their names.
pub fn programs_lead_on()
    ensures { ProgramsLeadOn }
{
    plans_are_in_order();
}

/// A tree that fits a program has the components of each network in the order of their names, and none
/// of them is named as an executive.
pub fn fitting_trees_are_named()
    ensures { (model : Model) (tree : Sim) → FitsTree model tree → IsNamed tree }
{}
