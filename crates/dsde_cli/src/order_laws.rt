//! A law of whole runs in drawn orders. It is a call that does nothing.

ghost use Rattle.dsde_cli.specs.Ends.{DrawnRunsEnd};

use dsde_sim_movers::{
    deliveries_are_found, drawn_orders_are_lawful, lawful_movers_wait, lawful_orders_are_drawn,
    movers_are_walked,
};
use dsde_sound_runs::given::sound_structures::{
    components_are_sure, gathered_fits, reach_covers, sent_fits, structures_are_sure, top_is_sure,
};
use dsde_structure::survivors_keep_their_roles;
use dsde_values::one_name;

/// A law: of a model in which nothing is wrong each run whose turns move in drawn orders comes to an end, on
/// records that come to it and none of which is a failed read. So no step of its definitions is ever left
/// without a value and without a fault, whoever moves first, which an answer for want of memory could hide behind.
pub fn drawn_runs_end()
    ensures { DrawnRunsEnd }
{
    components_are_sure();
    structures_are_sure();
    top_is_sure();
    gathered_fits();
    sent_fits();
    reach_covers();
    survivors_keep_their_roles();
    one_name();
    movers_are_walked();
    deliveries_are_found();
    lawful_movers_wait();
    lawful_orders_are_drawn();
    drawn_orders_are_lawful();
}
