//! A law of inboxes. It is a call that does nothing.

ghost use Rattle.std.specs.Prelude.{◌≡◌, ℕ, []};
ghost use Rattle.dsde_bank.specs.declared.handle.Handle.{Handle};
ghost use Rattle.dsde_sim_tree.specs.given.formalism.System.{System};
ghost use Rattle.dsde_core_moves.specs.given.grove.Grove.{Grove};
ghost use Rattle.dsde_core_moves.specs.given.core_flat.spot_Spot.{Spot};
ghost use Rattle.dsde_core_parcels.specs.Calling.{told_by};

/// Nobody is told by an inbox in which nothing is.
pub fn empty_inboxes_tell_nobody()
    ensures { (system : System) (own : Grove Spot) (time : ℕ) (target : Handle) → told_by system own time (record { target = target; gets = [] }) ≡ [] }
{}
