//! Who moves in a turn, with what comes to it.

ghost use Rattle.std.specs.Prelude.{◌≡◌};

use crate::seat::is_over;
use dsde_drawing::Waits;
use dsde_language::ModelId;
use dsde_values::{Path, Seq, Values};
use std::marker::Model;

/// A component or an executive that moves in a turn, with what comes to it, port by port.
#[derive(Drop)]
pub struct Mover {
    pub path: Path,
    pub model: ModelId,
    pub ports: Seq<Values>,
}

impl Model for Mover {
    ghost use Rattle.std.specs.Coded.{codes};
    ghost use Rattle.dsde_sim_movers.specs.Deliveries.{Delivery};
    ghost use Rattle.dsde_values.specs.contracts.path.Path as whole;
    ghost use Rattle.dsde_values.specs.contracts.value.Value as value;
    ghost use Rattle.dsde_language.specs.contracts.ids.ModelId as number;

    ghost Value = { Delivery };

    ghost coded = { Prim.hlevel (codes, whole.the_row.coded, value.the_row.coded, number.the_row.coded) };

    ghost view = { λ mover. record {
      path = mover.path;
      model = mover.model;
      ports = mover.ports;
    } };
}

impl Waits for Mover {
    ghost use Rattle.dsde_values.specs.Path.{root};
    ghost use Rattle.dsde_sim_movers.specs.Orders.{is_above};

    ghost waits = { is_above root };

    /// An executive waits for all that move beneath its network.
    fn waits_for(&self, other: &Mover) -> bool {
        is_over(&self.path, &other.path)
    }
}
