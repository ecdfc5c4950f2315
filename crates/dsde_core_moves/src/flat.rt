//! A tree that lies in a grove, and who moves in it.

use dsde_bank::Handle;
use dsde_core_flat::Spot;
use dsde_core_flat::given::grove::Grove;
use dsde_language::ModelId;
use dsde_queue::Queue;
use dsde_repair_walks::given::routes_table::RouteTable;
use dsde_routes_wiring::Wiring;
use dsde_values::{Path, Seq, Values};

/// A tree of simulators by what lies in a grove and the wiring beside it, with its schedule and the rows of its
/// wiring. The wiring is `None` exactly where the root is an atomic component.
#[derive(Drop)]
pub struct Flat {
    pub root: Handle,
    pub grove: Grove<Spot>,
    pub queue: Queue,
    pub rows: RouteTable,
    pub wiring: Option<Wiring>,
}

/// A component or an executive that moves in a turn, with what it received port by port.
#[derive(Drop)]
pub struct Mover {
    pub handle: Handle,
    pub path: Path,
    pub model: ModelId,
    pub got: Seq<Values>,
}
