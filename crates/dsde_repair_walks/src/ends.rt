//! The ends of links.

ghost use Rattle.std.specs.Prelude.{◌≡◌};
ghost use Rattle.dsde_routes_wiring.specs.Routes.{is_border};

use dsde_routes_wiring::given::structure::{End, Part};

/// Whether an end is this port of the network itself.
pub fn is_border_end(port: u32, end: &End) -> bool
    ensures { result ≡ is_border port end.now }
{
    match end.part {
        Part::Net => end.port == port,
        Part::Boss | Part::Kid(_) => false,
    }
}
