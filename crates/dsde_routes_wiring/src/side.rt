//! The sides of a part.

ghost use Rattle.std.specs.Prelude.{◌≡◌};
ghost use Rattle.dsde_routes_wiring.specs.Side as ends;

use dsde_structure::{End, Link};

/// The side of a part on which a way stands: it comes out of the part, or goes into it.
#[derive(Clone, Copy)]
pub enum Side {
    Out,
    Into,
}

/// The end of a link at which a way stands that comes out over it, or goes in.
pub fn near(side: Side, link: &Link) -> &End
    ensures { result.now ≡ ends.near side link.now }
{
    match side {
        Side::Out => &link.to,
        Side::Into => &link.from,
    }
}

/// The other end.
pub fn far(side: Side, link: &Link) -> &End
    ensures { result.now ≡ ends.far side link.now }
{
    match side {
        Side::Out => &link.from,
        Side::Into => &link.to,
    }
}
