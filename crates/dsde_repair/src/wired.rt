//! What each network of a wiring keeps.

ghost use Rattle.std.specs.Prelude.{◌≡◌, false, ◌∷◌, [], IfOk, MatchOption};
ghost use Rattle.std.specs.Bool.{OnTrue};
ghost use Rattle.std.specs.List.{AllByRecursion};
ghost use Rattle.dsde_routes_wiring.specs.Wired.{AreWired, LeadsInside};
ghost use Rattle.dsde_routes_wiring.specs.Places.{nets_at};
ghost use Rattle.dsde_repair_walks.specs.Places.{IsBelowWired};

use crate::names::{add_names, are_in_order};
use dsde_lists::Memory;
use dsde_repair_walks::find_kid;
use dsde_routes_wiring::given::structure::{Link, Part};
use dsde_routes_wiring::{WiredKid, Wiring};
use dsde_values::{Name, Seq};
use std::alloc::Global;

/// Whether a link leads from the network itself to itself.
fn leads_past(link: &Link) -> bool
    ensures { (result ≡ false) → LeadsInside link.now }
{
    match (&link.from.part, &link.to.part) {
        (Part::Net, Part::Net) => true,
        _ => false,
    }
}

/// Whether no link leads from the network itself to itself.
pub fn lead_inside(links: &[Link]) -> bool
    ensures { OnTrue result (AllByRecursion LeadsInside links.now) }
{
    for link in links {
        if leads_past(link) {
            return false;
        }
    }
    true
}

/// Whether a network and those beneath it have their components in the order of their names, each name
/// once, and no link from a network itself to itself.
#[cycle(wired)]
pub fn is_wired(alloc: Global, net: &Wiring) -> Result<bool, Memory>
    ensures { IfOk result (λ wired. OnTrue wired (AreWired net.now)) }
{
    let mut names = Seq::new(alloc);
    add_names(alloc, net.kids.as_slice(), &mut names)?;
    if !are_in_order(names.as_slice()) {
        return Ok(false);
    }
    if !lead_inside(net.links.as_slice()) {
        return Ok(false);
    }
    are_wired_below(alloc, net.kids.as_slice())
}

/// Whether those beneath components do.
#[cycle(wired)]
pub fn are_wired_below(alloc: Global, kids: &[WiredKid]) -> Result<bool, Memory>
    ensures { IfOk result (λ wired. OnTrue wired (AllByRecursion IsBelowWired kids.now)) }
{
    for kid in kids {
        if !is_wired_below(alloc, kid)? {
            return Ok(false);
        }
    }
    Ok(true)
}

/// Whether those beneath one do.
#[cycle(wired)]
fn is_wired_below(alloc: Global, kid: &WiredKid) -> Result<bool, Memory>
    ensures { IfOk result (λ wired. OnTrue wired (IsBelowWired kid.now)) }
{
    match &kid.below {
        None => Ok(true),
        Some(below) => is_wired(alloc, below.get()),
    }
}

/// The network at a place of a wiring; `None` exactly where the place leads to none.
pub fn net_at<'w>(wiring: &'w Wiring, place: &[Name]) -> Option<&'w Wiring>
    requires { AreWired wiring.now }
    ensures { MatchOption result (nets_at place.now wiring.now ≡ []) (λ net. nets_at place.now wiring.now ≡ net.now ∷ []) }
{
    match place.split_first() {
        None => Some(wiring),
        Some((name, rest)) => match find_kid(wiring.kids.as_slice(), name) {
            None => None,
            Some(kid) => match &kid.below {
                None => None,
                Some(below) => net_at(below.get(), rest),
            },
        },
    }
}
