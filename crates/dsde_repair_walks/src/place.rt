//! A network of a wiring, changed where it stands.

ghost use Rattle.std.specs.Prelude.{◌≡◌, [], IfOk, OnOk};
ghost use Rattle.dsde_routes_wiring.specs.Wired.{AreWired};
ghost use Rattle.dsde_routes_wiring.specs.Places.{bared, changed, kids_at, renewed};
ghost use Rattle.dsde_repair_walks.specs.Places.{IsBelowWired, kid_with, kids_below, with_below};

use crate::found::index_of;
use dsde_lists::{Boxed, Memory};
use dsde_routes_wiring::{Links, WiredKid, Wiring};
use dsde_values::{Name, Seq};
use std::alloc::Global;
use std::mem;

/// Takes the links and the components of the network at a place out, and gives the components.
pub fn take_out(alloc: Global, wiring: &mut Wiring, place: &[Name]) -> Result<Seq<WiredKid>, Memory>
    requires { AreWired wiring.old }
    ensures kids { IfOk result (λ kids. kids ≡ kids_at place.now wiring.old) }
    ensures wiring { OnOk result (wiring.new ≡ changed place.now bared wiring.old) }
{
    let mut links = Links::new(alloc);
    let mut kids = Seq::new(alloc);
    let done = exchange(alloc, wiring, place, &mut links, &mut kids);
    drop(links);
    match done {
        Ok(()) => Ok(kids),
        Err(memory) => {
            drop(kids);
            Err(memory)
        }
    }
}

/// Gives the network at a place other links and components.
pub fn renew(
    alloc: Global,
    wiring: &mut Wiring,
    place: &[Name],
    mut links: Links,
    mut kids: Seq<WiredKid>,
) -> Result<(), Memory>
    requires { AreWired wiring.old }
    ensures { OnOk result (wiring.new ≡ changed place.now (renewed links kids) wiring.old) }
{
    let done = exchange(alloc, wiring, place, &mut links, &mut kids);
    drop(links);
    drop(kids);
    done
}

/// Exchanges the links and the components of the network at a place with others; where the place leads to
/// no network, there are no components to give.
#[cycle(exchanging)]
fn exchange(
    alloc: Global,
    wiring: &mut Wiring,
    place: &[Name],
    links: &mut Links,
    kids: &mut Seq<WiredKid>,
) -> Result<(), Memory>
    requires { AreWired wiring.old }
    ensures kids { OnOk result (kids.new ≡ kids_at place.now wiring.old) }
    ensures wiring { OnOk result (wiring.new ≡ changed place.now (renewed links.old kids.old) wiring.old) }
{
    match place.split_first() {
        None => {
            exchange_here(wiring, links, kids);
            Ok(())
        }
        Some((name, rest)) => {
            index_links(alloc, wiring)?;
            match index_of(wiring.kids.as_slice(), name) {
                None => {
                    kids.truncate(0);
                    Ok(())
                }
                Some(index) => match wiring.kids.get_mut(index) {
                    None => Ok(()),
                    Some(kid) => exchange_below(alloc, kid, rest, links, kids),
                },
            }
        }
    }
}

/// Has the links of a network in which another one changes found by their components from now on.
fn index_links(alloc: Global, wiring: &mut Wiring) -> Result<(), Memory>
    ensures { wiring.new ≡ wiring.old }
{
    wiring.links.index(alloc)
}

fn exchange_here(wiring: &mut Wiring, links: &mut Links, kids: &mut Seq<WiredKid>)
    ensures kids { kids.new ≡ kids_at [] wiring.old }
    ensures wiring { wiring.new ≡ renewed links.old kids.old wiring.old }
{
    mem::swap(&mut wiring.links, links);
    mem::swap(&mut wiring.kids, kids);
}

/// Puts a network below a component.
fn put_below(alloc: Global, kid: &mut WiredKid, net: Wiring) -> Result<(), Memory>
    ensures { OnOk result (kid.new ≡ with_below net kid.old) }
{
    kid.below = Some(Boxed::new(alloc, net)?);
    Ok(())
}

/// The same of the network below a component.
#[cycle(exchanging)]
fn exchange_below(
    alloc: Global,
    kid: &mut WiredKid,
    place: &[Name],
    links: &mut Links,
    kids: &mut Seq<WiredKid>,
) -> Result<(), Memory>
    requires { IsBelowWired kid.old }
    ensures kids { OnOk result (kids.new ≡ kids_below place.now kid.old) }
    ensures kid { OnOk result (kid.new ≡ kid_with (changed place.now (renewed links.old kids.old)) kid.old) }
{
    match kid.below.take() {
        None => {
            kids.truncate(0);
            Ok(())
        }
        Some(below) => {
            let mut net = below.into_inner();
            exchange(alloc, &mut net, place, links, kids)?;
            put_below(alloc, kid, net)
        }
    }
}
