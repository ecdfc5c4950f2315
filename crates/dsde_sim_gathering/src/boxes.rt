//! What comes to the parts of a network, and what it sends.

ghost use Rattle.std.specs.Prelude.{◌≡◌, map, IfOk, OnOk};
ghost use Rattle.std.specs.List.{AllByRecursion};
ghost use Rattle.dsde_sim_tree.specs.Tree.{name_of};
ghost use Rattle.dsde_sim_tree.specs.given.structure.plan_Part_TheVariants as part;
ghost use Rattle.dsde_sim_tree.specs.given.structure.Gather.{carried, gathered};
ghost use Rattle.dsde_sound_structures.specs.given.system.Program.{system};
ghost use Rattle.dsde_sim_tree.specs.declared.sim.Sim.TheViews.{out-Kid};
ghost use Rattle.dsde_sim_tree.specs.Move.{ins_of};
ghost use Rattle.dsde_sound_structures.specs.Carrying.{FitsWiring};
ghost use Rattle.dsde_sim_gathering.specs.Boxes.{added, changed, delivered, sent_on, empty_ports};
ghost use Rattle.dsde_sim_gathering.specs.Passing.{AllPass, AreSorted, AreSortedKids, IsOfModel};

use crate::carry::carry_to;
use crate::names::place_of_kid;
use crate::ports::{empty_ports, ins_of};
use dsde_atomic::given::eval::Program;
use dsde_sim_tree::Kid;
use dsde_sim_tree::given::structure::{Link, Part, Sources, links_carry_in_order};
use dsde_sound_structures::wiring_carries;
use dsde_values::{Memory, Seq, Values, one_name};
use std::alloc::Global;

/// What comes to the parts inside a network at one time, each a list of values for each in port.
#[derive(Drop)]
pub struct Inboxes {
    /// What comes to its executive.
    pub boss: Seq<Values>,
    /// What comes to its components, in their order.
    pub kids: Seq<Seq<Values>>,
}

/// What a network sends: what its links carry to its out ports.
pub fn sent_by_net(
    alloc: Global,
    program: &Program,
    links: &[Link],
    sources: &Sources,
    ports: u32,
) -> Result<Seq<Values>, Memory>
    requires fits { FitsWiring program.now links.now sources.now }
    requires sorted { AreSorted sources.now }
    ensures { IfOk result (λ got. got ≡ gathered (system program.now).translate links.now sources.now part.Net ports) }
{
    wiring_carries();
    links_carry_in_order();
    let mut got = empty_ports(alloc, ports as usize)?;
    for link in links {
        send_on(alloc, program, link, sources, &mut got)?;
    }
    Ok(got)
}

/// What a link carries comes to the network's out port that it leads to, if it leads to one.
fn send_on(
    alloc: Global,
    program: &Program,
    link: &Link,
    sources: &Sources,
    got: &mut Seq<Values>,
) -> Result<(), Memory>
    requires sorted { AreSorted sources.now }
    requires pass { AllPass program.now sources.now link.now }
    ensures { OnOk result (got.new ≡ sent_on (system program.now).translate sources.now link.now got.old) }
{
    match &link.to.part {
        Part::Net => carry_to(alloc, program, link, sources, got),
        Part::Boss | Part::Kid(_) => Ok(()),
    }
}

/// What comes to the executive of a network and to its components.
pub fn inboxes_of(
    alloc: Global,
    program: &Program,
    links: &[Link],
    sources: &Sources,
    boss_ins: u32,
    kids: &[Kid],
) -> Result<Inboxes, Memory>
    requires fits { FitsWiring program.now links.now sources.now }
    requires sorted { AreSorted sources.now }
    requires order { AreSortedKids kids.now }
    requires kids { AllByRecursion (λ kid. IsOfModel program.now (out-Kid kid).sim) kids.now }
    ensures boss { IfOk result (λ got. got.boss ≡ gathered (system program.now).translate links.now sources.now part.Boss boss_ins) }
    ensures kids { IfOk result (λ got. got.kids ≡ map (λ kid. gathered (system program.now).translate links.now sources.now (part.Kid (out-Kid kid).name) (ins_of (system program.now) (out-Kid kid).sim)) kids.now) }
{
    wiring_carries();
    links_carry_in_order();
    one_name();
    let mut boxes = Inboxes {
        boss: empty_ports(alloc, boss_ins as usize)?,
        kids: empty_boxes(alloc, program, kids)?,
    };
    for link in links {
        deliver(alloc, program, link, sources, kids, &mut boxes)?;
    }
    Ok(boxes)
}

/// No values yet at each in port of each component.
fn empty_boxes(alloc: Global, program: &Program, kids: &[Kid]) -> Result<Seq<Seq<Values>>, Memory>
    requires { AllByRecursion (λ kid. IsOfModel program.now (out-Kid kid).sim) kids.now }
    ensures { IfOk result (λ boxes. boxes ≡ map (λ kid. empty_ports (ins_of (system program.now) (out-Kid kid).sim)) kids.now) }
{
    let mut boxes = Seq::new(alloc);
    for kid in kids {
        boxes.push(empty_ports(alloc, ins_of(program, &kid.sim))?)?;
    }
    Ok(boxes)
}

/// What a link carries comes to the executive or to the component that it leads to, if it leads to one.
fn deliver(
    alloc: Global,
    program: &Program,
    link: &Link,
    sources: &Sources,
    kids: &[Kid],
    boxes: &mut Inboxes,
) -> Result<(), Memory>
    requires sorted { AreSorted sources.now }
    requires pass { AllPass program.now sources.now link.now }
    requires order { AreSortedKids kids.now }
    ensures { OnOk result (boxes.new ≡ delivered (system program.now).translate sources.now (map name_of kids.now) link.now boxes.old) }
{
    match &link.to.part {
        Part::Net => Ok(()),
        Part::Boss => carry_to(alloc, program, link, sources, &mut boxes.boss),
        Part::Kid(name) => match place_of_kid(kids, name) {
            Some(index) => carry_at(alloc, program, link, sources, &mut boxes.kids, index),
            None => Ok(()),
        },
    }
}

/// What a link carries comes to the component at an index.
fn carry_at(
    alloc: Global,
    program: &Program,
    link: &Link,
    sources: &Sources,
    kids: &mut Seq<Seq<Values>>,
    index: usize,
) -> Result<(), Memory>
    requires sorted { AreSorted sources.now }
    requires pass { AllPass program.now sources.now link.now }
    ensures { OnOk result (kids.new ≡ changed index (added link.now.to.port (carried (system program.now).translate sources.now link.now)) kids.old) }
{
    match kids.get_mut(index) {
        Some(ports) => carry_to(alloc, program, link, sources, ports),
        None => Ok(()),
    }
}
