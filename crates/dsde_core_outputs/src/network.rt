//! The output phase of a turn of a network, step by step.

ghost use Rattle.std.specs.Prelude.{◌≡◌, ◌+◌, ◌*◌, ◌<◌, ◌≤◌, ◌^◌, ℕ, length, map, IfOk, IsPermutation, IsSome, IsSorted, OnOk};
ghost use Rattle.std.specs.List.{AllByRecursion};
ghost use Rattle.dsde_values.specs.Path.{root};
ghost use Rattle.dsde_sim_working.specs.given.system.Program.{system};
ghost use Rattle.dsde_grove.specs.Grove.{value_of};
ghost use Rattle.dsde_sim_tree.specs.Told.{Comes};
ghost use Rattle.dsde_sim_tree.specs.Move.{ins_of};
ghost use Rattle.dsde_sim_tree.specs.Output.{by_port, output};
ghost use Rattle.dsde_sim_tree.specs.Tree.{model_of};
ghost use Rattle.dsde_sim_working.specs.given.sim_movers.Asking.{ask_each};
ghost use Rattle.dsde_sim_working.specs.given.sim_starting.Fitting.{FitsGot};
ghost use Rattle.dsde_sim_working.specs.Working.{FitsItems};
ghost use Rattle.dsde_core_parcels.specs.given.core_flat.Shown.{model_in};
ghost use Rattle.dsde_core_parcels.specs.given.core_flat.Stands.{IsShallow};
ghost use Rattle.dsde_core_parcels.specs.given.core_flat.Due.{AreDue, asked};
ghost use Rattle.dsde_core_parcels.specs.Inboxes.{spread};
ghost use Rattle.dsde_core_parcels.specs.Parcels.{GoFrom};
ghost use Rattle.dsde_core_parcels.specs.Brought.{Rise};
ghost use Rattle.dsde_core_parcels.specs.Asking.{ended};
ghost use Rattle.dsde_core_parcels.specs.Counted.{CountsRows};
ghost use Rattle.dsde_core_parcels.specs.Calling.{due_movers, emptied, gets_for, mover_cmp, IsFew};
ghost use Rattle.dsde_core_parcels.specs.given.core_moves.Flat.{tree_of, Stands};
ghost use Rattle.dsde_core_parcels.specs.given.core_moves.Movers.{list_of, ports_of, sent_of, AreMovers, Wait};
ghost use Rattle.dsde_core_outputs.specs.Rows.{HasRows};
ghost use Rattle.dsde_core_outputs.specs.Rooting.{outs_of, taken_by, AreReady, AreSent, FillInboxes};

use crate::{
    due_movers, full_inboxes_call, have_few_ports, in_path_order, outlets_fill_inboxes,
    outputs_come_of_asking, roots_are_networks, take_gets, told_movers,
};
use dsde_base::Steps;
use dsde_core_parcels::given::core_flat::{Due, Spot};
use dsde_core_parcels::given::core_moves::{Flat, Mover, Movers, Phase, Sent};
use dsde_core_parcels::given::routes_table::RouteTable;
use dsde_core_parcels::{
    Get, Inbox, Outlet, inboxes, inboxes_are_few, inboxes_are_received, live_leaves_fit, push_all,
    sorted, spread, turn_outlets,
};
use dsde_language::ModelId;
use dsde_sim_tree::TurnEnd;
use dsde_sim_working::given::atomic::{network_in, network_out};
use dsde_sim_working::given::check_tables::narrow;
use dsde_sim_working::given::program::Program;
use dsde_sim_working::given::sim_starting::by_port;
use dsde_sim_working::given::sound_structures::sent_fits;
use dsde_values::{Item, Memory, Seq, Values};
use std::alloc::Global;
use std::sync::ledger::Ledger;

/// The model of the network under the root's handle, or the first where there is none. Counts at most 2 looks.
fn root_model<L: Ledger>(flat: &Flat, looks: &mut Steps<L>) -> ModelId
    ensures model { result ≡ model_in (value_of flat.now.grove flat.now.root) }
    ensures ticks { looks.new ≤ looks.old + 2 }
{
    match flat.grove.get(flat.root, looks) {
        Some(Spot::Net { model, .. }) => *model,
        Some(Spot::Leaf(_)) => ModelId(0),
        None => ModelId(0),
    }
}

/// What these items bring to the root, whose model this is, port by port.
fn came(
    alloc: Global,
    program: &Program,
    flat: &Flat,
    model: ModelId,
    items: &[Item],
) -> Result<Seq<Values>, Memory>
    requires network { IsSome flat.now.wiring }
    requires stands { Stands program.now flat.now }
    requires model { model ≡ model_in (value_of flat.now.grove flat.now.root) }
    requires items { FitsItems program.now (model_of (tree_of flat.now)).0 items.now }
    ensures got { IfOk result (λ got. got ≡ by_port (ins_of (system program.now) (tree_of flat.now)) items.now) }
    ensures fits { IfOk result (λ got. FitsGot program.now (model_of (tree_of flat.now)).0 got) }
    ensures few { IfOk result (λ got. length got < 2 ^ 32) }
{
    roots_are_networks();
    sent_fits();
    let ports = narrow(network_in(program, model))?;
    let got = by_port(alloc, ports, items)?;
    Ok(got)
}

/// What comes out of ports: what those who are due send, and behind it what these items bring to the root,
/// whose model this is. A fault is the first one that comes of asking them.
fn come_out<L: Ledger>(
    alloc: Global,
    program: &Program,
    flat: &Flat,
    model: ModelId,
    due: &[Due],
    time: u64,
    items: &[Item],
    looks: &mut Steps<L>,
) -> Result<Seq<Outlet>, TurnEnd>
    requires network { IsSome flat.now.wiring }
    requires stands { Stands program.now flat.now }
    requires model { model ≡ model_in (value_of flat.now.grove flat.now.root) }
    requires due { AreDue flat.now.grove time due.now }
    requires items { FitsItems program.now (model_of (tree_of flat.now)).0 items.now }
    ensures comes { Comes (ask_each (system program.now) time (map (asked flat.now.grove) due.now)) (ended result) }
    ensures sent { IfOk result (λ outlets. AreSent program.now flat.now time items.now due.now outlets) }
    ensures ticks { OnOk result (looks.new ≤ looks.old + 2 * length due.now) }
{
    live_leaves_fit();
    let got = came(alloc, program, flat, model, items)?;
    let outlets = turn_outlets(
        alloc,
        program,
        &flat.grove,
        flat.root,
        due,
        time,
        got,
        looks,
    )?;
    Ok(outlets)
}

/// What comes out of ports goes along the rows of a table into the inboxes of those to whom they lead.
fn carried(
    alloc: Global,
    program: &Program,
    table: &RouteTable,
    outlets: &[Outlet],
) -> Result<Seq<Inbox>, Memory>
    requires { AllByRecursion (GoFrom program.now table.now) outlets.now }
    ensures fill { IfOk result (λ boxes. FillInboxes table.now (system program.now).translate outlets.now boxes) }
    ensures rise { IfOk result Rise }
    ensures few { IfOk result (λ boxes. (rows : ℕ) × CountsRows table.now outlets.now rows × (length boxes ≤ rows)) }
{
    inboxes_are_received();
    inboxes_are_few();
    let pushed = push_all(alloc, program, table, outlets)?;
    let parcels = sorted(pushed)?;
    let boxes = inboxes(alloc, parcels)?;
    Ok(boxes)
}

/// What those who are due send, and what these items bring to the root, whose model this is, in the inboxes
/// of those to whom it goes. A fault is the first one that comes of asking them.
fn filled<L: Ledger>(
    alloc: Global,
    program: &Program,
    flat: &Flat,
    model: ModelId,
    due: &[Due],
    time: u64,
    items: &[Item],
    looks: &mut Steps<L>,
) -> Result<Seq<Inbox>, TurnEnd>
    requires network { IsSome flat.now.wiring }
    requires stands { Stands program.now flat.now }
    requires model { model ≡ model_in (value_of flat.now.grove flat.now.root) }
    requires due { AreDue flat.now.grove time due.now }
    requires items { FitsItems program.now (model_of (tree_of flat.now)).0 items.now }
    ensures comes { Comes (ask_each (system program.now) time (map (asked flat.now.grove) due.now)) (ended result) }
    ensures ready { IfOk result (λ boxes. AreReady program.now flat.now time items.now due.now boxes) }
    ensures rise { IfOk result Rise }
    ensures few { IfOk result (λ boxes. (rows : ℕ) × HasRows program.now flat.now time items.now rows × (length boxes ≤ rows)) }
    ensures ticks { OnOk result (looks.new ≤ looks.old + 2 * length due.now) }
{
    outlets_fill_inboxes();
    let outlets = come_out(alloc, program, flat, model, due, time, items, looks)?;
    let boxes = carried(alloc, program, &flat.rows, outlets.as_slice())?;
    Ok(boxes)
}

/// What is in an inbox, port by port, for this many ports.
fn spread_over(alloc: Global, ports: u32, gets: Seq<Get>) -> Result<Seq<Values>, Memory>
    ensures value { IfOk result (λ sent. sent ≡ spread ports gets) }
    ensures few { IfOk result (λ sent. length sent < 2 ^ 32) }
{
    let sent = spread(alloc, ports as usize, gets)?;
    Ok(sent)
}

/// What comes out of the root, whose model this is, port by port: what is in its inbox, which is empty then.
fn root_sends(
    alloc: Global,
    program: &Program,
    flat: &Flat,
    model: ModelId,
    boxes: &mut Seq<Inbox>,
) -> Result<Seq<Values>, Memory>
    requires network { IsSome flat.now.wiring }
    requires stands { Stands program.now flat.now }
    requires model { model ≡ model_in (value_of flat.now.grove flat.now.root) }
    requires rise { Rise boxes.old }
    ensures sent { IfOk result (λ sent. sent ≡ spread (outs_of (system program.now) flat.now) (gets_for flat.now.root boxes.old)) }
    ensures few { IfOk result (λ sent. length sent < 2 ^ 32) }
    ensures left { OnOk result (boxes.new ≡ map (emptied flat.now.root) boxes.old) }
    ensures rise { OnOk result (Rise boxes.new) }
{
    roots_are_networks();
    let ports = narrow(network_out(program, model))?;
    let gets = take_gets(alloc, boxes, flat.root);
    let sent = spread_over(alloc, ports, gets)?;
    Ok(sent)
}

/// Those who are called, in path order: those who are due, and the others to whom these inboxes bring
/// something.
fn all_called<L: Ledger>(
    alloc: Global,
    program: &Program,
    flat: &Flat,
    due: Vec<Due>,
    time: u64,
    boxes: Seq<Inbox>,
    looks: &mut Steps<L>,
) -> Result<Seq<Mover>, Memory>
    requires stands { Stands program.now flat.now }
    requires depth { IsShallow flat.now.grove }
    requires due { AreDue flat.now.grove time due.items }
    requires rise { Rise boxes }
    requires order { IsSorted mover_cmp (due_movers (system program.now) flat.now.grove due.items boxes) }
    ensures same { IfOk result (IsPermutation (taken_by (system program.now) flat.now.grove time due.items boxes)) }
    ensures order { IfOk result (IsSorted mover_cmp) }
    ensures few { IfOk result (λ movers. AllByRecursion IsFew movers) }
    ensures many { IfOk result (λ movers. length due.items ≤ length movers) }
    ensures ticks { OnOk result (looks.new ≤ looks.old + 2 * length due.items + 67 * length boxes) }
{
    live_leaves_fit();
    let mut left = boxes;
    let called = due_movers(alloc, program, &flat.grove, due, &mut left, looks)?;
    let told = told_movers(alloc, program, &flat.grove, left, time, looks)?;
    let movers = in_path_order(called, told)?;
    have_few_ports(movers.as_slice())?;
    Ok(movers)
}

/// The output phase of a turn of a network at a time at which these parts are due, in path order, and these
/// items come to the root. Gives what the root sends, port by port, and those who move: whoever is due or gets
/// something, in path order, each with what it receives. A fault is the first one that comes of asking those
/// who are due, that of the output message of the tree; `Memory` comes where there is none, and where a part
/// has more ports than 32 bits count. Counts at most 2 looks, 4 more for each who is due, and 67 for each row
/// from the ports that send.
pub fn net_movers<L: Ledger>(
    alloc: Global,
    program: &Program,
    flat: &Flat,
    due: Vec<Due>,
    time: u64,
    items: &[Item],
    looks: &mut Steps<L>,
) -> Result<Phase, TurnEnd>
    requires network { IsSome flat.now.wiring }
    requires stands { Stands program.now flat.now }
    requires due { AreDue flat.now.grove time due.items }
    requires depth { IsShallow flat.now.grove }
    requires items { FitsItems program.now (model_of (tree_of flat.now)).0 items.now }
    ensures comes { Comes (output (system program.now) (tree_of flat.now) root time) (sent_of result) }
    ensures few { IfOk result (λ phase. length (ports_of phase.sent) < 2 ^ 32) }
    ensures movers { IfOk result (λ phase. AreMovers program.now flat.now time items.now (list_of phase.movers)) }
    ensures wait { IfOk result (λ phase. Wait due.items (list_of phase.movers)) }
    ensures many { IfOk result (λ phase. length due.items ≤ length (list_of phase.movers)) }
    ensures ticks { OnOk result ((rows : ℕ) × HasRows program.now flat.now time items.now rows × (looks.new ≤ looks.old + 2 + 4 * length due.items + 67 * rows)) }
{
    program.right();
    outputs_come_of_asking();
    full_inboxes_call();
    let model = root_model(flat, looks);
    let due_now = due.as_slice();
    let mut boxes = filled(alloc, program, flat, model, due_now, time, items, looks)?;
    let sent = root_sends(alloc, program, flat, model, &mut boxes)?;
    let movers = all_called(alloc, program, flat, due, time, boxes, looks)?;
    Ok(Phase {
        sent: Sent::Ports(sent),
        movers: Movers::Many(movers),
    })
}
