//! The rows of a tree, part by part.

ghost use Rattle.std.specs.Prelude.{◌≡◌, ◌<◌, ◌++◌, ◌∷◌, [], length, OnOk, IfOk};
ghost use Rattle.std.specs.List.{AllByRecursion, flat_map};
ghost use Rattle.dsde_language.specs.NodeModels.{infos_of};
ghost use Rattle.dsde_sound_structures.specs.given.system.Fitting.{FitsArgs, FitsLeaf};
ghost use Rattle.dsde_sim_starting.specs.Fitting.{FitsKid, FitsNet, FitsTree};
ghost use Rattle.dsde_sim_tree.specs.declared.sim.Sim.TheVariants as sim;
ghost use Rattle.dsde_sim_tree.specs.declared.sim.Sim.TheViews.{out-Kid, out-Net};
ghost use Rattle.dsde_image_rows.specs.Rows.{standing_of, atomic_row, boss_row, net_row, rows, rows_of_kid, rows_of_net};
ghost use Rattle.dsde_image_rows.specs.Script.{script};
ghost use Rattle.dsde_image_rows.specs.Listed.{row_at};

use crate::{location_of, name_of, texts};
use dsde_image::{Body, Row, Standing, Version};
use dsde_language::ModelId;
use dsde_sim_starting::given::program::Program;
use dsde_sim_starting::given::sim_telling::{below, boss_of};
use dsde_sim_tree::given::formalism::Leaf;
use dsde_sim_tree::{Kid, Net, Sim};
use dsde_values::{Memory, Path, Seq, Values};
use std::alloc::Global;

fn standing_of(alloc: Global, program: &Program, leaf: &Leaf) -> Result<Standing, Memory>
    ensures { IfOk result (λ own. own ≡ standing_of (script program.now) leaf.now) }
{
    Ok(Standing {
        state: texts(alloc, program, &leaf.state)?,
        last: leaf.last,
        next: leaf.next,
    })
}

/// Appends the row of a part at a path, of this model.
fn put_row(
    alloc: Global,
    program: &Program,
    version: Version,
    path: &Path,
    model: ModelId,
    body: Body,
    listed: &mut Seq<Row>,
) -> Result<(), Memory>
    requires { model.0 < length (infos_of program.now) }
    ensures { OnOk result (listed.new ≡ listed.old ++ row_at (script program.now) version path.now model body ∷ []) }
{
    listed.push(Row {
        location: location_of(alloc, version, path)?,
        model: name_of(alloc, program, model)?,
        body,
    })
}

fn put_atomic(
    alloc: Global,
    program: &Program,
    version: Version,
    path: &Path,
    leaf: &Leaf,
    listed: &mut Seq<Row>,
) -> Result<(), Memory>
    requires { leaf.now.model.0 < length (infos_of program.now) }
    ensures { OnOk result (listed.new ≡ listed.old ++ atomic_row (script program.now) version path.now leaf.now ∷ []) }
{
    let args = texts(alloc, program, &leaf.args)?;
    let standing = standing_of(alloc, program, leaf)?;
    let body = Body::Atomic { args, standing };
    put_row(alloc, program, version, path, leaf.model, body, listed)
}

/// Appends the row of the executive of the network at a path.
fn put_boss(
    alloc: Global,
    program: &Program,
    version: Version,
    path: &Path,
    leaf: &Leaf,
    listed: &mut Seq<Row>,
) -> Result<(), Memory>
    requires { leaf.now.model.0 < length (infos_of program.now) }
    ensures { OnOk result (listed.new ≡ listed.old ++ boss_row (script program.now) version path.now leaf.now ∷ []) }
{
    let path = boss_of(alloc, path)?;
    let standing = standing_of(alloc, program, leaf)?;
    let body = Body::Executive { standing };
    put_row(alloc, program, version, &path, leaf.model, body, listed)
}

fn put_net(
    alloc: Global,
    program: &Program,
    version: Version,
    path: &Path,
    model: ModelId,
    args: &Values,
    listed: &mut Seq<Row>,
) -> Result<(), Memory>
    requires { model.0 < length (infos_of program.now) }
    ensures { OnOk result (listed.new ≡ listed.old ++ net_row (script program.now) version path.now model args.now ∷ []) }
{
    let args = texts(alloc, program, args)?;
    let body = Body::Net { args };
    put_row(alloc, program, version, path, model, body, listed)
}

/// What fits a program where a part does that is this network. A call that does nothing.
fn net_fits(_program: &Program, _net: &Net)
    requires { FitsTree _program.now (sim.Net _net.now) }
    ensures { FitsNet _program.now _net.now }
{}

/// What fits a program where a component of a network does: the part under its name. A call that does
/// nothing.
fn kid_fits(_program: &Program, _kid: &Kid)
    requires { FitsKid _program.now _kid.now }
    ensures { FitsTree _program.now (out-Kid _kid.now).sim }
{}

/// What fits a program where a network does: its arguments, its executive and its components. A call
/// that does nothing.
fn parts_fit(_program: &Program, _net: &Net)
    requires { FitsNet _program.now _net.now }
    ensures args { FitsArgs _program.now (out-Net _net.now).model.0 (out-Net _net.now).args }
    ensures boss { FitsLeaf _program.now (out-Net _net.now).boss }
    ensures kids { AllByRecursion (FitsKid _program.now) (out-Net _net.now).kids }
{}

/// Appends the rows of a part at a path, for an image of this version: a network's before its
/// executive's, and these before those of its components in the order of their names. Without memory
/// some of them may have been appended.
#[cycle(listing)]
pub fn list(
    alloc: Global,
    program: &Program,
    version: Version,
    sim: &Sim,
    path: &Path,
    listed: &mut Seq<Row>,
) -> Result<(), Memory>
    requires { FitsTree program.now sim.now }
    ensures { OnOk result (listed.new ≡ listed.old ++ rows (script program.now) version sim.now path.now) }
{
    match sim {
        Sim::Leaf(leaf) => put_atomic(alloc, program, version, path, leaf, listed),
        Sim::Net(net) => {
            net_fits(program, net.get());
            list_net(alloc, program, version, net.get(), path, listed)
        }
    }
}

#[cycle(listing)]
fn list_net(
    alloc: Global,
    program: &Program,
    version: Version,
    net: &Net,
    path: &Path,
    listed: &mut Seq<Row>,
) -> Result<(), Memory>
    requires { FitsNet program.now net.now }
    ensures { OnOk result (listed.new ≡ listed.old ++ rows_of_net (script program.now) version net.now path.now) }
{
    parts_fit(program, net);
    put_net(alloc, program, version, path, net.model, &net.args, listed)?;
    put_boss(alloc, program, version, path, &net.boss, listed)?;
    list_kids(alloc, program, version, net.kids.as_slice(), path, listed)
}

#[cycle(listing)]
fn list_kids(
    alloc: Global,
    program: &Program,
    version: Version,
    kids: &[Kid],
    path: &Path,
    listed: &mut Seq<Row>,
) -> Result<(), Memory>
    requires { AllByRecursion (FitsKid program.now) kids.now }
    ensures { OnOk result (listed.new ≡ listed.old ++ flat_map (λ kid. rows_of_kid (script program.now) version kid path.now) kids.now) }
{
    for kid in kids {
        list_kid(alloc, program, version, kid, path, listed)?;
    }
    Ok(())
}

#[cycle(listing)]
fn list_kid(
    alloc: Global,
    program: &Program,
    version: Version,
    kid: &Kid,
    path: &Path,
    listed: &mut Seq<Row>,
) -> Result<(), Memory>
    requires { FitsKid program.now kid.now }
    ensures { OnOk result (listed.new ≡ listed.old ++ rows_of_kid (script program.now) version kid.now path.now) }
{
    kid_fits(program, kid);
    let path = below(alloc, path, &kid.name)?;
    list(alloc, program, version, &kid.sim, &path, listed)
}
