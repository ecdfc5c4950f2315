//! Paths of movers in an order that is drawn.

ghost use Rattle.std.specs.Prelude.{◌≡◌, length, IfOk, OnOk};
ghost use Rattle.dsde_values.specs.Path.{root};
ghost use Rattle.dsde_drawing.specs.Drawing.{IsOrderly, drawn};
ghost use Rattle.dsde_drawing.specs.Words.{behind, next_words};
ghost use Rattle.dsde_sim_movers.specs.Orders.{is_over};

use crate::seat::is_over;
use dsde_drawing::{Waits, draw};
use dsde_sim_moving::copy_path;
use dsde_values::{Memory, Path, Seq};
use rand_pcg::Lcg64Xsh32;
use std::alloc::Global;
use std::marker::Model;

/// A path that an executive's waits for, where it stands beneath its network. Contracts see the path.
#[derive(Drop)]
struct Waiting {
    path: Path,
}

impl Model for Waiting {
    ghost use Rattle.dsde_values.specs.declared.path.Path.{Path};
    ghost use Rattle.dsde_values.specs.contracts.path.Path as whole;

    ghost Value = { Path };

    ghost coded = { whole.the_row.coded };

    ghost view = { λ waiting. waiting.path };
}

impl Waits for Waiting {
    ghost use Rattle.dsde_values.specs.Path.{root};
    ghost use Rattle.dsde_sim_movers.specs.Orders.{is_over};

    ghost waits = { is_over root };

    /// An executive waits for all beneath its network.
    fn waits_for(&self, other: &Waiting) -> bool {
        is_over(&self.path, &other.path)
    }
}

/// The paths of those that move in a turn, in the order that the words of a generator draw: each word
/// draws one of those that are left, of which an executive waits for all that stand beneath its network,
/// counted in path order, by its rest at their count. No executive stands before one beneath its
/// network, and those beneath it stand side by side, as they do in path order (`paths_in_order_are_orderly`).
///
/// The generator gives one word for each path; where memory runs out, it has given some of them.
pub fn order_of(
    alloc: Global,
    movers: &Seq<Path>,
    words: &mut Lcg64Xsh32,
) -> Result<Seq<Path>, Memory>
    requires { IsOrderly (is_over root) movers.now }
    ensures order { IfOk result (λ order. order ≡ drawn (is_over root) (length movers.now) movers.now (next_words (length movers.now) words.old)) }
    ensures words { OnOk result (words.new ≡ behind (length movers.now) words.old) }
{
    let order = draw(alloc, copies_of(alloc, movers.as_slice())?, words)?;
    paths_of(alloc, order)
}

/// Paths equal to these, which wait.
fn copies_of(alloc: Global, paths: &[Path]) -> Result<Vec<Waiting>, Memory>
    ensures { IfOk result (λ list. list.items ≡ paths.now) }
{
    let mut list = Vec::new(alloc);
    for path in paths {
        list.push(Waiting {
            path: copy_path(alloc, path)?,
        })?;
    }
    Ok(list)
}

/// The paths alone.
fn paths_of(alloc: Global, order: Seq<Waiting>) -> Result<Seq<Path>, Memory>
    ensures { IfOk result (λ paths. paths ≡ order) }
{
    let mut paths = Seq::new(alloc);
    for waiting in order.into_vec() {
        let Waiting { path } = waiting;
        paths.push(path)?;
    }
    Ok(paths)
}
