//! Paths of the parts of a tree.

ghost use Rattle.std.specs.Prelude.{◌≡◌, Ok, IfOk};
ghost use Rattle.dsde_values.specs.Path.{EXEC};
ghost use Rattle.dsde_sim_tree.specs.Told.{at, below, to_boss, Comes};

use dsde_faults::LeafEnd;
use dsde_sim_tree::TurnEnd;
use dsde_values::{Memory, Name, Path, Seq, Stem};
use std::alloc::Global;

/// A path equal to this one.
pub fn copy_path(alloc: Global, path: &Path) -> Result<Path, Memory>
    ensures { IfOk result (λ copy. copy ≡ path.now) }
{
    let mut names = Seq::new(alloc);
    for name in path.names.as_slice() {
        names.push(name.copy(alloc)?)?;
    }
    Ok(Path { names })
}

/// The path of the component with this name of the network at a path.
pub fn below(alloc: Global, path: &Path, name: &Name) -> Result<Path, Memory>
    ensures { IfOk result (λ own. own ≡ below path.now name.now) }
{
    let Path { mut names } = copy_path(alloc, path)?;
    names.push(name.copy(alloc)?)?;
    Ok(Path { names })
}

/// The name of an executive.
fn exec(alloc: Global) -> Result<Name, Memory>
    ensures { IfOk result (λ name. name ≡ EXEC) }
{
    Ok(Name {
        stem: Stem::from_slice(alloc, b"exec")?,
        index: None,
    })
}

/// The path of the executive of the network at a path.
pub fn boss_of(alloc: Global, path: &Path) -> Result<Path, Memory>
    ensures { IfOk result (λ own. own ≡ to_boss path.now) }
{
    let name = exec(alloc)?;
    below(alloc, path, &name)
}

/// What the end of the step of the part at a path is for the whole model.
pub fn at<T>(alloc: Global, path: &Path, outcome: Result<T, LeafEnd>) -> Result<T, TurnEnd>
    ensures is { Comes (at path.now outcome) result }
    ensures value { IfOk result (λ value. outcome ≡ Ok value) }
{
    match outcome {
        Ok(value) => Ok(value),
        Err(LeafEnd::Memory) => Err(TurnEnd::Memory),
        Err(LeafEnd::Fault(site, kind, at)) => Err(TurnEnd::Fault {
            path: copy_path(alloc, path)?,
            site,
            kind,
            at,
        }),
    }
}
