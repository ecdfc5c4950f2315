//! The network of an executive, by its path.

ghost use Rattle.std.specs.Prelude.{◌≡◌, List};
ghost use Rattle.dsde_values.specs.Path.{root};
ghost use Rattle.dsde_values.specs.declared.name.Name.{Name as AName};
ghost use Rattle.dsde_values.specs.declared.path.Path.{Path as APath};
ghost use Rattle.dsde_sim_tree.specs.Told.{to_boss};
ghost use Rattle.dsde_sim_movers.specs.Movers.{path_behind};

use dsde_values::{Name, Path};

/// The path of the network whose executive has a path.
pub(crate) fn network_of(path: Path) -> Path
    ensures { (network : APath) → path ≡ to_boss network → result ≡ network }
{
    let Path { mut names } = path;
    let _ = names.pop();
    Path { names }
}

/// The names behind the root's in a path.
pub(crate) fn place_in(path: &Path) -> &[Name]
    ensures { (place : List AName) → path.now ≡ path_behind root place → result.now ≡ place }
{
    let names = path.names.as_slice();
    match names.split_first() {
        Some((_, place)) => place,
        None => names,
    }
}
