//! Which paths stand beneath the network of which executive.

ghost use Rattle.std.specs.Prelude.{◌≡◌, ◌++◌, ◌∷◌, [], drop};
ghost use Rattle.dsde_values.specs.Path.{root};
ghost use Rattle.dsde_sim_movers.specs.Places.{begin_with};
ghost use Rattle.dsde_sim_movers.specs.Movers.{seat_behind, seat_of};
ghost use Rattle.dsde_sim_movers.specs.Orders.{is_over};

use dsde_values::{Name, Path, one_name, orders_are_total};

/// Whether the first path is an executive's, beneath whose network the other stands.
pub(crate) fn is_over(own: &Path, other: &Path) -> bool
    ensures { result ≡ is_over root own.now other.now }
{
    let (names, is_boss) = seat_of(own);
    let (others, _) = seat_of(other);
    is_boss && begin_with(names, others)
}

/// The names of the component at a path, or of the network whose executive stands there; and whether it is an
/// executive.
pub fn seat_of(path: &Path) -> (&[Name], bool)
    ensures names { result.0.now ≡ (seat_behind root path.now).names }
    ensures boss { result.1 ≡ (seat_behind root path.now).is_boss }
{
    let names = behind_root(path);
    match names.split_last() {
        Some((last, front)) => seat_by(names, last, front),
        None => (names, false),
    }
}

/// The seat of names by the last of them.
fn seat_by<'p>(names: &'p [Name], last: &Name, front: &'p [Name]) -> (&'p [Name], bool)
    requires { names.now ≡ front.now ++ last.now ∷ [] }
    ensures names { result.0.now ≡ (seat_of names.now).names }
    ensures boss { result.1 ≡ (seat_of names.now).is_boss }
{
    orders_are_total();
    one_name();
    if last.is_executive() {
        (front, true)
    } else {
        (names, false)
    }
}

/// The names of a path behind the first.
fn behind_root(path: &Path) -> &[Name]
    ensures { result.now ≡ drop 1 path.now.names }
{
    match path.names.as_slice().split_first() {
        Some((_, names)) => names,
        None => &[],
    }
}

/// Whether names begin with these.
fn begin_with(front: &[Name], names: &[Name]) -> bool
    ensures { result ≡ begin_with front.now names.now }
{
    names.starts_with(front)
}
