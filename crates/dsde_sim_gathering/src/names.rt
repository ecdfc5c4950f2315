//! Components by their names.

ghost use Rattle.std.specs.Prelude.{◌≡◌, ◌<◌, map, length, IfSome};
ghost use Rattle.dsde_sim_tree.specs.Tree.{name_of};
ghost use Rattle.dsde_sim_tree.specs.given.structure.Gather.{sent_by};
ghost use Rattle.dsde_sim_tree.specs.given.structure.Survival.{AreInOrder};
ghost use Rattle.dsde_sim_gathering.specs.Boxes.{place_of};
ghost use Rattle.dsde_sim_gathering.specs.Passing.{AreSortedKids};

use dsde_sim_tree::Kid;
use dsde_sim_tree::given::structure::Given;
use dsde_values::{Name, Values, compare_names, one_name};

/// The index of what the component of a name sends, if it is one of these.
fn place_of_given(kids: &[Given], name: &Name) -> Option<usize>
    requires { AreInOrder (map (λ given. given.name) kids.now) }
    ensures is { result ≡ place_of name.now (map (λ given. given.name) kids.now) }
    ensures below { IfSome result (λ index. index < length kids.now) }
{
    one_name();
    match kids.binary_search_by(|given| compare_names(&given.name, name)) {
        Ok(index) => Some(index),
        Err(_) => None,
    }
}

/// The index of the component of a name, if it is one of these.
pub(crate) fn place_of_kid(kids: &[Kid], name: &Name) -> Option<usize>
    requires { AreSortedKids kids.now }
    ensures { result ≡ place_of name.now (map name_of kids.now) }
{
    one_name();
    match kids.binary_search_by(|kid| compare_names(&kid.name, name)) {
        Ok(index) => Some(index),
        Err(_) => None,
    }
}

/// What the component of a name sends.
pub(crate) fn sent_by<'s>(kids: &'s [Given], name: &Name) -> &'s [Values]
    requires { AreInOrder (map (λ given. given.name) kids.now) }
    ensures { result.now ≡ sent_by kids.now name.now }
{
    match place_of_given(kids, name) {
        Some(index) => kids[index].ports.as_slice(),
        None => &[],
    }
}
