//! Structures.

ghost use Rattle.std.specs.Prelude.{[], map};
ghost use Rattle.dsde_language.specs.Blocks.{inner};
ghost use Rattle.dsde_language.specs.RuleStructures.{enter, enter_all, item_walk, structure_of};
ghost use Rattle.dsde_check_expressions.specs.given.check_scope.Says.{Says};

use crate::families::enter_all;
use crate::items::inner;
use crate::site::Site;
use dsde_check_expressions::given::check_scope::{Around, CheckError};
use dsde_check_expressions::given::check_tables::{FamilyEntry, Local, PortEntry};
use dsde_names::Names;
use dsde_syntax::Item;

/// The models of the components of a structure.
fn families_of<'m>(
    around: &Around<'m>,
    items: &'m [Item],
) -> Result<Names<FamilyEntry<'m>>, CheckError>
    ensures { Says (enter_all (map (enter around.now.known) items.now) []) result }
{
    let mut families = Names::new(around.alloc());
    enter_all(around.known(), items, &mut families)?;
    Ok(families)
}

/// The height of the highest item, where components have these models.
fn over<'m>(
    around: &Around<'m>,
    ports: &Names<PortEntry<'m>>,
    execs: &Names<PortEntry<'m>>,
    families: &Names<FamilyEntry<'m>>,
    items: &'m [Item],
    scope: &mut Names<Local<'m>>,
) -> Result<u32, CheckError>
    ensures { Says (inner (map (item_walk (record { around = around.now; ports = ports.now; execs = execs.now; families = families.now })) items.now) 0 scope.old) result }
{
    let site = Site::new(around, ports, execs, families);
    inner(&site, items, 0, scope)
}

/// The height of the highest item of a structure, over the scope of its executive. The network has
/// these ports, and its executive those.
pub fn structure<'m>(
    around: &Around<'m>,
    ports: &Names<PortEntry<'m>>,
    execs: &Names<PortEntry<'m>>,
    items: &'m [Item],
    scope: &mut Names<Local<'m>>,
) -> Result<u32, CheckError>
    ensures { Says (structure_of around.now ports.now execs.now items.now scope.old) result }
{
    let families = families_of(around, items)?;
    over(around, ports, execs, &families, items, scope)
}
