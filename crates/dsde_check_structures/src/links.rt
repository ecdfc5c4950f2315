//! Links.

ghost use Rattle.std.specs.Prelude.{◌≡◌, ◌&&◌, OnOk};
ghost use Rattle.dsde_language.specs.declared.wrong.WrongKind.TheVariants.{BadLink};
ghost use Rattle.dsde_language.specs.Steps.{unless};
ghost use Rattle.dsde_language.specs.RuleStructures.{link_of};
ghost use Rattle.dsde_check_expressions.specs.given.check_scope.Says.{Says, Walks};
ghost use Rattle.dsde_check_structures.specs.Parts.{link_between, link_from};

use crate::ends::end_of;
use crate::site::Site;
use crate::translations::through;
use dsde_check_expressions::given::check_scope::{CheckError, above};
use dsde_check_expressions::given::check_tables::Local;
use dsde_language::{EndSeen, WrongKind};
use dsde_names::Names;
use dsde_syntax::{End, ViaPart};

/// No link goes from `net` to `net`: `BadLink` at it.
fn not_both_net(at: u32, source: &EndSeen, target: &EndSeen) -> Result<(), CheckError>
    ensures { Says (unless (source.now.is_net && target.now.is_net) BadLink at) result }
{
    if source.is_net && target.is_net {
        return Err(CheckError::Wrong(WrongKind::BadLink, at));
    }
    Ok(())
}

/// The height of a link: its source, its target, and how values go through it.
pub(crate) fn link<'m>(
    site: &Site<'_, 'm>,
    at: u32,
    from: &'m End,
    to: &'m End,
    via: &'m Option<ViaPart>,
    scope: &mut Names<Local<'m>>,
) -> Result<u32, CheckError>
    ensures walks { Walks (link_of site.now at from.now to.now via.now scope.old) result scope.new }
    ensures keeps { OnOk result (scope.new ≡ scope.old) }
{
    let source = end_of(site, true, &from.part, &from.port, scope)?;
    link_from(site, at, &source, to, via, scope)
}

/// The height of a link from this source.
fn link_from<'m>(
    site: &Site<'_, 'm>,
    at: u32,
    source: &EndSeen,
    to: &'m End,
    via: &'m Option<ViaPart>,
    scope: &mut Names<Local<'m>>,
) -> Result<u32, CheckError>
    ensures walks { Walks (link_from site.now at source.now to.now via.now scope.old) result scope.new }
    ensures keeps { OnOk result (scope.new ≡ scope.old) }
{
    let target = end_of(site, false, &to.part, &to.port, scope)?;
    link_between(site, at, source, &target, via, scope)
}

/// The height of a link between these ends.
fn link_between<'m>(
    site: &Site<'_, 'm>,
    at: u32,
    source: &EndSeen,
    target: &EndSeen,
    via: &'m Option<ViaPart>,
    scope: &mut Names<Local<'m>>,
) -> Result<u32, CheckError>
    ensures walks { Walks (link_between site.now at source.now target.now via.now scope.old) result scope.new }
    ensures keeps { OnOk result (scope.new ≡ scope.old) }
{
    not_both_net(at, source, target)?;
    let height = through(site.around(), at, &source.ty, &target.ty, via, scope)?;
    Ok(above(height.max(source.height.max(target.height))))
}
