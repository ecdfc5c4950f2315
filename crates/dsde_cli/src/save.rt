//! Images of runs are stored.

ghost use Rattle.std.specs.Prelude.{◌≡◌, ◌≢◌, ◌≤◌, is_some, true, Some, IfSome, IsSomeAnd};
ghost use Rattle.dsde_io.specs.Fault.{Rose};
ghost use Rattle.dsde_run_free.specs.given.run.SavedRuns.{image_at};
ghost use Rattle.dsde_cli.specs.Saved.{IsOfStore, Leaves, Stores, name_of, unstored};

use dsde_cli_status::{Status, What};
use dsde_io::{Shelf, ShelfEnd};
use dsde_run_free::given::core_engine::Core;
use dsde_run_free::given::run::save;
use std::alloc::Global;

/// What a run comes to that ended with this status, and left this engine, if any.
pub(crate) fn store_left<F: Shelf>(
    alloc: Global,
    status: Status,
    left: &Option<Core<'_>>,
    name: Option<&str>,
    shelf: &mut F,
) -> Status
    requires fresh { status ≡ Status.Done → IsSomeAnd left.now (λ core. is_some core.engine.tree ≡ true) }
    requires run { status ≢ Status.Unwritten What.Save }
    ensures other { status ≢ Status.Done → result ≡ status }
    ensures done { status ≡ Status.Done → IsOfStore (name_of name.entry) (Rose (F.faults shelf.old) (F.faults shelf.new)) result }
    ensures stored { result ≡ Status.Done → IfSome left.now (λ core. Stores (name_of name.entry) (image_at core.program core.engine) (F.held shelf.new)) }
    ensures kept { Leaves (name_of name.entry) (Rose (F.faults shelf.old) (F.faults shelf.new)) (F.held shelf.old) (F.held shelf.new) result }
    ensures counted { F.faults shelf.old ≤ F.faults shelf.new }
{
    match left {
        Some(core) => store_where_asked(alloc, status, core, name, shelf),
        None => status,
    }
}

/// What a run comes to that ended with this status, and left this engine: where all went well, its image is
/// stored under the name that is given, if one is.
pub(crate) fn store_where_asked<F: Shelf>(
    alloc: Global,
    status: Status,
    core: &Core<'_>,
    name: Option<&str>,
    shelf: &mut F,
) -> Status
    requires fresh { status ≡ Status.Done → is_some core.now.engine.tree ≡ true }
    requires run { status ≢ Status.Unwritten What.Save }
    ensures other { status ≢ Status.Done → result ≡ status }
    ensures done { status ≡ Status.Done → IsOfStore (name_of name.entry) (Rose (F.faults shelf.old) (F.faults shelf.new)) result }
    ensures stored { result ≡ Status.Done → Stores (name_of name.entry) (image_at core.now.program core.now.engine) (F.held shelf.new) }
    ensures kept { Leaves (name_of name.entry) (Rose (F.faults shelf.old) (F.faults shelf.new)) (F.held shelf.old) (F.held shelf.new) result }
    ensures counted { F.faults shelf.old ≤ F.faults shelf.new }
{
    match name {
        Some(name) => store_where_done(alloc, status, core, name, shelf),
        None => status,
    }
}

/// Stores the image of an engine under a name where all went well.
fn store_where_done<F: Shelf>(
    alloc: Global,
    status: Status,
    core: &Core<'_>,
    name: &str,
    shelf: &mut F,
) -> Status
    requires fresh { status ≡ Status.Done → is_some core.now.engine.tree ≡ true }
    requires run { status ≢ Status.Unwritten What.Save }
    ensures other { status ≢ Status.Done → result ≡ status }
    ensures done { status ≡ Status.Done → IsOfStore (Some name.now) (Rose (F.faults shelf.old) (F.faults shelf.new)) result }
    ensures stored { result ≡ Status.Done → Stores (Some name.now) (image_at core.now.program core.now.engine) (F.held shelf.new) }
    ensures kept { Leaves (Some name.now) (Rose (F.faults shelf.old) (F.faults shelf.new)) (F.held shelf.old) (F.held shelf.new) result }
    ensures counted { F.faults shelf.old ≤ F.faults shelf.new }
{
    match status {
        Status::Done => store_image(alloc, core, name, shelf),
        other => other,
    }
}

/// Stores the image of an engine.
fn store_image<F: Shelf>(alloc: Global, core: &Core<'_>, name: &str, shelf: &mut F) -> Status
    requires { is_some core.now.engine.tree ≡ true }
    ensures done { IsOfStore (Some name.now) (Rose (F.faults shelf.old) (F.faults shelf.new)) result }
    ensures stored { result ≡ Status.Done → Stores (Some name.now) (image_at core.now.program core.now.engine) (F.held shelf.new) }
    ensures kept { Leaves (Some name.now) (Rose (F.faults shelf.old) (F.faults shelf.new)) (F.held shelf.old) (F.held shelf.new) result }
    ensures counted { F.faults shelf.old ≤ F.faults shelf.new }
{
    match save(alloc, core) {
        Ok(text) => store_text(alloc, text.as_slice(), name, shelf),
        Err(_) => Status::Memory,
    }
}

/// Stores a text.
fn store_text<F: Shelf>(alloc: Global, text: &[u8], name: &str, shelf: &mut F) -> Status
    ensures done { IsOfStore (Some name.now) (Rose (F.faults shelf.old) (F.faults shelf.new)) result }
    ensures stored { result ≡ Status.Done → IfSome (F.held shelf.new) (λ map. map name.now ≡ Some text.now) }
    ensures kept { Leaves (Some name.now) (Rose (F.faults shelf.old) (F.faults shelf.new)) (F.held shelf.old) (F.held shelf.new) result }
    ensures counted { F.faults shelf.old ≤ F.faults shelf.new }
{
    match shelf.store(alloc, name, text) {
        Ok(()) => Status::Done,
        Err(end) => unstored(end),
    }
}

/// The status of a run whose image was not stored.
fn unstored(end: ShelfEnd) -> Status
    ensures { result ≡ unstored end }
{
    match end {
        ShelfEnd::Memory => Status::Memory,
        ShelfEnd::Failed | ShelfEnd::Absent | ShelfEnd::TooLong => Status::Unwritten(What::Save),
    }
}
