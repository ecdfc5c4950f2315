//! Models loaded from a shelf.

ghost use Rattle.std.specs.Prelude.{◌≡◌, ◌≤◌, Some, IfOk, IfErr, IfSome};
ghost use Rattle.dsde_io.specs.Fault.{Rose};
ghost use Rattle.dsde_language.specs.Right.{IsRight};
ghost use Rattle.dsde_run_free.specs.given.run.Run.{Running};
ghost use Rattle.dsde_syntax.specs.declared.decl.Model.{Model};
ghost use Rattle.dsde_cli_status.specs.given.cli_verdict.Verdict.{Accepts, Refuses};
ghost use Rattle.dsde_cli.specs.Causes.{AcceptsSome, Holds, HoldsModel, NoModel, NoneIn, Runs, RunsSome, spots_of, unread_model};
ghost use Rattle.dsde_cli.specs.Loads.{Under};
ghost use Rattle.dsde_cli.specs.Loaded.{own_of};

use dsde_cli_status::given::cli_verdict::{ReadModel, read_model};
use dsde_cli_status::{Status, What, Why};
use dsde_io::{Shelf, ShelfEnd};
use dsde_lexer::{Places, lex};
use dsde_syntax::Model;
use dsde_values::{Memory, Text};
use std::alloc::Global;

/// A model that is accepted, with the line and the column of each place of its text.
#[derive(Drop)]
pub(crate) struct Runnable {
    pub model: Model,
    pub places: Places,
}

/// The most bytes of a model's text.
const LONGEST_MODEL: u64 = 1_048_576;

/// The accepted model under a name, or the status of a call that finds none.
pub(crate) fn load_accepted<F: Shelf>(
    alloc: Global,
    name: &str,
    shelf: &mut F,
) -> Result<Model, Status>
    ensures accepted { IfOk result (λ model. Under name.now (F.held shelf.old) AcceptsSome) }
    ensures only { IfOk result (λ model. (other : Model) → HoldsModel name.now (F.held shelf.old) other → other ≡ model) }
    ensures none { IfErr result (NoModel Refuses name.now (F.held shelf.old) (Rose (F.faults shelf.old) (F.faults shelf.new))) }
    ensures kept { F.held shelf.new ≡ F.held shelf.old }
    ensures counted { F.faults shelf.old ≤ F.faults shelf.new }
{
    match load_text(alloc, name, shelf) {
        Ok(bytes) => accepted(alloc, bytes.as_slice()),
        Err(status) => Err(status),
    }
}

/// The accepted model under a name with its places, or the status of a call that finds none.
pub(crate) fn load_runnable<F: Shelf>(
    alloc: Global,
    name: &str,
    shelf: &mut F,
) -> Result<Runnable, Status>
    ensures right { IfOk result (λ loaded. IsRight loaded.model) }
    ensures runs { IfOk result (λ loaded. Under name.now (F.held shelf.old) RunsSome) }
    ensures only { IfOk result (λ loaded. (other : Running) → Holds name.now (F.held shelf.old) other → other ≡ own_of loaded) }
    ensures none { IfErr result (NoModel Refuses name.now (F.held shelf.old) (Rose (F.faults shelf.old) (F.faults shelf.new))) }
    ensures kept { F.held shelf.new ≡ F.held shelf.old }
    ensures counted { F.faults shelf.old ≤ F.faults shelf.new }
{
    match load_text(alloc, name, shelf) {
        Ok(bytes) => read_runnable(alloc, bytes.as_slice()),
        Err(status) => Err(status),
    }
}

/// The bytes under a name, or the status of a call that loads none.
fn load_text<F: Shelf>(alloc: Global, name: &str, shelf: &mut F) -> Result<Text, Status>
    ensures told { IfOk result (λ bytes. IfSome (F.held shelf.old) (λ map. map name.now ≡ Some bytes)) }
    ensures none { IfErr result (NoModel Refuses name.now (F.held shelf.old) (Rose (F.faults shelf.old) (F.faults shelf.new))) }
    ensures kept { F.held shelf.new ≡ F.held shelf.old }
    ensures counted { F.faults shelf.old ≤ F.faults shelf.new }
{
    match shelf.load(alloc, name, LONGEST_MODEL) {
        Ok(bytes) => Ok(bytes),
        Err(end) => Err(unread_model(end)),
    }
}

fn unread_model(end: ShelfEnd) -> Status
    ensures { result ≡ unread_model end }
{
    let why = match end {
        ShelfEnd::Absent => Why::Absent,
        ShelfEnd::TooLong => Why::TooLong,
        ShelfEnd::Failed => Why::Failed,
        ShelfEnd::Memory => return Status::Memory,
    };
    Status::Unread {
        what: What::Model,
        why,
    }
}

/// The model of a text that is accepted.
fn accepted(alloc: Global, bytes: &[u8]) -> Result<Model, Status>
    ensures accepted { IfOk result (Accepts bytes.now) }
    ensures only { IfOk result (λ model. (other : Model) → Accepts bytes.now other → other ≡ model) }
    ensures none { IfErr result (NoneIn Refuses bytes.now) }
{
    match read_model(alloc, bytes) {
        Ok(model) => Ok(model),
        Err(ReadModel::Refused { kind, line, column }) => {
            Err(Status::Refused { kind, line, column })
        }
        Err(ReadModel::TooLong) => Err(Status::Unread {
            what: What::Model,
            why: Why::TooLong,
        }),
        Err(ReadModel::Memory) => Err(Status::Memory),
    }
}

/// The model of a text that is accepted, with its places.
pub(crate) fn read_runnable(alloc: Global, bytes: &[u8]) -> Result<Runnable, Status>
    ensures runs { IfOk result (λ loaded. Runs bytes.now (own_of loaded)) }
    ensures only { IfOk result (λ loaded. (other : Running) → Runs bytes.now other → other ≡ own_of loaded) }
    ensures none { IfErr result (NoneIn Refuses bytes.now) }
{
    match accepted(alloc, bytes) {
        Ok(model) => placed(alloc, bytes, model),
        Err(status) => Err(status),
    }
}

/// The model of an accepted text, with its places.
fn placed(alloc: Global, bytes: &[u8], model: Model) -> Result<Runnable, Status>
    requires accepted { Accepts bytes.now model }
    requires only { (other : Model) → Accepts bytes.now other → other ≡ model }
    ensures runs { IfOk result (λ loaded. Runs bytes.now (own_of loaded)) }
    ensures only { IfOk result (λ loaded. (other : Running) → Runs bytes.now other → other ≡ own_of loaded) }
    ensures none { IfErr result (NoneIn Refuses bytes.now) }
{
    match places_of(alloc, bytes) {
        Ok(places) => Ok(Runnable { model, places }),
        Err(_) => Err(Status::Memory),
    }
}

/// The line and the column of each place of a text that is accepted. Such a text is cut into tokens,
/// so that the one error is want of memory.
fn places_of(alloc: Global, bytes: &[u8]) -> Result<Places, Memory>
    ensures { IfOk result (λ places. places ≡ spots_of bytes.now) }
{
    match lex(alloc, bytes) {
        Ok(tokens) => Places::new(alloc, bytes, tokens.as_slice()),
        Err(_) => Err(Memory),
    }
}
