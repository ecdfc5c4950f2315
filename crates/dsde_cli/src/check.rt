//! The command `check`: it loads a model, and writes that it is accepted.

ghost use Rattle.std.specs.Prelude.{◌≡◌, ◌≤◌, ℕ, IfOk, IfSome};
ghost use Rattle.dsde_io.specs.Fault.{Rose};
ghost use Rattle.dsde_syntax.specs.declared.decl.Model.{Model};
ghost use Rattle.dsde_cli.specs.Answer.{Answers, answer_of};
ghost use Rattle.dsde_cli.specs.Causes.{CauseCheck, HoldsModel, HoldsNoModel, IsBeforeRun, IsOfAnswer, Tells};
ghost use Rattle.dsde_cli.specs.Outcome.{CompletesCheck};
ghost use Rattle.dsde_cli.specs.Loads.{Has};
ghost use Rattle.dsde_cli_status.specs.given.cli_verdict.refusal_Refusal.{Refusal};
ghost use Rattle.dsde_cli_status.specs.given.cli_verdict.Verdict.{Refuses};

use crate::load::load_accepted;
use dsde_cli_status::given::cli_verdict::one_verdict;
use dsde_cli_status::{Status, What};
use dsde_io::{Shelf, Sink, SinkEnd, write_all};
use dsde_syntax::{Memory, Model, print_model};
use dsde_values::Text;
use std::alloc::Global;

/// Checks the model of a name, and writes that it is accepted, or its text where that is to be
/// printed.
pub(crate) fn load_and_check<F: Shelf, W: Sink>(
    alloc: Global,
    name: &str,
    print: bool,
    shelf: &mut F,
    out: &mut W,
) -> Status
    ensures checks { (model : Model) → HoldsModel name.now (F.held shelf.old) model
        → IfSome (W.written out.old) (λ written. Answers (answer_of print model) written (W.written out.new) result) }
    ensures cause { CauseCheck name.now (F.held shelf.old) (Rose (F.faults shelf.old) (F.faults shelf.new))
        (Rose (W.faults out.old) (W.faults out.new)) result }
    ensures complete { (model : Model) → HoldsModel name.now (F.held shelf.old) model
        → ¬ (Rose (F.faults shelf.old) (F.faults shelf.new)) → ¬ (Rose (W.faults out.old) (W.faults out.new)) → CompletesCheck result }
    ensures refused { (kind : Refusal) → (line column : ℕ)
        → Has name.now (F.held shelf.old) (λ bytes. Refuses bytes kind line column) → Tells kind line column result }
    ensures unanswered { HoldsNoModel name.now (F.held shelf.old) → out.new ≡ out.old }
    ensures untouched { IsBeforeRun result → out.new ≡ out.old }
    ensures kept { F.held shelf.new ≡ F.held shelf.old }
    ensures shelf_counted { F.faults shelf.old ≤ F.faults shelf.new }
    ensures out_counted { W.faults out.old ≤ W.faults out.new }
{
    // A law: a text has one verdict.
    one_verdict();
    match load_accepted(alloc, name, shelf) {
        Ok(model) => write_answer(alloc, &model, print, out),
        Err(status) => status,
    }
}

/// Writes what is answered of an accepted model.
fn write_answer<W: Sink>(alloc: Global, model: &Model, print: bool, out: &mut W) -> Status
    ensures answers { IfSome (W.written out.old) (λ written. Answers (answer_of print model.now) written (W.written out.new) result) }
    ensures cause { IsOfAnswer (Rose (W.faults out.old) (W.faults out.new)) result }
    ensures counted { W.faults out.old ≤ W.faults out.new }
{
    let text = match answer_of(alloc, model, print) {
        Ok(text) => text,
        Err(_) => return Status::Memory,
    };
    match write_all(out, text.as_slice()) {
        Ok(()) => Status::Done,
        Err(SinkEnd::Failed) => Status::Unwritten(What::Output),
        Err(SinkEnd::Memory) => Status::Memory,
    }
}

/// What is answered of an accepted model.
fn answer_of(alloc: Global, model: &Model, print: bool) -> Result<Text, Memory>
    ensures { IfOk result (λ text. text ≡ answer_of print model.now) }
{
    if print {
        return print_model(alloc, model);
    }
    Text::from_slice(alloc, b"accepted\n")
}
