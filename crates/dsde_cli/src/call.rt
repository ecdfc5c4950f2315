//! The top call: it does what the words ask for, and says how it ended.

ghost use Rattle.std.specs.Prelude.{◌≡◌, ◌≢◌, ◌≤◌, ◌⊎◌, ℕ, [], map, string_bytes, Some, None, IfSome};
ghost use Rattle.dsde_io.specs.Fault.{Rose};
ghost use Rattle.dsde_input_records.specs.Records.{Records};
ghost use Rattle.dsde_run_free.specs.given.run.Reading.{Told, TakesWanted};
ghost use Rattle.dsde_run_free.specs.given.run.Run.{Running, records_in, run};
ghost use Rattle.dsde_run_free.specs.given.run.Resumed.{records_for, resumed, resumed_on};
ghost use Rattle.dsde_run_free.specs.given.run.SavedRuns.{image_left};
ghost use Rattle.dsde_run_big.specs.Model.{big_text};
ghost use Rattle.dsde_cli_status.specs.given.trace.pick_Pick_TheVariants.{All};
ghost use Rattle.dsde_run_free.specs.given.run.Counting.{summary_text};
ghost use Rattle.dsde_cli_command.specs.Commands.{Asked, AsksBig, AsksCheck, AsksFree, AsksResume, command_of};
ghost use Rattle.dsde_cli.specs.Back.{ComesBack, IsRefusedFor, NoneSaved, SaysBack, TellsSave};
ghost use Rattle.dsde_cli.specs.Loads.{Has};
ghost use Rattle.dsde_cli.specs.RunOutcome.{Comes, SaysEnd};
ghost use Rattle.dsde_cli.specs.Saved.{Leaves, Stores};
ghost use Rattle.dsde_cli_status.specs.Note.{Noted, WritesNoteFront};
ghost use Rattle.dsde_cli_status.specs.declared.status.SaveFault.{SaveFault};
ghost use Rattle.dsde_cli.specs.Answer.{Checked, Answers, answer_of};
ghost use Rattle.dsde_cli.specs.Big.{CauseBig, Drawn, Summarizes, run_of};
ghost use Rattle.dsde_cli.specs.Causes.{Cause, CauseCheck, CauseResume, Holds, HoldsNone, HoldsNoModel, IsBeforeRun, Tells};
ghost use Rattle.dsde_cli_status.specs.given.cli_verdict.refusal_Refusal.{Refusal};
ghost use Rattle.dsde_cli_status.specs.given.cli_verdict.Verdict.{Refuses};
ghost use Rattle.dsde_cli.specs.Delivered.{IsDelivered};
ghost use Rattle.dsde_cli.specs.Loaded.{Loaded, LoadedFree, TakenUp, pick_back, pick_in, save_of, tells_free, tells_of, turns_back};
ghost use Rattle.dsde_cli.specs.Outcome.{Completes, CompletesBack, CompletesCheck};

use crate::big::run_big;
use crate::check::load_and_check;
use crate::free::load_and_free;
use crate::resume::load_and_resume;
use crate::run::load_and_run;
use crate::runs_are_delivered;
use dsde_cli_command::{Command, read_command};
use dsde_cli_status::{SaveFault, Status, report};
use dsde_io::{Shelf, Sink, Source};
use std::alloc::Global;

/// Does what the words ask for, and says in one line on `notes` how it ended where not all went well.
///
/// `check MODEL [--print]` loads the model from the shelf, and writes to `out` that it is accepted,
/// or its text. `run MODEL --turns N` loads the model, runs it from its start on the input for at
/// most N turns, and writes its trace to `out` as it comes: the lines of a turn before the next record
/// of the input is wanted. With `--only outputs` or `--only structure` only those lines are written. With
/// `--save FILE` the image of the run is stored on the shelf, where it ended by its bound or quiet.
/// `resume MODEL FILE --turns N` loads the model and the image of a run of it, skips the records of the
/// input that were taken in that run, and goes on for at most N turns, with the same two options; the input
/// is the whole input of the run from its start.
/// `big SEED --turns N` runs the large model of a seed on an empty input, and writes the summary of its
/// run to `out`: how many lines of each kind its trace has, and the last of them.
/// `free MODEL --turns N --order SEED` runs the model as `run` does, but those that move in a turn do so in an
/// order that the words of the generator of the seed draw: an executive after all beneath its network.
/// Any other words spell no command. A write to `notes` that failed changes nothing; one that ran out
/// of memory makes the status `Memory`.
pub fn dsde<F: Shelf, R: Source, W: Sink, E: Sink>(
    alloc: Global,
    words: &[String],
    shelf: &mut F,
    input: &mut R,
    out: &mut W,
    notes: &mut E,
) -> Status
    // The trace of the model is that which the definition of a run gives, and the call ends as the
    // run ends: where the shelf tells the model, the source its bytes and the sink what it has.
    ensures runs { (loaded : Loaded (map string_bytes words.now) (F.held shelf.old))
        → IfSome (R.left input.old) (λ bytes. IfSome (W.written out.old) (λ written.
        Comes loaded.own (pick_in loaded) (tells_of loaded) bytes (R.left input.new) written (W.written out.new) result)) }

    // The status says how that run ends, whatever the sink tells.
    ensures ends { (loaded : Loaded (map string_bytes words.now) (F.held shelf.old))
        → IfSome (R.left input.old) (λ bytes. SaysEnd (tells_of loaded (records_in loaded.own bytes)).end (R.left input.new) result) }

    // Where all went well the shelf has the image of the run under the name that the words give for it.
    ensures stored { (loaded : Loaded (map string_bytes words.now) (F.held shelf.old)) → result ≡ Status.Done
        → IfSome (R.left input.old) (λ bytes. Stores loaded.asked.run.save (image_left loaded.own.model (tells_of loaded (records_in loaded.own bytes))) (F.held shelf.new)) }

    // Nothing is delivered in that run outside the structure of its moment.
    ensures delivered { (loaded : Loaded (map string_bytes words.now) (F.held shelf.old)) → (records : Records)
        → IsDelivered loaded.own records loaded.asked.run.turns }

    // An accepted model is run to the end: where no device fails, the status is that of the run's end,
    // which there always is, unless memory runs out. And its check is done.
    ensures complete { (loaded : Loaded (map string_bytes words.now) (F.held shelf.old))
        → ¬ (Rose (F.faults shelf.old) (F.faults shelf.new)) → ¬ (Rose (R.faults input.old) (R.faults input.new)) → ¬ (Rose (W.faults out.old) (W.faults out.new))
        → Completes loaded.own (tells_of loaded) (R.left input.old) result }
    ensures complete_check { Checked (map string_bytes words.now) (F.held shelf.old)
        → ¬ (Rose (F.faults shelf.old) (F.faults shelf.new)) → ¬ (Rose (W.faults out.old) (W.faults out.new)) → CompletesCheck result }

    // No byte of the input is taken that no turn wants, but for at most 4,096 behind the last line wanted.
    ensures taken { (loaded : Loaded (map string_bytes words.now) (F.held shelf.old))
        → Told (R.left input.old) (R.left input.new) (λ before. TakesWanted (tells_of loaded) (records_in loaded.own before) [] before) }
    ensures idle { (asked : Asked (map string_bytes words.now)) → asked.run.turns ≡ 0 → input.new ≡ input.old }

    // A run that is taken up again with the image of an engine writes exactly what that engine tells which goes
    // on with the input, less the records that it took, and the call ends as that run ends; nothing is written
    // where those records are too few, or a line among them is bad.
    ensures resumes { (again : TakenUp (map string_bytes words.now) (F.held shelf.old))
        → IfSome (R.left input.old) (λ bytes. IfSome (W.written out.old) (λ written.
        ComesBack again.own (pick_back again) (turns_back again) again.engine bytes (R.left input.new) written (W.written out.new) result)) }
    ensures ends_resumed { (again : TakenUp (map string_bytes words.now) (F.held shelf.old))
        → IfSome (R.left input.old) (λ bytes. SaysBack again.own (turns_back again) again.engine bytes (R.left input.new) result) }
    ensures stored_resumed { (again : TakenUp (map string_bytes words.now) (F.held shelf.old)) → result ≡ Status.Done
        → IfSome (R.left input.old) (λ bytes. Stores again.asked.resume.run.save (image_left again.own.model (resumed again.own bytes (turns_back again) again.engine)) (F.held shelf.new)) }
    ensures complete_resumed { (again : TakenUp (map string_bytes words.now) (F.held shelf.old))
        → ¬ (Rose (F.faults shelf.old) (F.faults shelf.new)) → ¬ (Rose (R.faults input.old) (R.faults input.new)) → ¬ (Rose (W.faults out.old) (W.faults out.new))
        → CompletesBack again.own (turns_back again) again.engine (R.left input.old) result }
    ensures taken_resumed { (again : TakenUp (map string_bytes words.now) (F.held shelf.old))
        → Told (R.left input.old) (R.left input.new) (λ before.
        TakesWanted (resumed_on again.own (turns_back again) again.engine) (records_for again.own again.engine before) [] before) }

    // Of a model that is accepted, a check writes so, or its text, where the shelf tells the model
    // and the sink what it has; nothing of the input is read.
    ensures checks { (checked : Checked (map string_bytes words.now) (F.held shelf.old))
        → IfSome (W.written out.old) (λ written.
        Answers (answer_of checked.asked.check.print checked.model) written (W.written out.new) result) }
    ensures unread { AsksCheck (map string_bytes words.now) → input.new ≡ input.old }

    // Of the large model of a seed the summary of its run on an empty input is written, and the status says
    // how that run ends, which it does. Nothing is loaded, and nothing of the input is read.
    ensures summarizes { (drawn : Drawn (map string_bytes words.now)) → IfSome (W.written out.old) (λ written.
        Summarizes (summary_text drawn.own (run_of drawn)) written (W.written out.new) result) }
    ensures ends_big { (drawn : Drawn (map string_bytes words.now)) → SaysEnd (run_of drawn).end (Some []) result }
    ensures complete_big { (drawn : Drawn (map string_bytes words.now)) → ¬ (Rose (W.faults out.old) (W.faults out.new))
        → Completes drawn.own (λ records. run drawn.own records drawn.asked.big.turns) (Some []) result }
    ensures unread_big { AsksBig (map string_bytes words.now) → (shelf.new ≡ shelf.old) × (input.new ≡ input.old) }

    // A run in drawn orders writes exactly the trace of the run whose turns take those orders, and the call ends as
    // that run ends, which it does where no device fails, unless memory runs out.
    ensures runs_free { (loaded : LoadedFree (map string_bytes words.now) (F.held shelf.old))
        → IfSome (R.left input.old) (λ bytes. IfSome (W.written out.old) (λ written.
        Comes loaded.own All (tells_free loaded) bytes (R.left input.new) written (W.written out.new) result)) }
    ensures ends_free { (loaded : LoadedFree (map string_bytes words.now) (F.held shelf.old))
        → IfSome (R.left input.old) (λ bytes. SaysEnd (tells_free loaded (records_in loaded.own bytes)).end (R.left input.new) result) }
    ensures complete_free { (loaded : LoadedFree (map string_bytes words.now) (F.held shelf.old))
        → ¬ (Rose (F.faults shelf.old) (F.faults shelf.new)) → ¬ (Rose (R.faults input.old) (R.faults input.new)) → ¬ (Rose (W.faults out.old) (W.faults out.new))
        → Completes loaded.own (tells_free loaded) (R.left input.old) result }
    ensures taken_free { (loaded : LoadedFree (map string_bytes words.now) (F.held shelf.old))
        → Told (R.left input.old) (R.left input.new) (λ before. TakesWanted (tells_free loaded) (records_in loaded.own before) [] before) }
    ensures idle_free { (asked : AsksFree (map string_bytes words.now)) → asked.free.turns ≡ 0 → input.new ≡ input.old }

    // Each status has its cause.
    ensures cause { (asked : Asked (map string_bytes words.now))
        → Cause asked.run.model asked.run.save (F.held shelf.old) (Rose (F.faults shelf.old) (F.faults shelf.new))
        (Rose (R.faults input.old) (R.faults input.new)) (Rose (W.faults out.old) (W.faults out.new)) result }
    ensures cause_resumed { (asked : AsksResume (map string_bytes words.now))
        → CauseResume asked.resume.run.model asked.resume.file asked.resume.run.save (F.held shelf.old) (Rose (F.faults shelf.old) (F.faults shelf.new))
        (Rose (R.faults input.old) (R.faults input.new)) (Rose (W.faults out.old) (W.faults out.new)) result }
    ensures cause_check { (asked : AsksCheck (map string_bytes words.now))
        → CauseCheck asked.check.model (F.held shelf.old) (Rose (F.faults shelf.old) (F.faults shelf.new))
        (Rose (W.faults out.old) (W.faults out.new)) result }
    ensures cause_big { (asked : AsksBig (map string_bytes words.now))
        → CauseBig asked.big.seed (Rose (W.faults out.old) (W.faults out.new)) result }
    ensures cause_free { (asked : AsksFree (map string_bytes words.now))
        → Cause asked.free.model None (F.held shelf.old) (Rose (F.faults shelf.old) (F.faults shelf.new))
        (Rose (R.faults input.old) (R.faults input.new)) (Rose (W.faults out.old) (W.faults out.new)) result }
    // A model that is refused is so exactly for what its bytes are refused for, and there.
    ensures refused { (asked : Asked (map string_bytes words.now)) → (kind : Refusal) → (line column : ℕ)
        → Has asked.run.model (F.held shelf.old) (λ bytes. Refuses bytes kind line column) → Tells kind line column result }
    ensures refused_resumed { (asked : AsksResume (map string_bytes words.now)) → (kind : Refusal) → (line column : ℕ)
        → Has asked.resume.run.model (F.held shelf.old) (λ bytes. Refuses bytes kind line column) → Tells kind line column result }
    ensures refused_check { (asked : AsksCheck (map string_bytes words.now)) → (kind : Refusal) → (line column : ℕ)
        → Has asked.check.model (F.held shelf.old) (λ bytes. Refuses bytes kind line column) → Tells kind line column result }
    ensures refused_big { (asked : AsksBig (map string_bytes words.now)) → (kind : Refusal) → (line column : ℕ)
        → Refuses (big_text asked.big.seed) kind line column → Tells kind line column result }
    ensures refused_free { (asked : AsksFree (map string_bytes words.now)) → (kind : Refusal) → (line column : ℕ)
        → Has asked.free.model (F.held shelf.old) (λ bytes. Refuses bytes kind line column) → Tells kind line column result }
    // And so is an image that is none of an engine of the model.
    ensures refused_save { (asked : AsksResume (map string_bytes words.now)) → (own : Running) → Holds asked.resume.run.model (F.held shelf.old) own
        → (fault : SaveFault) → Has asked.resume.file (F.held shelf.old) (IsRefusedFor own.model fault) → TellsSave fault result }
    ensures usage { command_of (map string_bytes words.now) ≡ None
        → ((result ≡ Status.Usage) ⊎ (result ≡ Status.Memory)) × (shelf.new ≡ shelf.old) × (input.new ≡ input.old) × (out.new ≡ out.old) }

    // `notes` gains the line of the status, or a part from its front where that write failed.
    // Where memory ran out it gains some of a line from its front, and in no case anything else.
    ensures noted { result ≢ Status.Memory
        → Noted (Rose (E.faults notes.old) (E.faults notes.new)) (E.written notes.old) (E.written notes.new) result }
    ensures noted_front { IfSome (E.written notes.old) (λ written. WritesNoteFront written (E.written notes.new)) }

    // What stays as it was.
    ensures unrun { (asked : Asked (map string_bytes words.now))
        → HoldsNone asked.run.model (F.held shelf.old) → (input.new ≡ input.old) × (out.new ≡ out.old) }
    ensures unrun_resumed { (asked : AsksResume (map string_bytes words.now))
        → HoldsNone asked.resume.run.model (F.held shelf.old) → (input.new ≡ input.old) × (out.new ≡ out.old) }
    ensures unrun_free { (asked : AsksFree (map string_bytes words.now))
        → HoldsNone asked.free.model (F.held shelf.old) → (input.new ≡ input.old) × (out.new ≡ out.old) }
    ensures unresumed { (asked : AsksResume (map string_bytes words.now)) → (own : Running) → Holds asked.resume.run.model (F.held shelf.old) own
        → NoneSaved own.model asked.resume.file (F.held shelf.old) → (input.new ≡ input.old) × (out.new ≡ out.old) }
    ensures few { result ≡ Status.BadSave SaveFault.FewRecords → out.new ≡ out.old }
    ensures unanswered { (asked : AsksCheck (map string_bytes words.now))
        → HoldsNoModel asked.check.model (F.held shelf.old) → out.new ≡ out.old }
    ensures untouched { IsBeforeRun result → (input.new ≡ input.old) × (out.new ≡ out.old) }
    // Each name but the one under which the image is to be stored has what it had. That one has the image, where
    // all went well; it has what it had, unless a store failed.
    ensures kept { Leaves (save_of (map string_bytes words.now)) (Rose (F.faults shelf.old) (F.faults shelf.new)) (F.held shelf.old) (F.held shelf.new) result }
    ensures shelf_counted { F.faults shelf.old ≤ F.faults shelf.new }
    ensures input_counted { R.faults input.old ≤ R.faults input.new }
    ensures out_counted { W.faults out.old ≤ W.faults out.new }
    ensures notes_counted { E.faults notes.old ≤ E.faults notes.new }
{
    // A law: each turn of a run is delivered by the tree before it.
    runs_are_delivered();
    let status = match read_command(words) {
        Some(Command::Check { model, print }) => load_and_check(alloc, model, print, shelf, out),
        Some(Command::Run(run)) => load_and_run(alloc, &run, shelf, input, out),
        Some(Command::Resume { file, run }) => {
            load_and_resume(alloc, file, &run, shelf, input, out)
        }
        Some(Command::Big { seed, turns }) => run_big(alloc, seed, turns, out),
        Some(Command::Free { model, turns, seed }) => {
            load_and_free(alloc, model, seed, turns, shelf, input, out)
        }
        None => Status::Usage,
    };
    report(alloc, status, notes)
}
