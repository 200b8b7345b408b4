//! The top call.
ghost use Rattle.std.specs.Prelude.{◌≡◌, ◌≢◌, ◌≤◌, ◌↔◌, ◌⊎◌, ℕ, List, IfOk, IfErr, IsSomeAnd, Some, None};
ghost use Rattle.std.specs.Result.{IsErrAnd};
ghost use Rattle.std.specs.Io.KnownBytes.{Keeps};
ghost use Rattle.felm_io.specs.Causes.{Rose};
ghost use Rattle.felm_printer.specs.declared.status.Status.{Status};
ghost use Rattle.felm_printer.specs.declared.status.Which.{Which};
ghost use Rattle.felm_printer.specs.Fault.{fault_text, FaultPut};
ghost use Rattle.felm_cli.specs.declared.words.Command.TheVariants as command;
ghost use Rattle.felm_cli.specs.Words.{Texts, OrderValue, order_in, file_of};
ghost use Rattle.felm_cli.specs.Outside.{files_of, sink_of};
ghost use Rattle.felm_cli.specs.Texts.{IsFirstLong, IsFaultOf, OfOrder, OfTexts, OfPlan};
ghost use Rattle.felm_cli.specs.Ends.{LeavesText};
ghost use Rattle.felm_cli.specs.Outcomes.{IsRead, IsOfTexts, IsQuiet, IsOfLoad, HasLongProgram, UnlessRead, NoPlan, HaveText, OrderOutcome};
ghost use Rattle.felm_cli.specs.Promises.{HaveResult, HaveStop, HaveFull, HavePrefix, Give, ComeTo, Answers, LackDefault, NoneFailed, CanBeDone};
ghost use Rattle.felm_cli.specs.Names.{file_named, limits_named};
ghost use Rattle.felm_cli.specs.Views.{order_value};

use crate::ended::Ended;
use crate::once::{do_once, file_named, put_end};
use crate::run::run_with_workers;
use crate::texts::read_order;
use crate::words::{Order, default_limits, read_words};
use felm_io::{Files, Sink};
use felm_printer::{Status, Which, tell};
use felm_workers::Gate;
use std::alloc::Global;
use std::sync::Wait;
use std::thread::Threads;

/// Does the command that the words give: `run PROGRAM SCRIPT`, with workers that pass the gate with
/// each turn, and every other one as `felm_once`. It may wait.
///
/// Nothing is put to `out` before the run has ended. A status other than success has its line on
/// `err`, and that a put there is refused changes no status.
pub fn felm<F: Files, S: Sink, E: Sink, G: Gate + Sync, R: Threads + Wait + Sync>(
    rt: &R,
    alloc: Global,
    words: &[String],
    files: &mut F,
    out: &mut S,
    err: &mut E,
    gate: &G,
) -> Status
    // The words are refused exactly where they give no order.
    ensures usage { (result ≡ Status.Usage) ↔ (order_in words.now ≡ None) }

    // Success has appended the result text of a complete journal, in which each event of an async comes
    // after its cause; or the text of a graph.
    ensures success { result ≡ Status.Success
        → OfPlan (F.bytes files.old) (order_in words.now) (HaveResult (S.bytes out.old) (S.bytes out.new)) }
    // A run that stops has appended the stopped text, one that is full the result text so far.
    ensures turn { (node position : ℕ) → result ≡ Status.Turn node position
        → OfPlan (F.bytes files.old) (order_in words.now)
        (HaveStop node position (S.bytes out.old) (S.bytes out.new)) }
    ensures journal { result ≡ Status.Journal
        → OfPlan (F.bytes files.old) (order_in words.now) (HaveFull (S.bytes out.old) (S.bytes out.new)) }
    // Whoever leaves a whole text says that no put of it was refused.
    ensures unrefused { LeavesText result
        → (S.faults out.new ≡ S.faults out.old) × (S.short out.new ≡ S.short out.old) }

    // Read comes only where a load of the file that is named failed in this call, and all else says that
    // no load did.
    ensures read { (which : Which) → result ≡ Status.Read which → OfOrder (order_in words.now)
        (λ order. IsSomeAnd (file_of which order)
        (λ name. Rose (F.faults files.old name) (F.faults files.new name))) }
    ensures loaded { ¬ IsRead result → (name : List ℕ) → F.faults files.new name ≡ F.faults files.old name }
    // A text that is too long is named, the program before the script.
    ensures too_long { (which : Which) → result ≡ Status.TooLong which
        → OfOrder (order_in words.now) (λ order. IsFirstLong (F.bytes files.old) order.texts which) }
    // A program that is too long is told before anything of the script, whether or not that can be loaded.
    ensures long_program { (order : OrderValue) → order_in words.now ≡ Some order
        → HasLongProgram (F.bytes files.old) order → IsOfLoad result }
    // What is wrong with the texts is told by its cause and place, line or limit.
    ensures faulty { IsOfTexts result
        → OfTexts (F.bytes files.old) (order_in words.now) (λ order texts. IsFaultOf order texts result) }

    // Each of these comes wherever the texts come to it, and so does the end that is sure, unless a load
    // or a put failed or there was no memory.
    ensures exact { (order : OrderValue) (texts : Texts) (expected : Status)
        → Give (F.bytes files.old) (order_in words.now) order texts
        → ComeTo order texts expected → Answers expected result }
    // A default over budget stops the run before its first event, at the least node without one.
    ensures no_default { (order : OrderValue) (texts : Texts) (node : ℕ)
        → Give (F.bytes files.old) (order_in words.now) order texts
        → LackDefault order texts node → Answers (Status.Turn node 0) result }
    // Texts that can be done, and an outside without faults, give success, unless there was no memory.
    ensures complete { (order : OrderValue) (texts : Texts)
        → Give (F.bytes files.old) (order_in words.now) order texts
        → CanBeDone (S.bytes out.old) (S.bytes out.new) order texts
        → NoneFailed (F.faults files.old) (F.faults files.new) (S.faults out.old) (S.faults out.new) order
        → (result ≡ Status.Success) ⊎ (result ≡ Status.Memory) }

    // Write comes only where a put of the text failed in this call, and a prefix of it is there; all else
    // says that no put failed.
    ensures write { result ≡ Status.Write
        → Rose (S.faults out.old) (S.faults out.new) × (S.short out.new ≡ S.short out.old) }
    ensures written { result ≡ Status.Write
        → OfPlan (F.bytes files.old) (order_in words.now) (HavePrefix (S.bytes out.old) (S.bytes out.new)) }
    ensures unfailed { result ≢ Status.Write → S.faults out.new ≡ S.faults out.old }
    // Want of memory leaves nothing, or a prefix of a text that the order may leave.
    ensures memory { result ≡ Status.Memory → Keeps (S.bytes out.old) (S.bytes out.new)
        ⊎ OfPlan (F.bytes files.old) (order_in words.now) (HavePrefix (S.bytes out.old) (S.bytes out.new)) }
    // A status that leaves no text leaves `out` as it was, its counts too.
    ensures quiet { IsQuiet result → Keeps (S.bytes out.old) (S.bytes out.new)
        × (S.faults out.new ≡ S.faults out.old) × (S.short out.new ≡ S.short out.old) }

    // The line of the status is put to `err`, whole, or a prefix of it where a put was refused in this call.
    ensures fault { FaultPut
        (fault_text result (file_named (order_in words.now) result) (limits_named (order_in words.now)))
        (E.bytes err.old) (E.bytes err.new) (E.faults err.old) (E.faults err.new)
        (E.short err.old) (E.short err.new) }

    // The files stay as they are, and no count ever falls.
    ensures files { (name : List ℕ) → F.bytes files.new name ≡ F.bytes files.old name }
    ensures counts { (name : List ℕ) → F.faults files.old name ≤ F.faults files.new name }
    ensures out_counts { (S.faults out.old ≤ S.faults out.new) × (S.short out.old ≤ S.short out.new) }
    ensures err_counts { (E.faults err.old ≤ E.faults err.new) × (E.short err.old ≤ E.short err.new) }
{
    let Some(order) = read_words(words) else {
        tell(&Status::Usage, "", &default_limits(), err);
        return Status::Usage;
    };
    let status = do_order(rt, alloc, &order, files, out, gate);
    tell(&status, file_named(&order, &status), &order.limits(), err);
    status
}

/// Does an order: with workers if it is of `run`, and else on one thread.
fn do_order<F: Files, S: Sink, G: Gate + Sync, R: Threads + Wait + Sync>(
    rt: &R,
    alloc: Global,
    order: &Order<'_>,
    files: &mut F,
    out: &mut S,
    gate: &G,
) -> Status
    ensures outcome { OrderOutcome (files_of (F.bytes files.old) (F.faults files.old))
        (files_of (F.bytes files.new) (F.faults files.new)) (order_value order.now)
        (sink_of (S.bytes out.old) (S.faults out.old) (S.short out.old))
        (sink_of (S.bytes out.new) (S.faults out.new) (S.short out.new)) result }
    ensures long { HasLongProgram (F.bytes files.old) (order_value order.now) → IsOfLoad result }
    ensures loaded { ¬ IsRead result → (name : List ℕ) → F.faults files.new name ≡ F.faults files.old name }
    ensures files { (name : List ℕ) → F.bytes files.new name ≡ F.bytes files.old name }
    ensures counts { (name : List ℕ) → F.faults files.old name ≤ F.faults files.new name }
    ensures out_counts { (S.faults out.old ≤ S.faults out.new) × (S.short out.old ≤ S.short out.new) }
{
    if !order.is_run() {
        return do_once(alloc, order, files, out);
    }
    match end_of_run(rt, alloc, order, files, gate) {
        Ok(ended) => put_end(&ended, out),
        Err(status) => status,
    }
}

/// What an order of `run` leaves, before it is put.
fn end_of_run<F: Files, G: Gate + Sync, R: Threads + Wait + Sync>(
    rt: &R,
    alloc: Global,
    order: &Order<'_>,
    files: &mut F,
    gate: &G,
) -> Result<Ended, Status>
    requires { (order_value order.now).command ≡ command.Run }
    ensures text { IfOk result (λ ended.
        HaveText (F.bytes files.old) (order_value order.now) ended.status ended.text.items) }
    ensures fault { IfErr result (NoPlan (files_of (F.bytes files.old) (F.faults files.old))
        (files_of (F.bytes files.new) (F.faults files.new)) (order_value order.now)) }
    ensures long { HasLongProgram (F.bytes files.old) (order_value order.now) → IsErrAnd result IsOfLoad }
    ensures loaded { (name : List ℕ) → UnlessRead result (F.faults files.new name ≡ F.faults files.old name) }
    ensures files { (name : List ℕ) → F.bytes files.new name ≡ F.bytes files.old name }
    ensures counts { (name : List ℕ) → F.faults files.old name ≤ F.faults files.new name }
{
    let plan = read_order(alloc, files, order)?;
    Ok(run_with_workers(rt, alloc, &plan, gate)?)
}
