//! The top call that waits for nobody.
ghost use Rattle.std.specs.Prelude.{◌≡◌, ◌≢◌, ◌≤◌, ◌↔◌, ◌⊎◌, ℕ, List, IfOk, IfErr, IfSome, IsSomeAnd, Some, None};
ghost use Rattle.std.specs.Result.{IsErrAnd};
ghost use Rattle.std.specs.Io.KnownBytes.{Keeps};
ghost use Rattle.felm_io.specs.Causes.{Rose};
ghost use Rattle.felm_printer.specs.declared.status.Status.{Status};
ghost use Rattle.felm_printer.specs.declared.status.Which.{Which};
ghost use Rattle.felm_printer.specs.Fault.{fault_text, FaultPut};
ghost use Rattle.felm_meaning.specs.Plans.{plan_of};
ghost use Rattle.felm_cli.specs.declared.words.Command.TheVariants as command;
ghost use Rattle.felm_cli.specs.Words.{Texts, OrderValue, order_once, file_of};
ghost use Rattle.felm_cli.specs.Outside.{files_of, sink_of, CountsStay};
ghost use Rattle.felm_cli.specs.Texts.{IsFirstLong, IsFaultOf, OfOrder, OfTexts, OfPlan};
ghost use Rattle.felm_cli.specs.Ends.{Leaves, LeavesText};
ghost use Rattle.felm_cli.specs.Outcomes.{IsRead, IsOfTexts, IsQuiet, IsOfLoad, HasLongProgram, UnlessRead, NoPlan, HaveText, PutAs, OrderOutcome};
ghost use Rattle.felm_cli.specs.Promises.{HaveResult, HaveStop, HaveFull, HavePrefix, Give, ComeTo, Answers, LackDefault, NoneFailed, CanBeDone};
ghost use Rattle.felm_cli.specs.Names.{file_named, limits_named};
ghost use Rattle.felm_cli.specs.Views.{order_value};

use crate::ended::{Ended, run_plan, show_graph};
use crate::texts::read_order;
use crate::words::{Order, default_limits, read_words_once};
use felm_io::{Files, Sink, SinkFail, put_all};
use felm_meaning::Plan;
use felm_printer::{Status, Which, tell};
use felm_term::Memory;
use std::alloc::Global;

/// Does the command that the words give, if it is done on one thread: `sync PROGRAM SCRIPT` or
/// `graph PROGRAM`. It waits for nobody.
///
/// Nothing is put to `out` before the run has ended. A status other than success has its line on
/// `err`, and that a put there is refused changes no status.
pub fn felm_once<F: Files, S: Sink, E: Sink>(
    alloc: Global,
    words: &[String],
    files: &mut F,
    out: &mut S,
    err: &mut E,
) -> Status
    // The words are refused exactly where they give no order that is done on one thread.
    ensures usage { (result ≡ Status.Usage) ↔ (order_once words.now ≡ None) }

    // Success has appended the result text of a complete journal, or the text of a graph.
    ensures success { result ≡ Status.Success
        → OfPlan (F.bytes files.old) (order_once words.now) (HaveResult (S.bytes out.old) (S.bytes out.new)) }
    // A run that stops has appended the stopped text, one that is full the result text so far.
    ensures turn { (node position : ℕ) → result ≡ Status.Turn node position
        → OfPlan (F.bytes files.old) (order_once words.now)
        (HaveStop node position (S.bytes out.old) (S.bytes out.new)) }
    ensures journal { result ≡ Status.Journal
        → OfPlan (F.bytes files.old) (order_once words.now) (HaveFull (S.bytes out.old) (S.bytes out.new)) }
    // Whoever leaves a whole text says that no put of it was refused.
    ensures unrefused { LeavesText result
        → (S.faults out.new ≡ S.faults out.old) × (S.short out.new ≡ S.short out.old) }

    // Read comes only where a load of the file that is named failed in this call, and all else says that
    // no load did.
    ensures read { (which : Which) → result ≡ Status.Read which → OfOrder (order_once words.now)
        (λ order. IsSomeAnd (file_of which order)
        (λ name. Rose (F.faults files.old name) (F.faults files.new name))) }
    ensures loaded { ¬ IsRead result → (name : List ℕ) → F.faults files.new name ≡ F.faults files.old name }
    // A text that is too long is named, the program before the script.
    ensures too_long { (which : Which) → result ≡ Status.TooLong which
        → OfOrder (order_once words.now) (λ order. IsFirstLong (F.bytes files.old) order.texts which) }
    // A program that is too long is told before anything of the script, whether or not that can be loaded.
    ensures long_program { (order : OrderValue) → order_once words.now ≡ Some order
        → HasLongProgram (F.bytes files.old) order → IsOfLoad result }
    // What is wrong with the texts is told by its cause and place, line or limit.
    ensures faulty { IsOfTexts result
        → OfTexts (F.bytes files.old) (order_once words.now) (λ order texts. IsFaultOf order texts result) }

    // Each of these comes wherever the texts come to it, and so does the end that is sure, unless a load
    // or a put failed or there was no memory.
    ensures exact { (order : OrderValue) (texts : Texts) (expected : Status)
        → Give (F.bytes files.old) (order_once words.now) order texts
        → ComeTo order texts expected → Answers expected result }
    // A default over budget stops the run before its first event, at the least node without one.
    ensures no_default { (order : OrderValue) (texts : Texts) (node : ℕ)
        → Give (F.bytes files.old) (order_once words.now) order texts
        → LackDefault order texts node → Answers (Status.Turn node 0) result }
    // Texts that can be done, and an outside without faults, give success, unless there was no memory.
    ensures complete { (order : OrderValue) (texts : Texts)
        → Give (F.bytes files.old) (order_once words.now) order texts
        → CanBeDone (S.bytes out.old) (S.bytes out.new) order texts
        → NoneFailed (F.faults files.old) (F.faults files.new) (S.faults out.old) (S.faults out.new) order
        → (result ≡ Status.Success) ⊎ (result ≡ Status.Memory) }

    // Write comes only where a put of the text failed in this call, and a prefix of it is there; all else
    // says that no put failed.
    ensures write { result ≡ Status.Write
        → Rose (S.faults out.old) (S.faults out.new) × (S.short out.new ≡ S.short out.old) }
    ensures written { result ≡ Status.Write
        → OfPlan (F.bytes files.old) (order_once words.now) (HavePrefix (S.bytes out.old) (S.bytes out.new)) }
    ensures unfailed { result ≢ Status.Write → S.faults out.new ≡ S.faults out.old }
    // Want of memory leaves nothing, or a prefix of a text that the order may leave.
    ensures memory { result ≡ Status.Memory → Keeps (S.bytes out.old) (S.bytes out.new)
        ⊎ OfPlan (F.bytes files.old) (order_once words.now) (HavePrefix (S.bytes out.old) (S.bytes out.new)) }
    // A status that leaves no text leaves `out` as it was, its counts too.
    ensures quiet { IsQuiet result → Keeps (S.bytes out.old) (S.bytes out.new)
        × (S.faults out.new ≡ S.faults out.old) × (S.short out.new ≡ S.short out.old) }

    // The line of the status is put to `err`, whole, or a prefix of it where a put was refused in this call.
    ensures fault { FaultPut
        (fault_text result (file_named (order_once words.now) result) (limits_named (order_once words.now)))
        (E.bytes err.old) (E.bytes err.new) (E.faults err.old) (E.faults err.new)
        (E.short err.old) (E.short err.new) }

    // The files stay as they are, and no count ever falls.
    ensures files { (name : List ℕ) → F.bytes files.new name ≡ F.bytes files.old name }
    ensures counts { (name : List ℕ) → F.faults files.old name ≤ F.faults files.new name }
    ensures out_counts { (S.faults out.old ≤ S.faults out.new) × (S.short out.old ≤ S.short out.new) }
    ensures err_counts { (E.faults err.old ≤ E.faults err.new) × (E.short err.old ≤ E.short err.new) }
{
    let Some(order) = read_words_once(words) else {
        tell(&Status::Usage, "", &default_limits(), err);
        return Status::Usage;
    };
    let status = do_once(alloc, &order, files, out);
    tell(&status, file_named(&order, &status), &order.limits(), err);
    status
}

/// The file that the line of a status names, or an empty text where it names none.
pub fn file_named<'a>(order: &Order<'a>, status: &Status) -> &'a str
    ensures { result.now ≡ file_named (Some (order_value order.now)) status.now }
{
    match status {
        Status::Read { which } | Status::TooLong { which } => order.file(*which).unwrap_or(""),
        _ => "",
    }
}

/// Does an order on one thread: puts the text that it leaves.
pub fn do_once<F: Files, S: Sink>(
    alloc: Global,
    order: &Order<'_>,
    files: &mut F,
    out: &mut S,
) -> Status
    requires { (order_value order.now).command ≢ command.Run }
    ensures outcome { OrderOutcome (files_of (F.bytes files.old) (F.faults files.old))
        (files_of (F.bytes files.new) (F.faults files.new)) (order_value order.now)
        (sink_of (S.bytes out.old) (S.faults out.old) (S.short out.old))
        (sink_of (S.bytes out.new) (S.faults out.new) (S.short out.new)) result }
    ensures long { HasLongProgram (F.bytes files.old) (order_value order.now) → IsOfLoad result }
    ensures loaded { ¬ IsRead result → (name : List ℕ) → F.faults files.new name ≡ F.faults files.old name }
    ensures files { (name : List ℕ) → F.bytes files.new name ≡ F.bytes files.old name }
    ensures counts { (name : List ℕ) → F.faults files.old name ≤ F.faults files.new name }
    ensures out_counts { (S.faults out.old ≤ S.faults out.new) × (S.short out.old ≤ S.short out.new) }
{
    match end_once(alloc, order, files) {
        Ok(ended) => put_end(&ended, out),
        Err(status) => status,
    }
}

/// What an order leaves on one thread, before it is put.
fn end_once<F: Files>(alloc: Global, order: &Order<'_>, files: &mut F) -> Result<Ended, Status>
    requires { (order_value order.now).command ≢ command.Run }
    ensures text { IfOk result (λ ended.
        HaveText (F.bytes files.old) (order_value order.now) ended.status ended.text.items) }
    ensures fault { IfErr result (NoPlan (files_of (F.bytes files.old) (F.faults files.old))
        (files_of (F.bytes files.new) (F.faults files.new)) (order_value order.now)) }
    ensures long { HasLongProgram (F.bytes files.old) (order_value order.now) → IsErrAnd result IsOfLoad }
    ensures loaded { (name : List ℕ) → UnlessRead result (F.faults files.new name ≡ F.faults files.old name) }
    ensures files { (name : List ℕ) → F.bytes files.new name ≡ F.bytes files.old name }
    ensures counts { (name : List ℕ) → F.faults files.old name ≤ F.faults files.new name }
{
    let plan = read_order(alloc, files, order)?;
    Ok(leave(alloc, order, &plan)?)
}

/// What the command of an order leaves of a plan on one thread.
fn leave(alloc: Global, order: &Order<'_>, plan: &Plan) -> Result<Ended, Memory>
    requires { (order_value order.now).command ≢ command.Run }
    ensures text { IfOk result (λ ended.
        Leaves (order_value order.now).command (plan_of plan.now) ended.status ended.text.items) }
    ensures leaves { IfOk result (λ ended. LeavesText ended.status) }
{
    match order {
        Order::Sync { .. } => run_plan(alloc, plan),
        Order::Graph { .. } => show_graph(alloc, plan),
        Order::Run { .. } => unreachable!(),
    }
}

/// Puts the whole text of an end.
pub fn put_end<S: Sink>(ended: &Ended, out: &mut S) -> Status
    ensures put { PutAs ended.now.status ended.now.text.items
        (sink_of (S.bytes out.old) (S.faults out.old) (S.short out.old))
        (sink_of (S.bytes out.new) (S.faults out.new) (S.short out.new)) result }
    ensures counts { (S.faults out.old ≤ S.faults out.new) × (S.short out.old ≤ S.short out.new) }
{
    match put_all(out, ended.text.as_slice()) {
        Ok(()) => ended.status,
        Err(SinkFail::Failed) => Status::Write,
        Err(SinkFail::Memory) => Status::Memory,
    }
}
