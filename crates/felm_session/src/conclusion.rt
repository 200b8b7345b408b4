//! A run that was left off is concluded on one thread.
ghost use Rattle.std.specs.Prelude.{◌≡◌, ℕ, [], Some, IfOk};
ghost use Rattle.felm_graph.specs.Graphs.{IsGraph};
ghost use Rattle.felm_meaning.specs.OfPlans.{DefaultsThereFor, val_for};
ghost use Rattle.felm_meaning.specs.Plans.{plan_of};
ghost use Rattle.felm_meaning.specs.Histories.{IsHistoryFor, IsConcluded, journal_of};
ghost use Rattle.felm_core.specs.Positions.{IsSettled};
ghost use Rattle.felm_engine.specs.Answers.{planned, NoneOut};
ghost use Rattle.felm_session.specs.Answers.{NoneWaits};
ghost use Rattle.felm_session.specs.Concluding.{RestsAt, GoesOn, GoesOnWhereItStood, BeginsAnew, Reaches, TurnTaken, Rests, StepsAs};

use crate::session::{Begun, Session};
use felm_engine::{Bench, Claim, Fed, Stop};
use felm_meaning::{History, Plan, Preset, RunEnd, compute, defaults, same_plan};
use felm_term::{Items, Memory, Value};
use std::alloc::Global;

/// How a run ended that was concluded.
#[derive(Debug, Drop)]
pub struct Concluded {
    pub end: RunEnd,
    /// The messages of turns that the conclusion settled.
    pub own_turns: u64,
}

/// Why nothing more may be done in a run.
#[derive(Clone, Copy, Debug)]
pub enum Rest {
    /// Every event entered, and every turn was taken.
    Complete,
    /// The journal is as long as it may be, and an event was still to enter.
    Full,
    /// A turn was over its budget.
    Stopped(Stop),
}

/// Concludes the run of a plan. It goes on from where the session stands, or anew where the session
/// runs another plan: turns that are out are taken back, and what is left is done on the caller's
/// thread. Memory is wanted for the events' values that wait or are fed, for turns, for the
/// defaults, and for the engine of a run that begins anew.
pub fn conclude(alloc: Global, returned: Session, plan: Plan) -> Result<Concluded, Memory>
    ensures end { IfOk result (λ concluded. IsConcluded (plan_of plan) concluded.end) }
    ensures goes_on { IfOk result (GoesOnWhereItStood returned plan) }
    ensures anew { IfOk result (BeginsAnew returned plan) }
{
    if same_plan(returned.engine().plan(), &plan) {
        return finish(alloc, returned);
    }
    match Session::begin(alloc, plan)? {
        Begun::Ready(session) => finish(alloc, session),
        Begun::Over { node } => Ok(Concluded {
            end: RunEnd::Stopped {
                journal: Items::make(alloc),
                node,
                position: 0,
            },
            own_turns: 0,
        }),
    }
}

// Goes on from where the session stands to the end.
fn finish(alloc: Global, mut session: Session) -> Result<Concluded, Memory>
    ensures end { IfOk result (λ concluded. IsConcluded (planned session.engine) concluded.end) }
    ensures goes_on { IfOk result (GoesOn (planned session.engine) session.engine.position) }
{
    let before = session.turns_settled();
    session.legal();
    session.reopen_all();
    let rest = go_on(alloc, &mut session)?;
    session.legal();
    let own_turns = session.turns_settled() - before;
    let end = end_of(alloc, session, rest)?;
    Ok(Concluded { end, own_turns })
}

// Goes on until nothing is left to do.
fn go_on(alloc: Global, session: &mut Session) -> Result<Rest, Memory>
    requires { NoneOut session.old.engine.position }
    ensures reaches { IfOk result (λ rest. Reaches session.old.engine session.new.engine) }
    ensures rests { IfOk result (Rests session.new.engine) }
{
    'steps: loop {
        if let Some(rest) = step(alloc, session)? {
            return Ok(rest);
        }
    }
}

// One step: a turn is taken, or else an event comes in.
fn step(alloc: Global, session: &mut Session) -> Result<Option<Rest>, Memory>
    requires { NoneOut session.old.engine.position }
    ensures { IfOk result (StepsAs session.old.engine session.new.engine) }
{
    session.legal();
    if let Some(stop) = session.stopped() {
        return Ok(Some(Rest::Stopped(stop)));
    }
    if take_turn(alloc, session)? {
        return Ok(None);
    }
    enter_some(session)
}

// Takes the turn of the least ready node, if any is ready.
fn take_turn(alloc: Global, session: &mut Session) -> Result<bool, Memory>
    requires { NoneOut session.old.engine.position }
    ensures { IfOk result (TurnTaken session.old.engine session.new.engine) }
{
    session.legal();
    match session.claim_next()? {
        Claim::NotReady => Ok(false),
        Claim::Got(turn) => {
            let done = compute(alloc, turn)?;
            session.deposit(done)?;
            Ok(true)
        }
    }
}

// Where all is settled, enters a value that waits, or else the script's next event.
fn enter_some(session: &mut Session) -> Result<Option<Rest>, Memory>
    requires none_out { NoneOut session.old.engine.position }
    requires settled { IsSettled (planned session.old.engine) session.old.engine.position }
    ensures { IfOk result (StepsAs session.old.engine session.new.engine) }
{
    session.legal();
    match session.enter_next()? {
        Fed::At { .. } => Ok(None),
        Fed::Full => Ok(Some(Rest::Full)),
        Fed::NoneWaiting => feed_next(session),
        Fed::NoneLeft => unreachable!(),
        Fed::NoRoom => unreachable!(),
    }
}

// Where all is settled and nothing waits, enters the script's next event.
fn feed_next(session: &mut Session) -> Result<Option<Rest>, Memory>
    requires none_out { NoneOut session.old.engine.position }
    requires settled { IsSettled (planned session.old.engine) session.old.engine.position }
    requires none_waits { (a : ℕ) → NoneWaits session.old.engine a }
    ensures { IfOk result (StepsAs session.old.engine session.new.engine) }
{
    session.legal();
    match session.feed()? {
        Fed::At { .. } => Ok(None),
        Fed::NoneLeft => Ok(Some(Rest::Complete)),
        Fed::Full => Ok(Some(Rest::Full)),
        Fed::NoneWaiting => unreachable!(),
        Fed::NoRoom => unreachable!(),
    }
}

// The end of a run that rests.
fn end_of(alloc: Global, session: Session, rest: Rest) -> Result<RunEnd, Memory>
    requires { Rests session.engine rest }
    ensures end { IfOk result (IsConcluded (planned session.engine)) }
    ensures journal { IfOk result (λ end. journal_of end ≡ session.engine.position.journal) }
    ensures rests { IfOk result (RestsAt (planned session.engine) session.engine.position) }
{
    session.legal();
    match rest {
        Rest::Stopped(stop) => Ok(RunEnd::Stopped {
            journal: session.engine.into_parts().0,
            node: stop.node,
            position: stop.position,
        }),
        Rest::Complete => Ok(RunEnd::Complete {
            history: history(alloc, session)?,
        }),
        Rest::Full => Ok(RunEnd::Full {
            history: history(alloc, session)?,
        }),
    }
}

// What a settled run was.
fn history(alloc: Global, session: Session) -> Result<History, Memory>
    requires { IsSettled (planned session.engine) session.engine.position }
    ensures journal { IfOk result (λ history. history.journal.items ≡ session.engine.position.journal) }
    ensures history { IfOk result (IsHistoryFor (planned session.engine)) }
{
    session.legal();
    let default = shown_default(alloc, session.engine().plan())?;
    let (journal, outputs) = session.engine.into_parts();
    Ok(History {
        default,
        journal,
        outputs,
    })
}

// The default of the shown node, where every node has one.
fn shown_default(alloc: Global, plan: &Plan) -> Result<Value, Memory>
    requires graph { IsGraph plan.now.graph }
    requires defaults { DefaultsThereFor (plan_of plan.now) }
    ensures { IfOk result (λ value. val_for (plan_of plan.now) [] plan.now.graph.main 0 ≡ Some value) }
{
    match defaults(alloc, plan)? {
        Preset::All(values) => values.at(plan.graph.main() as usize).copy(),
        Preset::Over { .. } => unreachable!(),
    }
}
