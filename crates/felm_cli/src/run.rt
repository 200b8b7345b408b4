//! The run of a plan with workers.
ghost use Rattle.std.specs.Prelude.{◌≡◌, IfOk};
ghost use Rattle.felm_meaning.specs.Plans.{plan_of};
ghost use Rattle.felm_meaning.specs.Histories.{IsConcluded};
ghost use Rattle.felm_cli.specs.declared.words.Command.TheVariants as command;
ghost use Rattle.felm_cli.specs.Ends.{Leaves, LeavesText};

use crate::ended::{Ended, text_of_end};
use felm_meaning::{Plan, RunEnd};
use felm_session::{Begun, Session, conclude, sessions_cross};
use felm_term::{Events, Memory};
use felm_workers::{Gate, run_bench};
use std::alloc::Global;
use std::sync::Wait;
use std::thread::Threads;

/// Runs a plan with as many workers as its limits say.
pub fn run_with_workers<G: Gate + Sync, R: Threads + Wait + Sync>(
    rt: &R,
    alloc: Global,
    plan: &Plan,
    gate: &G,
) -> Result<Ended, Memory>
    ensures text { IfOk result (λ ended. Leaves command.Run (plan_of plan.now) ended.status ended.text.items) }
    ensures leaves { IfOk result (λ ended. LeavesText ended.status) }
{
    let end = end_with_workers(rt, alloc, plan, gate)?;
    text_of_end(alloc, plan, &end)
}

/// The end of such a run. What workers leave, where they found no memory or none could be started, is
/// done on this thread.
fn end_with_workers<G: Gate + Sync, R: Threads + Wait + Sync>(
    rt: &R,
    alloc: Global,
    plan: &Plan,
    gate: &G,
) -> Result<RunEnd, Memory>
    ensures { IfOk result (IsConcluded (plan_of plan.now)) }
{
    match Session::begin(alloc, plan.copy(alloc)?)? {
        Begun::Ready(session) => {
            sessions_cross();
            let (returned, _shares) = run_bench(rt, alloc, session, plan.limits.workers, gate)?;
            let concluded = conclude(alloc, returned, plan.copy(alloc)?)?;
            Ok(concluded.end)
        }
        Begun::Over { node } => Ok(RunEnd::Stopped {
            journal: Events::make(alloc),
            node,
            position: 0,
        }),
    }
}
