ghost use Rattle.std.specs.Prelude.{◌≡◌, ◌<◌, ◌↔◌, [], ◌∷◌, ◌++◌, length, IfOk, IsTrue, IsSome, Some, slice_get};
ghost use Rattle.felm_meaning.specs.Plans.{plan_of};
ghost use Rattle.felm_plain.specs.Runs.{AreDefaultsFor, IsBegun, Stands, IsBetween, next_in, TakesNext, Enters};
ghost use Rattle.felm_plain.specs.Ends.{IsEndFor};

use crate::queues::Queues;
use crate::row::Row;
use felm_meaning::{History, Plan, Preset, RunEnd, defaults};
use felm_term::{Event, Events, Memory, Messages, Value};
use std::alloc::Global;

/// A run under way.
#[derive(Debug, Drop)]
pub struct Run {
    /// The events that were entered.
    pub journal: Events,
    /// What each node sent last.
    pub row: Row,
    /// What waits at each node to become an event.
    pub queues: Queues,
    /// What the shown node sent.
    pub outputs: Messages,
    /// How many events of the script were taken.
    pub cursor: usize,
}

impl Run {
    // A run that has entered nothing.
    fn begin(alloc: Global, plan: &Plan, defaults: &[Value]) -> Result<Run, Memory>
        requires { AreDefaultsFor (plan_of plan.now) defaults.now }
        ensures { IfOk result (IsBegun plan.now) }
    {
        let count = plan.graph.nodes().len();
        Ok(Run {
            journal: Events::make(alloc),
            row: Row::of_defaults(alloc, defaults)?,
            queues: Queues::make(alloc, count)?,
            outputs: Messages::make(alloc),
            cursor: 0,
        })
    }

    // Takes the event that comes next: a waiting one before the script's next.
    fn take_next(&mut self, plan: &Plan) -> Result<Option<Event>, Memory>
        requires { IsBetween plan.now self.old }
        ensures { IfOk result (TakesNext plan.now self.old self.new) }
    {
        if let Some(event) = self.queues.take_first() {
            return Ok(Some(event));
        }
        match event_at(plan.script.as_slice(), self.cursor)? {
            Some(event) => {
                self.cursor += 1;
                Ok(Some(event))
            }
            None => Ok(None),
        }
    }

    // Whether an event comes next.
    fn has_next(&self, plan: &Plan) -> bool
        requires { IsBetween plan.now self.now }
        ensures { IsTrue result ↔ IsSome (next_in plan.now self.now) }
    {
        self.queues.least().is_some() || self.cursor < plan.script.len()
    }

    // Enters the event that was taken. The answer is the least node without a message there, if any.
    fn enter(&mut self, alloc: Global, plan: &Plan, event: Event) -> Result<Option<u32>, Memory>
        requires taken { Stands plan.now self.old (self.old.journal.items ++ event ∷ []) }
        requires next { next_in plan.now self.old ≡ Some event }
        requires room { length self.old.journal.items < plan.now.limits.journal }
        ensures { IfOk result (Enters plan.now self.old event self.new) }
    {
        let stopped = self
            .row
            .advance(alloc, &plan.graph, &event, plan.limits.turn_steps)?;
        self.journal.push(event)?;
        match stopped {
            Some(node) => Ok(Some(node)),
            None => {
                let row = self.row.as_slice();
                self.queues.add_changes(&plan.graph, row)?;
                self.outputs.push(row[plan.graph.main() as usize].copy()?)?;
                Ok(None)
            }
        }
    }

    // What the run was.
    fn history(self, default: Value) -> History
        ensures default { result.default ≡ default }
        ensures journal { result.journal.items ≡ self.journal.items }
        ensures outputs { result.outputs.items ≡ self.outputs.items }
    {
        History {
            default,
            journal: self.journal,
            outputs: self.outputs,
        }
    }
}

// A copy of the event at a place of a script.
fn event_at(script: &[Event], place: usize) -> Result<Option<Event>, Memory>
    ensures { IfOk result (λ event. event ≡ slice_get script.now place) }
{
    match script.get(place) {
        Some(event) => Ok(Some(event.copy()?)),
        None => Ok(None),
    }
}

/// Runs a plan on one thread: each event that comes next is entered, until nothing comes next, a
/// turn is over budget or the journal is full.
///
/// For each event every node is looked at a fixed number of times; only nodes with an argument that
/// changed are called.
pub fn plain_run(alloc: Global, plan: &Plan) -> Result<RunEnd, Memory>
    ensures { IfOk result (IsEndFor (plan_of plan.now)) }
{
    match defaults(alloc, plan)? {
        Preset::All(values) => run_from(alloc, plan, values.as_slice()),
        Preset::Over { node } => Ok(RunEnd::Stopped {
            journal: Events::make(alloc),
            node,
            position: 0,
        }),
    }
}

// The run from these defaults on.
fn run_from(alloc: Global, plan: &Plan, defaults: &[Value]) -> Result<RunEnd, Memory>
    requires { AreDefaultsFor (plan_of plan.now) defaults.now }
    ensures { IfOk result (IsEndFor (plan_of plan.now)) }
{
    let mut run = Run::begin(alloc, plan, defaults)?;
    let default = defaults[plan.graph.main() as usize].copy()?;
    for _entered in 0..plan.limits.journal {
        let Some(event) = run.take_next(plan)? else {
            return Ok(RunEnd::Complete {
                history: run.history(default),
            });
        };
        if let Some(node) = run.enter(alloc, plan, event)? {
            return Ok(RunEnd::Stopped {
                position: run.journal.len() as u64,
                journal: run.journal,
                node,
            });
        }
    }
    if run.has_next(plan) {
        Ok(RunEnd::Full {
            history: run.history(default),
        })
    } else {
        Ok(RunEnd::Complete {
            history: run.history(default),
        })
    }
}
