ghost use Rattle.std.specs.Prelude.{◌≡◌, ◌↔◌, ◌<◌, ℕ, Some, length, slice_get, IsTrue, IfOk, OnErr, MatchOption};
ghost use Rattle.felm_graph.specs.Graphs.{IsGraph};
ghost use Rattle.felm_meaning.specs.Nodes.{inner};
ghost use Rattle.felm_meaning.specs.OfPlans.{IsLegalFor};
ghost use Rattle.felm_core.specs.Positions.{IsSound, IsReady};
ghost use Rattle.felm_engine.specs.Answers.{planned, MayComeIn, ClaimedAs, all_reopened};
ghost use Rattle.felm_session.specs.SessionValue.{script_of, IsInStep};
ghost use Rattle.felm_session.specs.Answers.{BegunAs, Waits, NoneWaits, IsLeastWaiting, EnteredAt, NeverFull};

use felm_engine::{Claim, Engine, Fed};
use felm_graph::NodeKind;
use felm_meaning::{Plan, Preset, defaults};
use felm_term::{Event, Memory};
use std::alloc::Global;
use std::marker::Model;

/// A run that is fed the events of its plan's script, which contracts see as a `SessionValue`. Its
/// journal is legal whenever no call is under way. It keeps the allocator that it was begun with.
#[derive(Drop)]
pub struct Session {
    pub(crate) engine: Engine,
    // how many events of the script were fed
    pub(crate) cursor: usize,
}

impl Model for Session {
    ghost use Rattle.felm_session.specs.SessionValue.{SessionValue};

    ghost Value = { SessionValue };

    ghost use Rattle.std.specs.Coded.{codes};
    ghost use Rattle.felm_term.specs.Codes.{coded_term, coded_type};

    ghost coded = { Prim.hlevel (codes, coded_term, coded_type) };

    ghost use Rattle.felm_session.specs.Inside.{session_of, KeepsStep};

    ghost view = { session_of };

    ghost invariant = { KeepsStep };
}

/// What the beginning of a session answers.
#[derive(Drop)]
pub enum Begun {
    /// The session, at the beginning of its plan's run.
    Ready(Session),
    /// This node's default takes more steps than a turn may, and no smaller node's does.
    Over { node: u32 },
}

impl Session {
    /// Begins a run of a plan.
    pub fn begin(alloc: Global, plan: Plan) -> Result<Begun, Memory>
        ensures { IfOk result (BegunAs plan) }
    {
        match defaults(alloc, &plan)? {
            Preset::All(values) => {
                let engine = Engine::make(alloc, plan, &values)?;
                Ok(Begun::Ready(Session { engine, cursor: 0 }))
            }
            Preset::Over { node } => Ok(Begun::Over { node }),
        }
    }

    /// What every session keeps: its position is sound and its journal legal, with the script's
    /// events up to the cursor.
    pub fn legal(&self)
        ensures graph { IsGraph self.now.engine.plan.graph }
        ensures sound { IsSound (planned self.now.engine) self.now.engine.position }
        ensures legal { IsLegalFor (planned self.now.engine) self.now.engine.position.journal }
        ensures fed { IsInStep self.now.engine self.now.cursor }
    {
        self.engine.sound();
    }

    /// Enters the value that has waited longest at an async.
    pub fn enter(&mut self, node: u32) -> Result<Fed, Memory>
        requires { (x : ℕ) × (inner self.old.engine.plan.graph.nodes node ≡ Some x) }
        ensures ok { IfOk result (EnteredAt self.old node self.new) }
        ensures never_full { IfOk result (NeverFull (planned self.old.engine)) }
        ensures err { OnErr result (self.new ≡ self.old) }
    {
        self.engine.sound();
        let Some(waiting) = self.engine.waiting_first(node) else {
            return Ok(Fed::NoneWaiting);
        };
        let value = waiting.copy()?;
        let entered = self.engine.dispatch(node, value)?;
        Ok(Fed::from(entered))
    }

    /// Hands out the turn of a node, if it is ready.
    pub fn claim(&mut self, node: u32) -> Result<Claim, Memory>
        requires { node < length self.old.engine.plan.graph.nodes }
        ensures ok { IfOk result (ClaimedAs self.old.engine node self.new.engine) }
        ensures cursor { self.new.cursor ≡ self.old.cursor }
        ensures ready { OnErr result (IsReady (planned self.old.engine) self.old.engine.position node) }
        ensures err { OnErr result (self.new ≡ self.old) }
    {
        self.engine.sound();
        self.engine.claim(node)
    }

    /// Takes every turn back: none is out then.
    pub fn reopen_all(&mut self)
        ensures plan { self.new.engine.plan ≡ self.old.engine.plan }
        ensures position { self.new.engine.position ≡ all_reopened self.old.engine.position }
        ensures cursor { self.new.cursor ≡ self.old.cursor }
    {
        self.engine.reopen_all();
    }

    /// The engine of the run.
    pub fn engine(&self) -> &Engine
        ensures { result.now ≡ self.now.engine }
    {
        &self.engine
    }

    // A copy of the script's next event, if one is left.
    pub(crate) fn next_event(&self) -> Result<Option<Event>, Memory>
        ensures { IfOk result (λ event. event ≡ slice_get (script_of self.now) self.now.cursor) }
    {
        match self.engine.plan().script.as_slice().get(self.cursor) {
            Some(event) => Ok(Some(event.copy()?)),
            None => Ok(None),
        }
    }

    // The least async at which a value waits.
    pub(crate) fn least_waiting(&self) -> Option<u32>
        ensures { MatchOption result ((a : ℕ) → NoneWaits self.now.engine a) (IsLeastWaiting self.now.engine) }
    {
        for node in 0..self.engine.plan().graph.nodes().len() {
            if self.waits(node as u32) {
                return Some(node as u32);
            }
        }
        None
    }

    // Whether a value waits at a node.
    fn waits(&self, node: u32) -> bool
        requires { node < length self.now.engine.plan.graph.nodes }
        ensures { IsTrue result ↔ Waits self.now.engine node }
    {
        match &self.engine.plan().graph.nodes()[node as usize].kind {
            NodeKind::Async { .. } => self.engine.waiting_first(node).is_some(),
            NodeKind::Input { .. } | NodeKind::Lift { .. } | NodeKind::Foldp { .. } => false,
        }
    }
}
