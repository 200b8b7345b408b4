//! Turns come back.
ghost use Rattle.std.specs.Prelude.{◌≡◌, ◌↔◌, ◌<◌, ◌==◌, ℕ, suc, true, if◌then◌else◌, Some, None, length, IsTrue, IfOk, OnOk, OnErr, IsOk};
ghost use Rattle.felm_term.specs.Values.{value_of, IsPlain};
ghost use Rattle.felm_meaning.specs.OfPlans.{msg_for};
ghost use Rattle.felm_meaning.specs.Step.{step};
ghost use Rattle.felm_meaning.specs.Nodes.{job_of_kind};
ghost use Rattle.felm_core.specs.Moves as moves;
ghost use Rattle.felm_core.specs.Moves.{stop_or};
ghost use Rattle.felm_core.specs.Positions.{done_at, is_out, HasTurn};
ghost use Rattle.felm_engine.specs.Answers.{planned, Moved, IsTurnAt, IsTurnOut, DepositedAs, CarriesFunction, all_reopened};
ghost use Rattle.felm_engine.specs.Stops.{stop_of};

use crate::answers::{Deposit, Stop};
use crate::engine::Engine;
use crate::heads::are_heads;
use crate::outputs::show;
use felm_graph::{NodeKind, arguments_of};
use felm_meaning::{Done, Job, Outcome, Turn, equal_values};
use felm_term::{Memory, Message, Value};

impl Engine {
    /// Takes back a computed turn. It is settled if it is out: if a turn of its node is out, at its
    /// position, with its job, previous value, messages and budget. Else a turn of its node that is
    /// out is free again. Only a message that carries a function may find no memory; then the turn
    /// stays out.
    pub fn deposit(&mut self, done: Done) -> Result<Deposit, Memory>
        ensures ok { IfOk result (DepositedAs self.old done self.new) }
        ensures out { OnErr result (IsTurnOut self.old done.turn) }
        ensures function { OnErr result (CarriesFunction done.outcome) }
        ensures err { OnErr result (self.new ≡ self.old) }
    {
        let node = done.turn().node();
        if !self.has_out(done.turn()) {
            self.reopen(node);
            return Ok(Deposit::Reopened);
        }
        self.gives_the_message(done.turn());
        match done.outcome() {
            Outcome::Sent(message) => self.send(node, message)?,
            Outcome::Over => self.halt(node),
        }
        Ok(Deposit::Settled)
    }

    /// Takes every turn back: none is out then.
    pub fn reopen_all(&mut self)
        ensures plan { self.new.plan ≡ self.old.plan }
        ensures position { self.new.position ≡ all_reopened self.old.position }
    {
        self.out.fill(false);
        self.turns_out = 0;
    }

    // Whether this turn is out.
    fn has_out(&self, turn: &Turn) -> bool
        ensures { IsTrue result ↔ IsTurnOut self.now turn.now }
    {
        let node = turn.node() as usize;
        if node >= self.out.len() || !self.out[node] {
            return false;
        }
        self.has_turn(turn)
    }

    // Whether it is the turn that its node has.
    fn has_turn(&self, turn: &Turn) -> bool
        requires { HasTurn (planned self.now) self.now.position.done turn.now.node }
        ensures { IsTrue result ↔ IsTurnAt (planned self.now) self.now.position turn.now.node turn.now }
    {
        let node = turn.node();
        if turn.position() != self.done[node as usize] + 1 {
            return false;
        }
        if turn.budget() != self.plan.limits.turn_steps {
            return false;
        }
        if !is_job_of(turn.job(), &self.plan.graph.nodes()[node as usize].kind) {
            return false;
        }
        if !equal_values(turn.previous(), &self.kept[node as usize]) {
            return false;
        }
        let ports = arguments_of(&self.plan.graph, node).len();
        are_heads(&self.edges, node, ports, turn.inputs().as_slice())
    }

    // What a turn that is out comes to is its node's next message.
    fn gives_the_message(&self, turn: &Turn)
        requires { IsTurnOut self.now turn.now }
        ensures { msg_for (planned self.now) self.now.position.journal turn.now.node (suc (done_at self.now.position.done turn.now.node)) ≡ step turn.now.job turn.now.previous turn.now.inputs turn.now.budget }
    {
        let _ = &self.turns_out;
    }

    // The turn that is out sends its message.
    fn send(&mut self, node: u32, message: &Message) -> Result<(), Memory>
        requires out { is_out self.old.position.out node ≡ true }
        requires sent { msg_for (planned self.old) self.old.position.journal node (suc (done_at self.old.position.done node)) ≡ Some message.now }
        ensures ok { OnOk result (Moved self.old (moves.Send node) self.new) }
        ensures err { OnErr result (self.new ≡ self.old) }
        ensures plain { IsPlain (value_of message.now) → IsOk result }
    {
        let value = value_of(message).copy()?;
        let shown = self.shown(node, message)?;
        self.edges.prepare(node, message)?;
        self.waiting.pass_on(self.asyncs.over(node), message)?;
        self.edges.put(node);
        self.edges.drop_heads(node);
        show(shown, &mut self.outputs);
        self.kept[node as usize] = value;
        self.done[node as usize] += 1;
        self.out[node as usize] = false;
        self.turns_out -= 1;
        self.turns_settled += 1;
        Ok(())
    }

    // A copy of a node's message for the outputs, if the node is shown.
    fn shown(&self, node: u32, message: &Message) -> Result<Option<Message>, Memory>
        ensures value { IfOk result (λ shown. shown ≡ (if self.now.plan.graph.main == node then Some message.now else None)) }
        ensures plain { IsPlain (value_of message.now) → IsOk result }
    {
        if self.plan.graph.main() == node {
            Ok(Some(message.copy()?))
        } else {
            Ok(None)
        }
    }

    // The turn that is out is over its budget.
    fn halt(&mut self, node: u32)
        requires out { is_out self.old.position.out node ≡ true }
        requires over { msg_for (planned self.old) self.old.position.journal node (suc (done_at self.old.position.done node)) ≡ None }
        ensures { Moved self.old (moves.Stop node) self.new }
    {
        let position = self.done[node as usize] + 1;
        self.stop = first_stop(self.stop, Stop { node, position });
        self.out[node as usize] = false;
        self.turns_out -= 1;
    }

    // A turn of the node that is out is free again.
    fn reopen(&mut self, node: u32)
        ensures { Moved self.old (moves.Reopen node) self.new }
    {
        let node = node as usize;
        if node < self.out.len() && self.out[node] {
            self.out[node] = false;
            self.turns_out -= 1;
        }
    }
}

// The stop that was there, or this one.
fn first_stop(stop: Option<Stop>, next: Stop) -> Option<Stop>
    ensures { stop_of result ≡ stop_or (stop_of stop) (record { node = next.node; position = next.position }) }
{
    match stop {
        Some(first) => Some(first),
        None => Some(next),
    }
}

fn value_of(message: &Message) -> &Value
    ensures { result.now ≡ value_of message.now }
{
    match message {
        Message::Change(value) => value,
        Message::NoChange(value) => value,
    }
}

// Whether a job is that of a node of this kind.
fn is_job_of(job: &Job, kind: &NodeKind) -> bool
    ensures { IsTrue result ↔ (job_of_kind kind.now ≡ Some job.now) }
{
    match (job, kind) {
        (Job::Lift { function }, NodeKind::Lift { function: own, .. }) => {
            equal_values(function, own)
        }
        (Job::Foldp { function }, NodeKind::Foldp { function: own, .. }) => {
            equal_values(function, own)
        }
        _ => false,
    }
}
