//! Turns are handed out.
ghost use Rattle.std.specs.Prelude.{◌≡◌, ◌↔◌, ◌<◌, ℕ, length, MatchOption, IsTrue, IfOk, OnErr};
ghost use Rattle.felm_core.specs.Positions.{HasTurn, IsReady};
ghost use Rattle.felm_engine.specs.Answers.{planned, IsTurnAt, ClaimedAs, ClaimedNextAs, SomeIsReady, IsLeastReady};

use crate::answers::Claim;
use crate::engine::Engine;
use crate::heads::heads;
use felm_graph::{arguments_of, is_source};
use felm_meaning::{Turn, job_of};
use felm_term::Memory;

impl Engine {
    /// Hands out the turn of a node, if it is ready: nothing has stopped, no turn of it is out, each
    /// of its edges has a message, and each edge that reads it has room.
    pub fn claim(&mut self, node: u32) -> Result<Claim, Memory>
        requires { node < length self.old.plan.graph.nodes }
        ensures ok { IfOk result (ClaimedAs self.old node self.new) }
        ensures ready { OnErr result (IsReady (planned self.old) self.old.position node) }
        ensures err { OnErr result (self.new ≡ self.old) }
    {
        if !self.is_ready(node) {
            return Ok(Claim::NotReady);
        }
        let turn = self.turn_at(node)?;
        self.out[node as usize] = true;
        self.turns_out += 1;
        Ok(Claim::Got(turn))
    }

    /// Hands out the turn of the least node that is ready.
    pub fn claim_next(&mut self) -> Result<Claim, Memory>
        ensures ok { IfOk result (ClaimedNextAs self.old self.new) }
        ensures ready { OnErr result (SomeIsReady self.old) }
        ensures err { OnErr result (self.new ≡ self.old) }
    {
        match self.least_ready() {
            Some(node) => self.claim(node),
            None => Ok(Claim::NotReady),
        }
    }

    // Whether a node can take a turn now.
    fn is_ready(&self, node: u32) -> bool
        requires { node < length self.now.plan.graph.nodes }
        ensures { IsTrue result ↔ IsReady (planned self.now) self.now.position node }
    {
        if self.stop.is_some() || self.out[node as usize] {
            return false;
        }
        if is_source(&self.plan.graph, node) || !self.edges.is_fed(node) {
            return false;
        }
        self.edges.room(node)
    }

    // The least node that can.
    fn least_ready(&self) -> Option<u32>
        ensures { MatchOption result ((k : ℕ) → ¬ IsReady (planned self.now) self.now.position k) (IsLeastReady self.now) }
    {
        for node in 0..self.done.len() {
            if self.is_ready(node as u32) {
                return Some(node as u32);
            }
        }
        None
    }

    // The turn of a node that can take one.
    fn turn_at(&self, node: u32) -> Result<Turn, Memory>
        requires { HasTurn (planned self.now) self.now.position.done node }
        ensures { IfOk result (IsTurnAt (planned self.now) self.now.position node) }
    {
        let position = self.done[node as usize] + 1;
        let job = job_of(&self.plan.graph, node)?;
        let previous = self.kept[node as usize].copy()?;
        let ports = arguments_of(&self.plan.graph, node).len();
        let inputs = heads(&self.edges, node, ports)?;
        let budget = self.plan.limits.turn_steps;
        Ok(Turn::make(node, position, job, previous, inputs, budget))
    }
}
