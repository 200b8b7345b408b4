//! A bench in memory: nodes in a line, each of which reads the one before it, and whose turns change nothing.
ghost use Rattle.std.specs.Prelude.{◌≡◌, ℕ, ◌+◌, ◌<◌, ◌^◌, IfOk, OnErr};
ghost use Rattle.felm_engine.specs.Bench.{settled_by};

use felm_engine::{Bench, Claim, Deposit, Fed, Stop};
use felm_meaning::{Done, Job, Outcome, Turn, TurnInputs};
use felm_term::{Memory, Value};
use std::alloc::Global;
use std::sync::Arc;
use std::sync::atomic::{AtomicU64, Ordering};

/// More messages than any test settles.
const MOST_SETTLED: u64 = 1_000_000;

/// What goes wrong on a line, at one call.
#[derive(Clone, Copy, Debug, PartialEq, Eq)]
pub enum Trouble {
    Nothing,
    NoMemoryToEnter,
    NoMemoryToFeed,
    NoMemoryToClaim,
    NoMemoryToDeposit,
    Reopening,
    Stopping,
}

/// How often the feeder looked for events, and how often it had when the first turn was claimed.
#[derive(Drop)]
pub struct Watch {
    looks: AtomicU64,
    first_claim: AtomicU64,
}

impl Watch {
    pub fn make() -> Watch {
        Watch {
            looks: AtomicU64::new(0),
            first_claim: AtomicU64::new(u64::MAX),
        }
    }

    /// Whether the feeder looked again after the first claim.
    pub fn looked_again(&self) -> bool {
        self.looks.load(Ordering::SeqCst) > self.first_claim.load(Ordering::SeqCst)
    }

    fn look(&self) {
        self.looks.fetch_add(1, Ordering::SeqCst);
    }

    fn claim_first(&self) {
        let looks = self.looks.load(Ordering::SeqCst);
        self.first_claim.store(looks, Ordering::SeqCst);
    }
}

/// How a line is made.
#[derive(Clone, Copy, Debug)]
pub struct Shape {
    /// How many nodes, counted from 1.
    pub nodes: u32,
    /// How many messages an edge holds.
    pub edge: u64,
    pub events: u64,
    pub trouble: Trouble,
    /// The number of the call at which the trouble comes, counted from 1.
    pub call: u64,
}

#[derive(Drop)]
struct Nodes {
    shape: Shape,
    watch: Arc<Watch>,
    // How many events came in, and how many messages each node sent.
    sent: Vec<u64>,
    out: Vec<bool>,
    turns_out: u32,
    calls: u64,
}

impl Nodes {
    // Whether the trouble comes at this call, which is one of its kind.
    fn strikes(&mut self, trouble: Trouble) -> bool {
        if self.shape.trouble != trouble {
            return false;
        }
        self.calls = self.calls.saturating_add(1);
        self.calls == self.shape.call
    }

    fn sent(&self, node: u32) -> u64 {
        self.sent.get(node as usize).copied().unwrap_or(0)
    }

    // Whether there is room behind a node. The last one has readers without edges.
    fn has_room(&self, node: u32) -> bool {
        node == self.shape.nodes
            || self
                .sent(node)
                .saturating_sub(self.sent(node.saturating_add(1)))
                < self.shape.edge
    }

    fn is_ready(&self, node: u32) -> bool {
        let out = self.out.get(node as usize).copied().unwrap_or(true);
        !out && self.sent(node) < self.sent(node.saturating_sub(1)) && self.has_room(node)
    }

    fn feed(&mut self) -> Fed {
        let fed = self.sent(0);
        if fed >= self.shape.events {
            return Fed::NoneLeft;
        }
        if !self.has_room(0) {
            return Fed::NoRoom;
        }
        self.count(0);
        Fed::At {
            position: fed.saturating_add(1),
        }
    }

    fn claim(&mut self) -> Option<Turn> {
        let node = self.first_ready()?;
        let position = self.sent(node).saturating_add(1);
        if node == 1 && position == 1 {
            self.watch.claim_first();
        }
        self.set_out(node, true);
        Some(turn(node, position))
    }

    fn first_ready(&self) -> Option<u32> {
        for node in 1..=self.shape.nodes {
            if self.is_ready(node) {
                return Some(node);
            }
        }
        None
    }

    fn set_out(&mut self, node: u32, out: bool) {
        if let Some(place) = self.out.get_mut(node as usize) {
            *place = out;
        }
        self.turns_out = if out {
            self.turns_out.saturating_add(1)
        } else {
            self.turns_out.saturating_sub(1)
        };
    }

    fn count(&mut self, node: u32) {
        if let Some(sent) = self.sent.get_mut(node as usize) {
            *sent = sent.saturating_add(1);
        }
    }
}

// A turn of a lift without arguments, which has no change to send.
fn turn(node: u32, position: u64) -> Turn {
    let function = Value::Int(0);
    let previous = Value::Int(0);
    let inputs = TurnInputs::make();
    Turn::make(node, position, Job::Lift { function }, previous, inputs, 1)
}

/// A line with the count of the messages that were settled on it.
#[derive(Drop)]
pub struct Line {
    nodes: Nodes,
    pub settled: u64,
    ghost bound: { settled < 2 ^ 38 },
}

impl Line {
    pub fn make(alloc: Global, shape: Shape, watch: Arc<Watch>) -> Result<Line, Memory>
        ensures { IfOk result (λ line. line.settled ≡ 0) }
    {
        let places = shape.nodes as usize + 1;
        let Ok(sent) = vec![in alloc; 0u64; places] else {
            return Err(Memory);
        };
        let Ok(out) = vec![in alloc; false; places] else {
            return Err(Memory);
        };
        let nodes = Nodes {
            shape,
            watch,
            sent,
            out,
            turns_out: 0,
            calls: 0,
        };
        Ok(Line { nodes, settled: 0 })
    }

    /// Whether the last node has sent a message for each event.
    pub fn is_done(&self) -> bool {
        self.nodes.sent(self.nodes.shape.nodes) == self.nodes.shape.events
    }

    /// Whether the trouble has come.
    pub fn was_struck(&self) -> bool {
        self.nodes.calls >= self.nodes.shape.call
    }
}

impl Bench for Line {
    ghost settled = { λ line. line.settled };

    fn feed(&mut self) -> Result<Fed, Memory> {
        if self.nodes.strikes(Trouble::NoMemoryToFeed) {
            return Err(Memory);
        }
        Ok(self.nodes.feed())
    }

    fn enter_next(&mut self) -> Result<Fed, Memory> {
        self.nodes.watch.look();
        if self.nodes.strikes(Trouble::NoMemoryToEnter) {
            return Err(Memory);
        }
        Ok(Fed::NoneWaiting)
    }

    fn claim_next(&mut self) -> Result<Claim, Memory> {
        if self.nodes.strikes(Trouble::NoMemoryToClaim) {
            return Err(Memory);
        }
        match self.nodes.claim() {
            Some(turn) => Ok(Claim::Got(turn)),
            None => Ok(Claim::NotReady),
        }
    }

    fn deposit(&mut self, done: Done) -> Result<Deposit, Memory> {
        if self.nodes.strikes(Trouble::NoMemoryToDeposit) {
            return Err(Memory);
        }
        let node = done.turn().node();
        self.nodes.set_out(node, false);
        let reopens = self.nodes.strikes(Trouble::Reopening) || self.settled >= MOST_SETTLED;
        match done.outcome() {
            Outcome::Sent(_) => {}
            Outcome::Over => return Ok(Deposit::Reopened),
        }
        if reopens {
            return Ok(Deposit::Reopened);
        }
        self.nodes.strikes(Trouble::Stopping);
        self.nodes.count(node);
        self.settled += 1;
        Ok(Deposit::Settled)
    }

    fn turns_out(&self) -> u32 {
        self.nodes.turns_out
    }

    fn turns_settled(&self) -> u64 {
        self.settled
    }

    fn stopped(&self) -> Option<Stop> {
        if self.nodes.shape.trouble == Trouble::Stopping && self.was_struck() {
            return Some(Stop {
                node: 1,
                position: 1,
            });
        }
        None
    }
}
