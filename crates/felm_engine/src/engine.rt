ghost use Rattle.std.specs.Prelude.{◌≡◌, ◌↔◌, ◌<◌, ◌^◌, ℕ, Some, true, false, length, replicate, slice_get, IsTrue, IfOk, option_copied};
ghost use Rattle.felm_meaning.specs.Nodes.{inner};

use crate::answers::Stop;
use crate::lists::{Asyncs, sources};
use crate::waiting::Waiting;
use felm_edges::Edges;
use felm_meaning::{Plan, Values};
use felm_term::{Events, Items, Memory, Messages, Value};
use std::alloc::Global;
use std::marker::Model;

/// A run of a plan whose nodes take their turns at different events, in any order. Contracts see the
/// plan and the position of the run: all else is the meaning of the plan there.
#[derive(Drop)]
pub struct Engine {
    pub(crate) plan: Plan,
    pub(crate) journal: Events,
    // how many messages each node has sent
    pub(crate) done: Vec<u64>,
    // whether a turn of each node is out
    pub(crate) out: Vec<bool>,
    pub(crate) stop: Option<Stop>,
    // the value in each node's last message
    pub(crate) kept: Vec<Value>,
    pub(crate) edges: Edges,
    pub(crate) waiting: Waiting,
    // what the shown node has sent
    pub(crate) outputs: Messages,
    pub(crate) asyncs: Asyncs,
    pub(crate) sources: Items<u32>,
    pub(crate) turns_out: u32,
    pub(crate) turns_settled: u64,
}

impl Model for Engine {
    ghost use Rattle.felm_engine.specs.EngineValue.{EngineValue};

    ghost Value = { EngineValue };

    ghost use Rattle.std.specs.Coded.{codes};
    ghost use Rattle.felm_term.specs.Codes.{coded_term, coded_type};

    ghost coded = { Prim.hlevel (codes, coded_term, coded_type) };

    ghost use Rattle.felm_engine.specs.Inside.{engine_of, IsStanding};

    ghost view = { engine_of };

    ghost invariant = { IsStanding };
}

impl Engine {
    ghost use Rattle.std.specs.Option.{option_map};
    ghost use Rattle.felm_graph.specs.Graphs.{IsGraph};
    ghost use Rattle.felm_meaning.specs.Presets.{IsPreset};
    ghost use Rattle.felm_meaning.specs.Types.{EventsFit};
    ghost use Rattle.felm_meaning.specs.declared.preset.Preset.TheVariants as preset;
    ghost use Rattle.felm_core.specs.Positions.{IsSound, IsSettled};
    ghost use Rattle.felm_core.specs.Contents.{settled_at, waiting_at, outputs_at};
    ghost use Rattle.felm_core.specs.Moves.{beginning};
    ghost use Rattle.felm_engine.specs.Answers.{planned, turns_out_at, NoneOut};
    ghost use Rattle.felm_engine.specs.Stops.{stop_of};

    /// An engine at the beginning of a plan's run, by the defaults of the plan's nodes.
    pub fn make(alloc: Global, plan: Plan, defaults: &Values) -> Result<Engine, Memory>
        requires { IsPreset plan.graph plan.limits.turn_steps (preset.All defaults.now) }
        ensures plan { IfOk result (λ engine. engine.plan ≡ plan) }
        ensures position { IfOk result (λ engine. engine.position ≡ beginning plan.graph) }
    {
        let graph = &plan.graph;
        let nodes = graph.nodes().len();
        let edges = Edges::make(alloc, graph, plan.limits.edge)?;
        let waiting = Waiting::make(alloc, nodes)?;
        let asyncs = Asyncs::of(alloc, graph)?;
        let sources = sources(alloc, graph)?;
        let kept = copies(alloc, defaults.as_slice())?;
        let done = zeros(alloc, nodes)?;
        let out = clear_flags(alloc, nodes)?;
        Ok(Engine {
            plan,
            journal: Items::make(alloc),
            done,
            out,
            stop: None,
            kept,
            edges,
            waiting,
            outputs: Items::make(alloc),
            asyncs,
            sources,
            turns_out: 0,
            turns_settled: 0,
        })
    }

    /// What every engine keeps: its plan has a graph, and its position is sound, with events of
    /// their nodes' types.
    pub fn sound(&self)
        ensures graph { IsGraph self.now.plan.graph }
        ensures sound { IsSound (planned self.now) self.now.position }
        ensures typed { EventsFit self.now.plan.graph self.now.position.journal }
    {
        let _ = &self.turns_out;
    }

    /// The plan that it runs.
    pub fn plan(&self) -> &Plan
        ensures { result.now ≡ self.now.plan }
    {
        &self.plan
    }

    /// The events so far.
    pub fn journal(&self) -> &Events
        ensures { result.now.items ≡ self.now.position.journal }
    {
        &self.journal
    }

    /// What the shown node has sent.
    pub fn out_messages(&self) -> &Messages
        ensures { result.now.items ≡ outputs_at (planned self.now) self.now.position }
    {
        &self.outputs
    }

    /// The first turn over its budget that was settled.
    pub fn stopped(&self) -> Option<Stop>
        ensures { stop_of result ≡ self.now.position.stop }
    {
        self.stop
    }

    /// How many turns are out.
    pub fn turns_out(&self) -> u32
        ensures { result ≡ turns_out_at self.now.position }
    {
        self.turns_out
    }

    /// How many messages of turns were settled.
    pub fn turns_settled(&self) -> u64
        ensures count { result ≡ settled_at (planned self.now) self.now.position }
        ensures bound { result < 2 ^ 38 }
    {
        self.turns_settled
    }

    /// Whether no turn is out, and every node that takes turns has taken one at every event.
    pub fn is_settled(&self) -> bool
        ensures { IsTrue result ↔ (NoneOut self.now.position × IsSettled (planned self.now) self.now.position) }
    {
        let turning = self.done.len() - self.sources.len();
        self.turns_out == 0 && self.turns_settled == self.journal.len() as u64 * turning as u64
    }

    /// The value that has waited longest at an async.
    pub fn waiting_first(&self, node: u32) -> Option<&Value>
        requires { (x : ℕ) × (inner self.now.plan.graph.nodes node ≡ Some x) }
        ensures { option_copied result ≡ slice_get (waiting_at (planned self.now) self.now.position node) 0 }
    {
        self.waiting.first(node)
    }
}

fn zeros(alloc: Global, count: usize) -> Result<Vec<u64>, Memory>
    ensures { IfOk result (λ zeros. zeros.items ≡ replicate count 0) }
{
    vec![in alloc; 0; count].map_err(|_| Memory)
}

fn clear_flags(alloc: Global, count: usize) -> Result<Vec<bool>, Memory>
    ensures { IfOk result (λ flags. flags.items ≡ replicate count false) }
{
    vec![in alloc; false; count].map_err(|_| Memory)
}

fn copies(alloc: Global, values: &[Value]) -> Result<Vec<Value>, Memory>
    ensures { IfOk result (λ copies. copies.items ≡ values.now) }
{
    let mut copies = Vec::with_capacity(alloc, values.len()).map_err(|_| Memory)?;
    for value in values {
        copies.push(value.copy()?).map_err(|_| Memory)?;
    }
    Ok(copies)
}
