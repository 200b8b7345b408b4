//! Moves of an engine, each with what it answers.
ghost use Rattle.std.specs.Prelude.{◌<◌, length, IfOk, IfSome, IsTrue};
ghost use Rattle.felm_term.specs.declared.value.Value.TheVariants as value;
ghost use Rattle.felm_graph.specs.Graphs.{IsOfType};
ghost use Rattle.felm_engine.specs.Answers.{MayComeIn};
ghost use Rattle.felm_driven.specs.Events.{IsOfAsync, IsFirst};

use super::plans::plan;
use super::texts::{
    deposit_text, entered_text, journal_text, messages_text, outcome_text, state_text, turn_text,
    words,
};
use Move::*;
use felm_engine::{Claim as Claimed, Deposit as Deposited, Engine};
use felm_graph::{NodeKind, is_source};
use felm_meaning::{Preset, Turn, compute, defaults, equal_values};
use felm_term::{Event, Function, Limits, Memory, Scope, Ty, TyForm, Value, same_ty, type_of};
use std::alloc::Global;
use std::process::Abort;
use std::test::Fail;

/// What is done to an engine, or asked of it. Nodes go by their numbers.
#[derive(Clone, Copy, Debug)]
pub enum Move {
    /// An event of an input of numbers comes in.
    Feed(u32, i64),
    /// An event of a unit input comes in.
    Press(u32),
    /// The value that has waited longest at an async comes in.
    Enter(u32),
    /// The turn of a node is handed out, and held.
    Claim(u32),
    /// The same, of the least node that is ready.
    ClaimNext,
    /// Of the turns of a node that are held the one that is held longest is computed and comes back.
    Deposit(u32),
    /// A node takes its turn: it is handed out, computed and comes back at once.
    Take(u32),
    /// The least node that is ready takes its turn, until none is ready.
    Rest,
    /// Every turn that is out is free again.
    ReopenAll,
    /// What the turn that was handed out last is made of.
    Last,
    /// The value that has waited longest at an async.
    Waiting(u32),
    /// The events that came in, each with its source's number.
    Journal,
    /// What the shown node has sent.
    Outputs,
    /// How many events came in, how many turns are out, how many messages were settled, and what has stopped.
    State,
}

/// A move and its answer.
pub type Row = (Move, &'static str);

/// Each move on a new engine of a program behind the head, within these limits, has its answer.
pub fn play(
    rt: &impl Abort,
    alloc: Global,
    program: &str,
    limits: &Limits,
    rows: &[Row],
) -> Result<(), Fail> {
    play_on(rt, alloc, program, limits, &mut Vec::new(alloc), rows)
}

/// The same, where turns are held already, of other engines maybe.
pub fn play_on(
    rt: &impl Abort,
    alloc: Global,
    program: &str,
    limits: &Limits,
    held: &mut Vec<Turn>,
    rows: &[Row],
) -> Result<(), Fail> {
    let mut engine = engine_of(alloc, program, limits)?;
    for (step, expected) in rows {
        let told = answer(rt, alloc, &mut engine, held, *step)?;
        assert_eq!(rt; told.as_str(), *expected, "{program}: {step:?}");
    }
    Ok(())
}

fn engine_of(alloc: Global, program: &str, limits: &Limits) -> Result<Engine, Fail> {
    let plan = plan(alloc, program, "", limits)?;
    let defaults = match defaults(alloc, &plan)? {
        Preset::All(values) => values,
        Preset::Over { .. } => return Err(Fail::new("a default is over its budget")),
    };
    Ok(Engine::make(alloc, plan, &defaults)?)
}

/// Makes a move, and tells its answer.
fn answer(
    rt: &impl Abort,
    alloc: Global,
    engine: &mut Engine,
    held: &mut Vec<Turn>,
    step: Move,
) -> Result<String, Fail> {
    match step {
        Feed(node, number) => dispatch(rt, alloc, engine, node, Value::Int(number)),
        Press(node) => dispatch(rt, alloc, engine, node, Value::Unit),
        Enter(node) => enter(rt, alloc, engine, node),
        Claim(node) => claim(rt, alloc, engine, node, held),
        ClaimNext => hold(alloc, engine.claim_next()?, held),
        Deposit(node) => deposit(alloc, engine, longest_held(held, node)),
        Take(node) => take(rt, alloc, engine, node),
        Rest => rest(alloc, engine),
        ReopenAll => reopen_all(alloc, engine),
        Last => turn_text(alloc, held.last().ok_or("no turn is held")?),
        Waiting(node) => waiting_text(alloc, engine, node),
        Journal => journal_text(alloc, engine.journal().as_slice()),
        Outputs => messages_text(alloc, engine.out_messages().as_slice()),
        State => state_text(alloc, engine),
    }
}

// ---- events

fn enter(rt: &impl Abort, alloc: Global, engine: &mut Engine, node: u32) -> Result<String, Fail> {
    let value = match waiting_first(engine, node) {
        Some(value) => value.copy()?,
        None => return words(alloc, "none waiting"),
    };
    dispatch(rt, alloc, engine, node, value)
}

fn dispatch(
    rt: &impl Abort,
    alloc: Global,
    engine: &mut Engine,
    source: u32,
    value: Value,
) -> Result<String, Fail> {
    let event = Event { source, value };
    assert!(rt; may_come_in(alloc, engine, &event)?, "{event:?}");
    let entered = engine.dispatch(event.source, event.value)?;
    entered_text(alloc, entered)
}

/// Whether an event may come in: it is one of an input, or the one that has waited longest at an async.
fn may_come_in(alloc: Global, engine: &Engine, event: &Event) -> Result<bool, Memory>
    ensures { IfOk result (λ yes. IsTrue yes → MayComeIn engine.now event.now) }
{
    let graph = &engine.plan().graph;
    if event.source as usize >= graph.nodes().len() || !is_source(graph, event.source) {
        return Ok(false);
    }
    if !is_in_turn(engine, event) {
        return Ok(false);
    }
    is_of_type(
        alloc,
        &event.value,
        &graph.nodes()[event.source as usize].ty,
    )
}

/// At an async the value that has waited longest comes first.
fn is_in_turn(engine: &Engine, event: &Event) -> bool
    requires { event.now.source < length engine.now.plan.graph.nodes }
    ensures { IsTrue result → IsOfAsync engine.now event.now → IsFirst engine.now event.now }
{
    match &engine.plan().graph.nodes()[event.source as usize].kind {
        NodeKind::Async { .. } => is_first(engine, event),
        _ => true,
    }
}

fn is_first(engine: &Engine, event: &Event) -> bool
    requires { IsOfAsync engine.now event.now }
    ensures { IsTrue result → IsFirst engine.now event.now }
{
    match engine.waiting_first(event.source) {
        Some(value) => equal_values(value, &event.value),
        None => false,
    }
}

fn is_of_type(alloc: Global, value: &Value, ty: &Ty) -> Result<bool, Memory>
    ensures { IfOk result (λ yes. IsTrue yes → IsOfType ty.now value.now) }
{
    match value {
        Value::Unit => Ok(matches!(&ty.form, TyForm::Unit)),
        Value::Int(_) => Ok(matches!(&ty.form, TyForm::Int)),
        Value::Fun(function) => function_has_type(alloc, function, ty),
    }
}

fn function_has_type(alloc: Global, function: &Function, ty: &Ty) -> Result<bool, Memory>
    ensures { IfOk result (λ yes. IsTrue yes → IsOfType ty.now (value.Fun function.now)) }
{
    match type_of(alloc, function.as_term(), &Scope::Outside, &[], &[])? {
        Some(found) => Ok(same_ty(&found, ty)),
        None => Ok(false),
    }
}

/// The value that has waited longest at a node. None waits at a node that is no async.
fn waiting_first(engine: &Engine, node: u32) -> Option<&Value> {
    let nodes = engine.plan().graph.nodes();
    if node as usize >= nodes.len() {
        return None;
    }
    match &nodes[node as usize].kind {
        NodeKind::Async { .. } => engine.waiting_first(node),
        _ => None,
    }
}

fn waiting_text(alloc: Global, engine: &Engine, node: u32) -> Result<String, Fail> {
    match waiting_first(engine, node) {
        Some(value) => Ok(format!(in alloc; "{value}")?),
        None => words(alloc, "none"),
    }
}

// ---- turns

fn claim(
    rt: &impl Abort,
    alloc: Global,
    engine: &mut Engine,
    node: u32,
    held: &mut Vec<Turn>,
) -> Result<String, Fail> {
    assert!(rt; has_node(engine, node), "{node} is no node");
    hold(alloc, engine.claim(node)?, held)
}

/// Holds a turn that was handed out.
pub fn hold(alloc: Global, claimed: Claimed, held: &mut Vec<Turn>) -> Result<String, Fail> {
    match claimed {
        Claimed::Got(turn) => {
            let text = format!(in alloc; "got {} at {}", turn.node(), turn.position())?;
            held.push(turn)?;
            Ok(text)
        }
        Claimed::NotReady => words(alloc, "not ready"),
    }
}

/// Takes the turn of a node that is held longest from those that are held.
pub fn longest_held(held: &mut Vec<Turn>, node: u32) -> Option<Turn> {
    let place = place_of(held.as_slice(), node)?;
    Some(held.remove(place))
}

fn place_of(held: &[Turn], node: u32) -> Option<usize>
    ensures { IfSome result (λ place. place < length held.now) }
{
    for place in 0..held.len() {
        if held[place].node() == node {
            return Some(place);
        }
    }
    None
}

fn deposit(alloc: Global, engine: &mut Engine, turn: Option<Turn>) -> Result<String, Fail> {
    let turn = turn.ok_or("no such turn is held")?;
    let answer = engine.deposit(compute(alloc, turn)?)?;
    words(alloc, deposit_text(answer))
}

fn take(rt: &impl Abort, alloc: Global, engine: &mut Engine, node: u32) -> Result<String, Fail> {
    assert!(rt; has_node(engine, node), "{node} is no node");
    let Claimed::Got(turn) = engine.claim(node)? else {
        return words(alloc, "not ready");
    };
    let done = compute(alloc, turn)?;
    let text = outcome_text(alloc, &done)?;
    match engine.deposit(done)? {
        Deposited::Settled => Ok(text),
        Deposited::Reopened => words(alloc, "reopened"),
    }
}

fn has_node(engine: &Engine, node: u32) -> bool
    ensures { IsTrue result → node < length engine.now.plan.graph.nodes }
{
    (node as usize) < engine.plan().graph.nodes().len()
}

fn rest(alloc: Global, engine: &mut Engine) -> Result<String, Fail> {
    for turns in 0..100u32 {
        match engine.claim_next()? {
            Claimed::Got(turn) => {
                let _ = engine.deposit(compute(alloc, turn)?)?;
            }
            Claimed::NotReady => return Ok(format!(in alloc; "{turns} turns")?),
        }
    }
    words(alloc, "100 turns")
}

fn reopen_all(alloc: Global, engine: &mut Engine) -> Result<String, Fail> {
    engine.reopen_all();
    let out = engine.turns_out();
    Ok(format!(in alloc; "{out} out")?)
}
