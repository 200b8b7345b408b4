//! Sessions that are driven in pseudo-random orders, left anywhere and concluded.
ghost use Rattle.std.specs.Prelude.{◌<◌, ◌≤◌};

use super::examples::EXAMPLES;
use super::plain::is_complete_run;
use super::sessions::{has_node, is_async};
use felm_by_hand::plan_of_texts;
use felm_engine::{Bench, Claim};
use felm_graph::is_source;
use felm_meaning::{Plan, RunEnd, Turn, compute};
use felm_session::{Begun, Session, conclude};
use felm_term::Limits;
use std::alloc::Global;
use std::process::Abort;
use std::test::Fail;

/// How many orders are driven with edges of one size.
const ORDERS: u32 = 3_334;

#[test]
fn whatever_the_order_the_end_is_legal_with_one_message_an_edge(
    rt: HostRuntime,
) -> Result<(), Fail> {
    try_orders(&rt, rt.alloc(), 1)
}

#[test]
fn whatever_the_order_the_end_is_legal_with_two_messages_an_edge(
    rt: HostRuntime,
) -> Result<(), Fail> {
    try_orders(&rt, rt.alloc(), 2)
}

#[test]
fn whatever_the_order_the_end_is_legal_with_sixteen_messages_an_edge(
    rt: HostRuntime,
) -> Result<(), Fail> {
    try_orders(&rt, rt.alloc(), 16)
}

/// Drives sessions of all examples, with edges of so many messages.
fn try_orders(rt: &impl Abort, alloc: Global, edge: u32) -> Result<(), Fail>
    requires least { 1 ≤ edge }
    requires most { edge ≤ 1024 }
{
    // Turns that were handed out and not brought back, of earlier sessions too.
    let mut held = Vec::new(alloc);
    for number in 0..ORDERS {
        let mut draw = Draw::begin(number);
        try_order(rt, alloc, &mut held, &mut draw, number, &limits(edge))?;
    }
    Ok(())
}

/// Drives a session in one order, and judges the end of its run.
fn try_order(
    rt: &impl Abort,
    alloc: Global,
    held: &mut Vec<Turn>,
    draw: &mut Draw,
    number: u32,
    limits: &Limits,
) -> Result<(), Fail> {
    let (program, script) = EXAMPLES[(number % 12) as usize];
    let plan = plan_of_texts(alloc, program, script, limits)?;
    let mut session = begun(alloc, &plan)?;
    for _ in 0..draw.below(80) {
        call(alloc, &mut session, held, draw)?;
    }
    let before = session.turns_settled();
    let concluded = conclude(alloc, session, plan.copy(alloc)?)?;
    match &concluded.end {
        RunEnd::Complete { history } => {
            assert!(rt; is_complete_run(alloc, &plan, history)?, "order {number}");
            let turns = before.wrapping_add(concluded.own_turns);
            assert_eq!(rt;
                turns,
                all_turns(&plan, history.journal.len() as u64),
                "order {number}"
            );
        }
        _ => assert!(rt; false, "order {number} is not complete"),
    }
    Ok(())
}

/// Edges of so many messages.
fn limits(edge: u32) -> Limits
    requires least { 1 ≤ edge }
    requires most { edge ≤ 1024 }
{
    Limits {
        workers: 2,
        turn_steps: 10_000,
        stage_steps: 100_000,
        edge,
        journal: 1_000,
    }
}

fn begun(alloc: Global, plan: &Plan) -> Result<Session, Fail> {
    match Session::begin(alloc, plan.copy(alloc)?)? {
        Begun::Ready(session) => Ok(session),
        Begun::Over { .. } => Err(Fail::new("a default is over its budget")),
    }
}

/// How many turns the nodes of a plan take at so many events.
fn all_turns(plan: &Plan, events: u64) -> u64 {
    let mut turns: u64 = 0;
    for node in 0..plan.graph.nodes().len() {
        if !is_source(&plan.graph, node as u32) {
            turns = turns.wrapping_add(events);
        }
    }
    turns
}

// ---- calls

/// Makes a call of any kind.
fn call(
    alloc: Global,
    session: &mut Session,
    held: &mut Vec<Turn>,
    draw: &mut Draw,
) -> Result<(), Fail> {
    match draw.below(16) {
        0..=3 => {
            let _ = session.feed()?;
        }
        4 => {
            let _ = session.enter_next()?;
        }
        5..=6 => enter(session, draw)?,
        7..=9 => claim(session, held, draw)?,
        10..=11 => hold(session.claim_next()?, held)?,
        12..=14 => deposit(alloc, session, held, draw)?,
        _ => session.reopen_all(),
    }
    Ok(())
}

fn enter(session: &mut Session, draw: &mut Draw) -> Result<(), Fail> {
    let node = draw.below(16);
    if is_async(session, node) {
        let _ = session.enter(node)?;
    }
    Ok(())
}

fn claim(session: &mut Session, held: &mut Vec<Turn>, draw: &mut Draw) -> Result<(), Fail> {
    let node = draw.below(16);
    if has_node(session, node) {
        hold(session.claim(node)?, held)?;
    }
    Ok(())
}

/// Holds a turn, of twelve at most.
fn hold(claimed: Claim, held: &mut Vec<Turn>) -> Result<(), Fail> {
    if let Claim::Got(turn) = claimed {
        held.push(turn)?;
    }
    if held.len() > 12 {
        let _ = held.remove(0);
    }
    Ok(())
}

/// Brings a turn back, which may be of another session, or was taken back.
fn deposit(
    alloc: Global,
    session: &mut Session,
    held: &mut Vec<Turn>,
    draw: &mut Draw,
) -> Result<(), Fail> {
    let place = draw.below(12) as usize;
    if place < held.len() {
        let turn = held.remove(place);
        let _ = session.deposit(compute(alloc, turn)?)?;
    }
    Ok(())
}

// ---- numbers

/// Pseudo-random numbers.
#[derive(Drop)]
struct Draw {
    state: u64,
}

impl Draw {
    fn begin(seed: u32) -> Draw {
        Draw {
            state: u64::from(seed),
        }
    }

    /// A number below this one.
    fn below(&mut self, end: u32) -> u32
        requires { 0 < end }
        ensures { result < end }
    {
        let state = self.state.wrapping_mul(6_364_136_223_846_793_005);
        self.state = state.wrapping_add(1_442_695_040_888_963_407);
        ((self.state >> 33) % u64::from(end)) as u32
    }
}
