//! Sessions that are driven by hand, left at some point and concluded.
ghost use Rattle.std.specs.Prelude.{◌≡◌, ◌<◌, ℕ, Some, length, IsTrue};
ghost use Rattle.felm_meaning.specs.Nodes.{inner};

use super::moves::{hold, longest_held};
use super::plans::{LONG_TURNS, NARROW, SHORT, TWO_LIFTS, WIDE, plan};
use super::texts::{deposit_text, journal_text, messages_text, state_text, turn_text, words};
use Call::*;
use felm_engine::{Bench, Fed};
use felm_graph::NodeKind;
use felm_meaning::{History, RunEnd, Turn, compute};
use felm_session::{Begun, Concluded, Session, conclude};
use felm_term::Limits;
use std::alloc::Global;
use std::process::Abort;
use std::test::Fail;

/// What is done to a session, or asked of it. Nodes go by their numbers.
#[derive(Clone, Copy, Debug)]
enum Call {
    /// The script's next event comes in.
    Feed,
    /// The value that has waited longest at an async comes in.
    Enter(u32),
    /// The same, at the least async at which any waits.
    EnterNext,
    /// The turn of a node is handed out, and held.
    Claim(u32),
    /// The same, of the least node that is ready.
    ClaimNext,
    /// Of the turns of a node that are held the one that is held longest is computed and comes back.
    Deposit(u32),
    /// Every turn that is out is free again.
    ReopenAll,
    /// What the turn that was handed out last is made of.
    Last,
    /// What the shown node has sent.
    Outputs,
    /// How many events came in, how many turns are out, how many messages were settled, and what has stopped.
    State,
}

/// A call and its answer.
type Row = (Call, &'static str);

#[test]
fn a_session_goes_through_its_script(rt: HostRuntime) -> Result<(), Fail> {
    let alloc = rt.alloc();
    let mut held = Vec::new(alloc);
    // A turn of another session, that differs by the message that it takes.
    let other = [(Feed, "at 1"), (Claim(1), "got 1 at 1")];
    let _ = play(&rt, alloc, (TWO_LIFTS, "x 9", &NARROW), &mut held, &other)?;
    let rows = [
        (Feed, "at 1"),
        (Feed, "no room"),
        (Claim(2), "not ready"),
        (Claim(1), "got 1 at 1"),
        (Last, "had 1, takes change 4 in 10 steps"),
        (Claim(1), "not ready"),
        (Deposit(1), "reopened"),
        (Claim(1), "got 1 at 1"),
        (Last, "had 1, takes change 4 in 10 steps"),
        (Deposit(1), "settled"),
        (Feed, "at 2"),
        // The edge into node 2 is full.
        (Claim(1), "not ready"),
        (ClaimNext, "got 2 at 1"),
        (Last, "had 3, takes change 5 in 10 steps"),
        (Deposit(2), "settled"),
        (Outputs, "change 7"),
        (Feed, "none left"),
        (EnterNext, "none waiting"),
        (State, "2 in, 0 out, 2 settled"),
    ];
    let run = (TWO_LIFTS, "x 4\nx 6", &NARROW);
    let session = play(&rt, alloc, run, &mut held, &rows)?;
    let told = conclusion(alloc, session, run)?;
    assert_eq!(&rt;
        told.as_str(),
        "complete: 0 4, 0 6; 3, change 7, change 9; 2 own"
    );
    Ok(())
}

#[test]
fn a_full_journal_has_no_place_for_the_script(rt: HostRuntime) -> Result<(), Fail> {
    let alloc = rt.alloc();
    let run = (TWO_LIFTS, "x 4\nx 6", &SHORT);
    let rows = [(Feed, "at 1"), (Feed, "full")];
    let session = play(&rt, alloc, run, &mut Vec::new(alloc), &rows)?;
    let told = conclusion(alloc, session, run)?;
    assert_eq!(&rt; told.as_str(), "full: 0 4; 3, change 7; 2 own");
    Ok(())
}

#[test]
fn a_turn_that_is_out_is_taken_back(rt: HostRuntime) -> Result<(), Fail> {
    let alloc = rt.alloc();
    let run = (TWO_LIFTS, "x 4\nx 6", &NARROW);
    let rows = [
        (Feed, "at 1"),
        (Claim(1), "got 1 at 1"),
        (ReopenAll, "0 out"),
        (Claim(1), "got 1 at 1"),
        (Last, "had 1, takes change 4 in 10 steps"),
    ];
    let session = play(&rt, alloc, run, &mut Vec::new(alloc), &rows)?;
    // The turn that is out is taken back, and counted once.
    let told = conclusion(alloc, session, run)?;
    assert_eq!(&rt;
        told.as_str(),
        "complete: 0 4, 0 6; 3, change 7, change 9; 4 own"
    );
    Ok(())
}

const DIAMOND: &str =
    "main = lift2 (\\p:int.\\q:int. p + q) (lift1 (\\n:int. n + 1) x) (lift1 (\\n:int. n * 2) x)";

#[test]
fn two_turns_are_out_at_once(rt: HostRuntime) -> Result<(), Fail> {
    let alloc = rt.alloc();
    let run = (DIAMOND, "x 1\nx 2", &WIDE);
    let rows = [
        (Feed, "at 1"),
        (Claim(1), "got 1 at 1"),
        (ClaimNext, "got 2 at 1"),
        (State, "1 in, 2 out, 0 settled"),
        (Deposit(2), "settled"),
    ];
    let session = play(&rt, alloc, run, &mut Vec::new(alloc), &rows)?;
    let told = conclusion(alloc, session, run)?;
    assert_eq!(&rt;
        told.as_str(),
        "complete: 0 1, 0 2; 1, change 4, change 7; 5 own"
    );
    Ok(())
}

/// Node 1 is ten times the input, node 2 its async, node 3 the sum of input and async.
const LATE_TENS: &str =
    "main = lift2 (\\a:int.\\b:int. a + b) x (async (lift1 (\\n:int. n * 10) x))";

#[test]
fn changes_enter_after_their_causes(rt: HostRuntime) -> Result<(), Fail> {
    let alloc = rt.alloc();
    let run = (LATE_TENS, "x 1", &WIDE);
    let rows = [
        (Feed, "at 1"),
        (Enter(2), "none waiting"),
        (EnterNext, "none waiting"),
        (Claim(1), "got 1 at 1"),
        (Deposit(1), "settled"),
        (Enter(2), "at 2"),
        (Enter(2), "none waiting"),
    ];
    let session = play(&rt, alloc, run, &mut Vec::new(alloc), &rows)?;
    let told = conclusion(alloc, session, run)?;
    assert_eq!(&rt;
        told.as_str(),
        "complete: 0 1, 2 10; 0, change 1, change 11; 3 own"
    );
    // What waits enters before the script's next event, but only from where the session stands.
    let rows = [
        (
            LATE_TENS,
            "x 1\nx 2",
            0,
            "complete: 0 1, 2 10, 0 2, 2 20; 0, change 1, change 11, change 12, change 22; 8 own",
        ),
        (
            LATE_TENS,
            "x 1\nx 2",
            1,
            "complete: 0 1, 2 10, 0 2, 2 20; 0, change 1, change 11, change 12, change 22; 8 own",
        ),
        (
            LATE_TENS,
            "x 1\nx 2",
            2,
            "complete: 0 1, 0 2, 2 10, 2 20; 0, change 1, change 2, change 12, change 22; 8 own",
        ),
    ];
    for (program, script, feeds, expected) in rows {
        let run = (program, script, &WIDE);
        let session = fed(alloc, run, feeds)?;
        let told = conclusion(alloc, session, run)?;
        assert_eq!(&rt; told.as_str(), expected, "{feeds}");
    }
    Ok(())
}

#[test]
fn a_run_of_another_plan_begins_anew(rt: HostRuntime) -> Result<(), Fail> {
    let alloc = rt.alloc();
    let run = (TWO_LIFTS, "x 4\nx 6", &NARROW);
    let expected = "complete: 0 4, 0 6; 3, change 7, change 9; 4 own";
    let others = [
        // Another script, another program, other limits.
        (TWO_LIFTS, "x 4\nx 7", &NARROW),
        (TWO_LIFTS, "x 4", &NARROW),
        (DIAMOND, "x 4\nx 6", &NARROW),
        (TWO_LIFTS, "x 4\nx 6", &LONG_TURNS),
    ];
    for other in others {
        let session = fed(alloc, other, 1)?;
        let told = conclusion(alloc, session, run)?;
        assert_eq!(&rt; told.as_str(), expected, "{other:?}");
    }
    Ok(())
}

/// Three steps where the input is 0, and four where it isn't.
const HEAVY: &str = "main = lift1 (\\n:int. if n then n + 1 else 0) x";

/// Three steps for a turn.
const THREE: Limits = Limits {
    workers: 2,
    turn_steps: 3,
    stage_steps: 100,
    edge: 16,
    journal: 100,
};

/// Two steps for a turn.
const TWO: Limits = Limits {
    workers: 2,
    turn_steps: 2,
    stage_steps: 100,
    edge: 16,
    journal: 100,
};

#[test]
fn a_run_stops_at_a_call_over_budget(rt: HostRuntime) -> Result<(), Fail> {
    let alloc = rt.alloc();
    let run = (HEAVY, "x 0\nx 1\nx 0", &THREE);
    let rows = [
        (Feed, "at 1"),
        (Feed, "at 2"),
        (ClaimNext, "got 1 at 1"),
        (Deposit(1), "settled"),
        (ClaimNext, "got 1 at 2"),
        (Deposit(1), "settled"),
        (State, "2 in, 0 out, 1 settled, 1 stopped at 2"),
        (ClaimNext, "not ready"),
        // Events come in all the same.
        (Feed, "at 3"),
    ];
    let session = play(&rt, alloc, run, &mut Vec::new(alloc), &rows)?;
    let told = conclusion(alloc, session, run)?;
    assert_eq!(&rt; told.as_str(), "stopped: 0 0, 0 1, 0 0; 1 at 2; 0 own");
    let session = fed(alloc, run, 0)?;
    let told = conclusion(alloc, session, run)?;
    assert_eq!(&rt; told.as_str(), "stopped: 0 0, 0 1; 1 at 2; 1 own");
    // A default is over budget.
    let session = fed(alloc, run, 2)?;
    let told = conclusion(alloc, session, (HEAVY, "x 0", &TWO))?;
    assert_eq!(&rt; told.as_str(), "stopped: ; 1 at 0; 0 own");
    let begun = Session::begin(alloc, plan(alloc, HEAVY, "x 0", &TWO)?)?;
    assert!(&rt; matches!(begun, Begun::Over { node: 1 }));
    Ok(())
}

// ---- sessions of texts

/// A program behind the head, a script and limits.
type Run<'a> = (&'a str, &'a str, &'a Limits);

fn begun(alloc: Global, run: Run) -> Result<Session, Fail> {
    match Session::begin(alloc, plan(alloc, run.0, run.1, run.2)?)? {
        Begun::Ready(session) => Ok(session),
        Begun::Over { .. } => Err(Fail::new("a default is over its budget")),
    }
}

/// A session that was fed as often, with no turn taken.
fn fed(alloc: Global, run: Run, feeds: u32) -> Result<Session, Fail> {
    let mut session = begun(alloc, run)?;
    for _ in 0..feeds {
        let _ = session.feed()?;
    }
    Ok(session)
}

/// Each call on a new session has its answer. What is held may be of other sessions too.
fn play(
    rt: &impl Abort,
    alloc: Global,
    run: Run,
    held: &mut Vec<Turn>,
    rows: &[Row],
) -> Result<Session, Fail> {
    let mut session = begun(alloc, run)?;
    for (call, expected) in rows {
        let told = answer(rt, alloc, &mut session, held, *call)?;
        assert_eq!(rt; told.as_str(), *expected, "{call:?}");
    }
    Ok(session)
}

/// Makes a call, and tells its answer.
fn answer(
    rt: &impl Abort,
    alloc: Global,
    session: &mut Session,
    held: &mut Vec<Turn>,
    call: Call,
) -> Result<String, Fail> {
    match call {
        Feed => fed_text(alloc, session.feed()?),
        Enter(node) => enter(rt, alloc, session, node),
        EnterNext => fed_text(alloc, session.enter_next()?),
        Claim(node) => claim(rt, alloc, session, held, node),
        ClaimNext => hold(alloc, session.claim_next()?, held),
        Deposit(node) => deposit(alloc, session, longest_held(held, node)),
        ReopenAll => reopen_all(alloc, session),
        Last => turn_text(alloc, held.last().ok_or("no turn is held")?),
        Outputs => messages_text(alloc, session.engine().out_messages().as_slice()),
        State => state_text(alloc, session.engine()),
    }
}

fn enter(rt: &impl Abort, alloc: Global, session: &mut Session, node: u32) -> Result<String, Fail> {
    assert!(rt; is_async(session, node), "{node} is no async");
    fed_text(alloc, session.enter(node)?)
}

/// Whether a node is an async.
pub fn is_async(session: &Session, node: u32) -> bool
    ensures { IsTrue result → (x : ℕ) × (inner session.now.engine.plan.graph.nodes node ≡ Some x) }
{
    let nodes = session.engine().plan().graph.nodes();
    if node as usize >= nodes.len() {
        return false;
    }
    match &nodes[node as usize].kind {
        NodeKind::Async { .. } => true,
        _ => false,
    }
}

/// Whether a session's graph has a node of this number.
pub fn has_node(session: &Session, node: u32) -> bool
    ensures { IsTrue result → node < length session.now.engine.plan.graph.nodes }
{
    (node as usize) < session.engine().plan().graph.nodes().len()
}

fn claim(
    rt: &impl Abort,
    alloc: Global,
    session: &mut Session,
    held: &mut Vec<Turn>,
    node: u32,
) -> Result<String, Fail> {
    assert!(rt; has_node(session, node), "{node} is no node");
    hold(alloc, session.claim(node)?, held)
}

fn deposit(alloc: Global, session: &mut Session, turn: Option<Turn>) -> Result<String, Fail> {
    let turn = turn.ok_or("no such turn is held")?;
    let answer = session.deposit(compute(alloc, turn)?)?;
    words(alloc, deposit_text(answer))
}

fn reopen_all(alloc: Global, session: &mut Session) -> Result<String, Fail> {
    session.reopen_all();
    let out = session.turns_out();
    Ok(format!(in alloc; "{out} out")?)
}

fn fed_text(alloc: Global, answer: Fed) -> Result<String, Fail> {
    match answer {
        Fed::At { position } => Ok(format!(in alloc; "at {position}")?),
        Fed::NoneLeft => words(alloc, "none left"),
        Fed::NoneWaiting => words(alloc, "none waiting"),
        Fed::NoRoom => words(alloc, "no room"),
        Fed::Full => words(alloc, "full"),
    }
}

// ---- ends

/// What the conclusion of a run comes to, by whatever session.
fn conclusion(alloc: Global, session: Session, run: Run) -> Result<String, Fail> {
    let plan = plan(alloc, run.0, run.1, run.2)?;
    let Concluded { end, own_turns } = conclude(alloc, session, plan)?;
    let end = end_text(alloc, &end)?;
    Ok(format!(in alloc; "{end}; {own_turns} own")?)
}

fn end_text(alloc: Global, end: &RunEnd) -> Result<String, Fail> {
    match end {
        RunEnd::Complete { history } => history_text(alloc, "complete", history),
        RunEnd::Full { history } => history_text(alloc, "full", history),
        RunEnd::Stopped {
            journal,
            node,
            position,
        } => {
            let events = journal_text(alloc, journal.as_slice())?;
            Ok(format!(in alloc; "stopped: {events}; {node} at {position}")?)
        }
    }
}

fn history_text(alloc: Global, kind: &str, history: &History) -> Result<String, Fail> {
    let events = journal_text(alloc, history.journal.as_slice())?;
    let outputs = messages_text(alloc, history.outputs.as_slice())?;
    let default = &history.default;
    Ok(format!(in alloc; "{kind}: {events}; {default}, {outputs}")?)
}
