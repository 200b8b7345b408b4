//! Runs with workers.
ghost use Rattle.std.specs.Prelude.{◌≤◌};

use super::texts::{Left, called, command, showing};
use crate::Status;
use crate::run::run_with_workers;
use felm_plans::read_plan;
use felm_term::Limits;
use felm_workers::{FreeGate, Gate, MeetGate};
use std::alloc::Global;
use std::sync::Wait;
use std::sync::atomic::{AtomicU64, Ordering};
use std::test::Fail;
use std::thread::Threads;

/// Counts the turns that pass.
#[derive(Drop)]
struct CountingGate {
    passes: AtomicU64,
}

impl CountingGate {
    fn make() -> CountingGate {
        CountingGate {
            passes: AtomicU64::new(0),
        }
    }
}

impl Gate for CountingGate {
    fn pass<R: Wait>(&self, _rt: &R, _node: u32, _position: u64) {
        self.passes.fetch_add(1, Ordering::SeqCst);
    }
}

/// Three turns an event.
const DIAMOND: &str =
    "lift2 (\\p:int.\\q:int. p + q) (lift1 (\\n:int. n + 1) x) (lift1 (\\n:int. n * 2) x)";

/// A change of `x` is an event of its own, ten times as large.
const ASYNC: &str = "lift2 (\\a:int.\\b:int. a + b) x (async (lift1 (\\n:int. n * 10) x))";

/// Events of `x` with the numbers from one to the last.
fn script_to(alloc: Global, last: u64) -> Result<String, Fail> {
    let mut script = String::new(alloc);
    for number in 1..=last {
        script.push_str(format!(in alloc; "x {number}\n")?.as_str())?;
    }
    Ok(script)
}

/// What `run` leaves of an expression over `x`.
fn run<G: Gate + Sync, R: Threads + Wait + Sync>(
    rt: &R,
    alloc: Global,
    expression: &str,
    script: &str,
    gate: &G,
) -> Result<Left, Fail> {
    let program = showing(alloc, expression)?;
    called(
        rt,
        alloc,
        &["run", "p", "s"],
        program.as_slice(),
        script.as_bytes(),
        gate,
    )
}

#[test]
fn workers_print_what_one_thread_prints(rt: HostRuntime) -> Result<(), Fail> {
    let alloc = rt.alloc();
    let script = script_to(alloc, 1000)?;
    for (expression, script, turns) in [(ASYNC, "x 1\n", 4), (DIAMOND, script.as_str(), 3000)] {
        let program = showing(alloc, expression)?;
        let alone = command(
            alloc,
            &["sync", "p", "s"],
            program.as_slice(),
            script.as_bytes(),
        )?;
        let gate = CountingGate::make();
        let left = run(&rt, alloc, expression, script, &gate)?;
        assert_eq!(rt; left.status, Status::Success);
        assert_eq!(rt; left.out.bytes(), alone.out.bytes());
        assert_eq!(rt; left.err.bytes(), b"".as_slice());
        assert_eq!(rt; gate.passes.load(Ordering::SeqCst), turns);
    }
    Ok(())
}

/// The limits of a command but for these.
fn limits(workers: u32, edge: u32) -> Limits
    requires workers { (1 ≤ workers) × (workers ≤ 16) }
    requires edge { (1 ≤ edge) × (edge ≤ 1024) }
{
    Limits {
        workers,
        turn_steps: 10_000,
        stage_steps: 100_000,
        edge,
        journal: 1_048_576,
    }
}

/// How many turns of the diamond pass the gate, on 1,000 events.
fn passes<R: Threads + Wait + Sync>(rt: &R, alloc: Global, limits: &Limits) -> Result<u64, Fail> {
    let program = showing(alloc, DIAMOND)?;
    let script = script_to(alloc, 1000)?;
    if program.len() > 1000 {
        return Err(Fail::from("long"));
    }
    let plan = read_plan(alloc, program.as_slice(), script.as_bytes(), limits).map_err(|_| "plan")?;
    let gate = CountingGate::make();
    let ended = run_with_workers(rt, alloc, &plan, &gate).map_err(|_| "memory")?;
    if !ended
        .text
        .as_slice()
        .ends_with(b"\n1000 x 1000 change 3001\nend 1000\n")
    {
        return Err(Fail::from("text"));
    }
    Ok(gate.passes.load(Ordering::SeqCst))
}

#[test]
fn each_turn_passes_the_gate_once(rt: HostRuntime) -> Result<(), Fail> {
    for limits in [limits(2, 1), limits(1, 16), limits(16, 16)] {
        assert_eq!(rt; passes(&rt, rt.alloc(), &limits)?, 3000);
    }
    Ok(())
}

#[test]
fn two_workers_meet(rt: HostRuntime) -> Result<(), Fail> {
    let gate = MeetGate::make(1, 2);
    let expression = "lift1 (\\n:int. n + 2) (lift1 (\\n:int. n + 1) x)";
    let left = run(&rt, rt.alloc(), expression, "x 4\nx 6\n", &gate)?;
    assert_eq!(rt; left.status, Status::Success);
    assert!(rt; gate.met());
    assert_eq!(rt;
        left.out.bytes(),
        b"felm-result 1\n0 default 3\n1 x 4 change 7\n2 x 6 change 9\nend 2\n".as_slice()
    );
    Ok(())
}

#[test]
fn workers_print_a_legal_journal(rt: HostRuntime) -> Result<(), Fail> {
    let left = run(&rt, rt.alloc(), ASYNC, "x 1\nx 2\n", &FreeGate)?;
    assert_eq!(rt; left.status, Status::Success);
    let one: &[u8] =
        b"felm-result 1\n0 default 0\n1 x 1 change 1\n2 @0 10 change 11\n3 x 2 change 12\n4 @0 20 change 22\nend 4\n";
    let other: &[u8] =
        b"felm-result 1\n0 default 0\n1 x 1 change 1\n2 x 2 change 2\n3 @0 10 change 12\n4 @0 20 change 22\nend 4\n";
    assert!(rt; left.out.bytes() == one || left.out.bytes() == other);
    Ok(())
}
