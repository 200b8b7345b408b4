//! Turns that come back to an engine: only one that is equal to the turn that is out is settled.
use super::moves::Move::*;
use super::moves::{play, play_on};
use super::plans::{APPLIED, LONG_TURNS, TWO_HEAVY, TWO_LIFTS, WIDE};
use felm_meaning::Turn;
use std::alloc::Global;
use std::process::Abort;
use std::test::Fail;

const NOTHING: &str = "main = lift1 (\\n:int. n * 0) x";

#[test]
fn a_turn_that_differs_is_reopened(rt: HostRuntime) -> Result<(), Fail> {
    let alloc = rt.alloc();
    let rows = [
        // Another message.
        (NOTHING, NOTHING, WIDE, 9),
        // Another budget.
        (NOTHING, NOTHING, LONG_TURNS, 4),
        // Another function, and another kind of job.
        (NOTHING, "main = lift1 (\\n:int. 0 * n) x", WIDE, 4),
        (
            NOTHING,
            "main = foldp (\\n:int.\\s:int. n * 0) 0 x",
            WIDE,
            4,
        ),
        // Another previous value.
        (
            "main = foldp (\\n:int.\\s:int. n) 0 x",
            "main = foldp (\\n:int.\\s:int. n) 5 x",
            WIDE,
            4,
        ),
    ];
    for (here, other, limits, number) in rows {
        let mut held = Vec::new(alloc);
        let moves = [(Feed(0, number), "at 1"), (Claim(1), "got 1 at 1")];
        play_on(&rt, alloc, other, &limits, &mut held, &moves)?;
        is_reopened(&rt, alloc, here, &mut held)?;
    }
    // Another position.
    let mut held = Vec::new(alloc);
    let moves = [
        (Feed(0, 4), "at 1"),
        (Take(1), "change 0"),
        (Feed(0, 4), "at 2"),
        (Claim(1), "got 1 at 2"),
        (Last, "had 0, takes change 4 in 10 steps"),
    ];
    play_on(&rt, alloc, NOTHING, &WIDE, &mut held, &moves)?;
    is_reopened(&rt, alloc, NOTHING, &mut held)
}

/// The turn that is held isn't the one that the program's node 1 has at the event 4. Where it comes back the node's turn is
/// free again.
fn is_reopened(
    rt: &impl Abort,
    alloc: Global,
    program: &str,
    held: &mut Vec<Turn>,
) -> Result<(), Fail> {
    let rows = [
        (Feed(0, 4), "at 1"),
        (Claim(1), "got 1 at 1"),
        (Deposit(1), "reopened"),
        (State, "1 in, 0 out, 0 settled"),
        (Claim(1), "got 1 at 1"),
        (Deposit(1), "settled"),
        (Deposit(1), "reopened"),
    ];
    play_on(rt, alloc, program, &WIDE, held, &rows)
}

#[test]
fn a_message_of_the_other_kind_differs(rt: HostRuntime) -> Result<(), Fail> {
    let alloc = rt.alloc();
    let program = "input y : int = 4\nmain = lift1 (\\n:int. n * 0) y";
    let mut held = Vec::new(alloc);
    let rows = [
        (Feed(0, 1), "at 1"),
        (Claim(2), "got 2 at 1"),
        (Last, "had 0, takes same 4 in 10 steps"),
    ];
    play_on(&rt, alloc, program, &WIDE, &mut held, &rows)?;
    let rows = [
        (Feed(1, 4), "at 1"),
        (Claim(2), "got 2 at 1"),
        (Last, "had 0, takes change 4 in 10 steps"),
        (Deposit(2), "reopened"),
        (Take(2), "change 0"),
    ];
    play_on(&rt, alloc, program, &WIDE, &mut held, &rows)
}

#[test]
fn an_equal_turn_is_as_good(rt: HostRuntime) -> Result<(), Fail> {
    let alloc = rt.alloc();
    let mut held = Vec::new(alloc);
    let rows = [(Feed(0, 4), "at 1"), (Claim(1), "got 1 at 1")];
    play_on(&rt, alloc, NOTHING, &WIDE, &mut held, &rows)?;
    play_on(&rt, alloc, NOTHING, &WIDE, &mut held, &rows)?;
    let rows = [
        (Feed(0, 4), "at 1"),
        // No turn is out.
        (Deposit(1), "reopened"),
        (Claim(1), "got 1 at 1"),
        (Deposit(1), "settled"),
        (Deposit(1), "reopened"),
        (Outputs, "change 0"),
    ];
    play_on(&rt, alloc, NOTHING, &WIDE, &mut held, &rows)
}

#[test]
fn a_turn_of_another_node_leaves_the_one_that_is_out(rt: HostRuntime) -> Result<(), Fail> {
    let alloc = rt.alloc();
    // A node that there isn't.
    let mut held = Vec::new(alloc);
    let rows = [
        (Feed(0, 4), "at 1"),
        (Take(1), "change 5"),
        (Claim(2), "got 2 at 1"),
    ];
    play_on(&rt, alloc, TWO_LIFTS, &WIDE, &mut held, &rows)?;
    let rows = [
        (Feed(0, 4), "at 1"),
        (Claim(1), "got 1 at 1"),
        (Deposit(2), "reopened"),
        (State, "1 in, 1 out, 0 settled"),
        (Deposit(1), "settled"),
    ];
    play_on(&rt, alloc, NOTHING, &WIDE, &mut held, &rows)?;
    // Two nodes that do the same.
    let rows = [
        (Feed(0, 0), "at 1"),
        (Claim(1), "got 1 at 1"),
        (ReopenAll, "0 out"),
        (Claim(2), "got 2 at 1"),
        (Deposit(1), "reopened"),
        (State, "1 in, 1 out, 0 settled"),
        (Deposit(2), "settled"),
        (State, "1 in, 0 out, 1 settled"),
    ];
    play(&rt, alloc, TWO_HEAVY, &WIDE, &rows)
}

#[test]
fn functions_in_turns_are_compared(rt: HostRuntime) -> Result<(), Fail> {
    let alloc = rt.alloc();
    let mut held = Vec::new(alloc);
    let rows = [
        (Feed(0, 7), "at 1"),
        (Take(1), "change <fun>"),
        (Claim(2), "got 2 at 1"),
        (Last, "had 0, takes change <fun> in 10 steps"),
    ];
    play_on(&rt, alloc, APPLIED, &WIDE, &mut held, &rows)?;
    let rows = [
        (Feed(0, 2), "at 1"),
        (Take(1), "change <fun>"),
        (Claim(2), "got 2 at 1"),
        (Last, "had 0, takes change <fun> in 10 steps"),
        (Deposit(2), "reopened"),
        (Take(2), "change 2"),
    ];
    play_on(&rt, alloc, APPLIED, &WIDE, &mut held, &rows)
}
