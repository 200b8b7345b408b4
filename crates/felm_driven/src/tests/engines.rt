//! Engines that are driven by hand: events come in, turns are handed out and come back, in any order.
use super::moves::Move::*;
use super::moves::{play, play_on};
use super::plans::{APPLIED, LONG_TURNS, NARROW, SHORT, TWO_HEAVY, TWO_LIFTS, WIDE};
use std::test::Fail;

#[test]
fn turns_are_taken_one_event_apart(rt: HostRuntime) -> Result<(), Fail> {
    let alloc = rt.alloc();
    let mut held = Vec::new(alloc);
    // A turn of another engine, that differs by the message that it takes.
    let other = [(Feed(0, 9), "at 1"), (Claim(1), "got 1 at 1")];
    play_on(&rt, alloc, TWO_LIFTS, &NARROW, &mut held, &other)?;
    let rows = [
        (Feed(0, 4), "at 1"),
        (Feed(0, 6), "no room"),
        (Claim(2), "not ready"),
        (Claim(1), "got 1 at 1"),
        (Last, "had 1, takes change 4 in 10 steps"),
        (Claim(1), "not ready"),
        (State, "1 in, 1 out, 0 settled"),
        (Deposit(1), "reopened"),
        (State, "1 in, 0 out, 0 settled"),
        (Claim(1), "got 1 at 1"),
        (Last, "had 1, takes change 4 in 10 steps"),
        (Deposit(1), "settled"),
        (Feed(0, 6), "at 2"),
        // The edge into node 2 is full.
        (Claim(1), "not ready"),
        (ClaimNext, "got 2 at 1"),
        (Last, "had 3, takes change 5 in 10 steps"),
        (Deposit(2), "settled"),
        (Outputs, "change 7"),
        (State, "2 in, 0 out, 2 settled"),
        (ClaimNext, "got 1 at 2"),
        (Last, "had 5, takes change 6 in 10 steps"),
        // The other of the two turns at 1 comes too late. It frees the one at 2, which isn't out then.
        (Deposit(1), "reopened"),
        (State, "2 in, 0 out, 2 settled"),
        (Deposit(1), "reopened"),
        (Take(1), "change 7"),
        (Take(2), "change 9"),
        (ClaimNext, "not ready"),
        (Outputs, "change 7, change 9"),
        (Journal, "0 4, 0 6"),
        (State, "2 in, 0 out, 4 settled, at rest"),
    ];
    play_on(&rt, alloc, TWO_LIFTS, &NARROW, &mut held, &rows)
}

#[test]
fn a_full_journal_takes_no_event(rt: HostRuntime) -> Result<(), Fail> {
    let alloc = rt.alloc();
    let rows = [
        (State, "0 in, 0 out, 0 settled, at rest"),
        (Feed(0, 4), "at 1"),
        (Feed(0, 6), "full"),
        (Rest, "2 turns"),
        (Feed(0, 6), "full"),
        (State, "1 in, 0 out, 2 settled, at rest"),
    ];
    play(&rt, alloc, TWO_LIFTS, &SHORT, &rows)?;
    let rows = [
        (Feed(0, 1), "at 1"),
        (Take(1), "change 10"),
        (Enter(2), "full"),
        (Waiting(2), "10"),
    ];
    play(&rt, alloc, LATE_TENS, &SHORT, &rows)
}

#[test]
fn turns_are_handed_out_again(rt: HostRuntime) -> Result<(), Fail> {
    let alloc = rt.alloc();
    let rows = [
        (Feed(0, 4), "at 1"),
        (Claim(1), "got 1 at 1"),
        (ReopenAll, "0 out"),
        (State, "1 in, 0 out, 0 settled"),
        (Claim(1), "got 1 at 1"),
        (Last, "had 1, takes change 4 in 10 steps"),
        (Deposit(1), "settled"),
        // The other one of the two comes too late.
        (Deposit(1), "reopened"),
        (State, "1 in, 0 out, 1 settled"),
        (Take(2), "change 7"),
    ];
    play(&rt, alloc, TWO_LIFTS, &NARROW, &rows)
}

const DIAMOND: &str =
    "main = lift2 (\\p:int.\\q:int. p + q) (lift1 (\\n:int. n + 1) x) (lift1 (\\n:int. n * 2) x)";

#[test]
fn turns_come_back_in_any_order(rt: HostRuntime) -> Result<(), Fail> {
    let rows = [
        (Feed(0, 5), "at 1"),
        (Claim(1), "got 1 at 1"),
        (ClaimNext, "got 2 at 1"),
        (State, "1 in, 2 out, 0 settled"),
        (Deposit(2), "settled"),
        (Claim(3), "not ready"),
        (Feed(0, 6), "at 2"),
        // Node 2 goes on while node 1 is still at the first event.
        (ClaimNext, "got 2 at 2"),
        (Deposit(2), "settled"),
        (ClaimNext, "not ready"),
        (State, "2 in, 1 out, 2 settled"),
        (Deposit(1), "settled"),
        (Claim(3), "got 3 at 1"),
        (Last, "had 1, takes change 6, change 10 in 10 steps"),
        (ClaimNext, "got 1 at 2"),
        (Deposit(3), "settled"),
        (Claim(3), "not ready"),
        (Deposit(1), "settled"),
        (Claim(3), "got 3 at 2"),
        (Last, "had 16, takes change 7, change 12 in 10 steps"),
        (Deposit(3), "settled"),
        (Outputs, "change 16, change 19"),
        (State, "2 in, 0 out, 6 settled, at rest"),
    ];
    play(&rt, rt.alloc(), DIAMOND, &WIDE, &rows)
}

/// Node 1 is ten times the input, node 2 its async, node 3 the sum of input and async.
const LATE_TENS: &str =
    "main = lift2 (\\a:int.\\b:int. a + b) x (async (lift1 (\\n:int. n * 10) x))";

#[test]
fn changes_wait_and_come_in(rt: HostRuntime) -> Result<(), Fail> {
    let alloc = rt.alloc();
    let rows = [
        (Feed(0, 1), "at 1"),
        (Enter(2), "none waiting"),
        (Claim(0), "not ready"),
        (Claim(2), "not ready"),
        (Claim(1), "got 1 at 1"),
        (Waiting(2), "none"),
        (Deposit(1), "settled"),
        (Waiting(2), "10"),
        (Enter(2), "at 2"),
        (Waiting(2), "none"),
        (State, "2 in, 0 out, 1 settled"),
        (Take(1), "same 10"),
        (Waiting(2), "none"),
        (Claim(3), "got 3 at 1"),
        (Last, "had 0, takes change 1, same 0 in 10 steps"),
        (Deposit(3), "settled"),
        (Take(3), "change 11"),
        (Outputs, "change 1, change 11"),
        (Journal, "0 1, 2 10"),
        (State, "2 in, 0 out, 4 settled, at rest"),
    ];
    play(&rt, alloc, LATE_TENS, &WIDE, &rows)?;
    // An input's events needn't wait for those of an async.
    let rows = [
        (Feed(0, 1), "at 1"),
        (Feed(0, 2), "at 2"),
        (Take(1), "change 10"),
        (Take(1), "change 20"),
        (Waiting(2), "10"),
        (Enter(2), "at 3"),
        (Waiting(2), "20"),
        (Enter(2), "at 4"),
        (Enter(2), "none waiting"),
        (Rest, "6 turns"),
        (Outputs, "change 1, change 2, change 12, change 22"),
        (State, "4 in, 0 out, 8 settled, at rest"),
    ];
    play(&rt, alloc, LATE_TENS, &WIDE, &rows)?;
    // An event of an async needs room at every source.
    let rows = [
        (Feed(0, 1), "at 1"),
        (Take(1), "change 10"),
        (Enter(2), "no room"),
        (Waiting(2), "10"),
        (Take(3), "change 1"),
        (Enter(2), "at 2"),
        (Feed(0, 2), "no room"),
        (Rest, "2 turns"),
        (Feed(0, 2), "at 3"),
    ];
    play(&rt, alloc, LATE_TENS, &NARROW, &rows)
}

#[test]
fn each_async_has_its_own_queue(rt: HostRuntime) -> Result<(), Fail> {
    let rows = [
        (Feed(0, 4), "at 1"),
        (Waiting(2), "none"),
        (Take(1), "change 5"),
        (Waiting(2), "5"),
        (Waiting(3), "5"),
        (Feed(0, 6), "at 2"),
        (Take(1), "change 7"),
        (Enter(3), "at 3"),
        (Waiting(2), "5"),
        (Waiting(3), "7"),
        (Enter(3), "at 4"),
        (Enter(3), "none waiting"),
        (Enter(2), "at 5"),
        (Waiting(2), "7"),
        (Take(4), "same 0"),
        (Take(4), "same 0"),
        (Take(4), "change -4"),
        (Take(4), "change -6"),
        (Take(4), "change -2"),
        (Take(4), "not ready"),
        (State, "5 in, 0 out, 7 settled"),
        (Enter(2), "at 6"),
        (Rest, "5 turns"),
        (
            Outputs,
            "same 0, same 0, change -4, change -6, change -2, change 0",
        ),
        (Journal, "0 4, 0 6, 3 5, 3 7, 2 5, 2 7"),
        (State, "6 in, 0 out, 12 settled, at rest"),
    ];
    let program =
        "main = let s = lift1 (\\n:int. n + 1) x in lift2 (\\p:int.\\q:int. p - q) (async s) (async s)";
    play(&rt, rt.alloc(), program, &WIDE, &rows)
}

#[test]
fn changes_of_sources_wait_at_once(rt: HostRuntime) -> Result<(), Fail> {
    let alloc = rt.alloc();
    // An async of an async, which is shown. Nothing takes turns.
    let rows = [
        (Feed(0, 1), "at 1"),
        (Waiting(1), "1"),
        (Waiting(2), "none"),
        (Feed(0, 2), "at 2"),
        (Enter(1), "at 3"),
        (Waiting(1), "2"),
        (Waiting(2), "1"),
        (Enter(2), "at 4"),
        (Enter(1), "at 5"),
        (Enter(2), "at 6"),
        (Enter(2), "none waiting"),
        (Claim(2), "not ready"),
        (ClaimNext, "not ready"),
        (
            Outputs,
            "same 0, same 0, same 0, change 1, same 1, change 2",
        ),
        (Journal, "0 1, 0 2, 1 1, 2 1, 1 2, 2 2"),
        (State, "6 in, 0 out, 0 settled, at rest"),
    ];
    play(&rt, alloc, "main = async (async x)", &NARROW, &rows)?;
    // An async of an input.
    let rows = [
        (Feed(0, 3), "at 1"),
        (Waiting(1), "3"),
        (Enter(1), "no room"),
        (Take(2), "change 3"),
        (Enter(1), "at 2"),
        (Waiting(1), "none"),
        (Take(2), "change 6"),
        (State, "2 in, 0 out, 2 settled, at rest"),
    ];
    let program = "main = lift2 (\\p:int.\\q:int. p + q) x (async x)";
    play(&rt, alloc, program, &NARROW, &rows)?;
    // An async that nothing reads, beside an input that is shown.
    let rows = [
        (Feed(0, 4), "at 1"),
        (Outputs, "change 4"),
        (Waiting(1), "4"),
        (Enter(1), "at 2"),
        (Enter(1), "none waiting"),
        (Outputs, "change 4, same 4"),
        (State, "2 in, 0 out, 0 settled, at rest"),
    ];
    play(&rt, alloc, "main = let a = async x in x", &NARROW, &rows)
}

#[test]
fn a_node_reads_one_signal_twice(rt: HostRuntime) -> Result<(), Fail> {
    let alloc = rt.alloc();
    let rows = [
        (Feed(0, 4), "at 1"),
        (Take(1), "change 5"),
        (Claim(2), "got 2 at 1"),
        (Last, "had 1, takes change 5, change 5 in 10 steps"),
        (Feed(0, 6), "at 2"),
        // The messages that a turn takes leave their edges when it comes back.
        (Claim(1), "not ready"),
        (Deposit(2), "settled"),
        (Take(1), "change 7"),
        (Take(2), "change 49"),
        (Outputs, "change 25, change 49"),
    ];
    let program = "main = let s = lift1 (\\n:int. n + 1) x in lift2 (\\p:int.\\q:int. p * q) s s";
    play(&rt, alloc, program, &NARROW, &rows)?;
    let rows = [
        (Feed(0, 4), "at 1"),
        (Claim(1), "got 1 at 1"),
        (Last, "had 0, takes change 4, change 4 in 10 steps"),
        (Feed(0, 5), "no room"),
        (Deposit(1), "settled"),
        (Feed(0, 5), "at 2"),
        (State, "2 in, 0 out, 1 settled"),
    ];
    let program = "main = lift2 (\\p:int.\\q:int. p - q) x x";
    play(&rt, alloc, program, &NARROW, &rows)
}

#[test]
fn a_node_takes_a_turn_where_nothing_changes(rt: HostRuntime) -> Result<(), Fail> {
    let rows = [
        (Press(1), "at 1"),
        (Feed(0, 7), "at 2"),
        (Press(1), "at 3"),
        (Claim(2), "got 2 at 1"),
        (Last, "had 0, takes change () in 10 steps"),
        (Deposit(2), "settled"),
        (Claim(2), "got 2 at 2"),
        (Last, "had 1, takes same () in 10 steps"),
        (Deposit(2), "settled"),
        (Take(2), "change 2"),
        (Outputs, "change 1, same 1, change 2"),
        (Journal, "1 (), 0 7, 1 ()"),
    ];
    let program = "input click : unit = ()\nmain = foldp (\\u:unit.\\c:int. c + 1) 0 click";
    play(&rt, rt.alloc(), program, &WIDE, &rows)
}

#[test]
fn messages_carry_functions(rt: HostRuntime) -> Result<(), Fail> {
    let alloc = rt.alloc();
    let rows = [
        (Feed(0, 2), "at 1"),
        (Feed(0, 3), "at 2"),
        (Take(1), "change <fun>"),
        (Take(1), "change <fun>"),
        (Claim(2), "got 2 at 1"),
        (Last, "had 0, takes change <fun> in 10 steps"),
        (Deposit(2), "settled"),
        (Take(2), "change 5"),
        (Outputs, "change 2, change 5"),
    ];
    play(&rt, alloc, APPLIED, &WIDE, &rows)?;
    // A function waits at an async. At the first event its default is applied.
    let rows = [
        (Feed(0, 2), "at 1"),
        (Take(1), "change <fun>"),
        (Waiting(2), "<fun>"),
        (Enter(2), "at 2"),
        (Waiting(2), "none"),
        (Take(3), "change 2"),
        (Take(3), "change 4"),
        (Journal, "0 2, 2 <fun>"),
    ];
    let program =
        "main = lift2 (\\f:int->int.\\n:int. f n) (async (lift1 (\\n:int.\\s:int. s + n) x)) x";
    play(&rt, alloc, program, &WIDE, &rows)?;
    // An async of functions is shown.
    let rows = [
        (Feed(0, 2), "at 1"),
        (Take(1), "change <fun>"),
        (Enter(2), "at 2"),
        (Outputs, "same <fun>, change <fun>"),
        (Rest, "1 turns"),
    ];
    let program = "main = async (lift1 (\\n:int.\\s:int. s + n) x)";
    play(&rt, alloc, program, &WIDE, &rows)
}

#[test]
fn the_first_stop_stays(rt: HostRuntime) -> Result<(), Fail> {
    let alloc = rt.alloc();
    let rows = [
        (Feed(0, 1), "at 1"),
        (Claim(1), "got 1 at 1"),
        (Claim(2), "got 2 at 1"),
        (State, "1 in, 2 out, 0 settled"),
        (Deposit(2), "settled"),
        (State, "1 in, 1 out, 0 settled, 2 stopped at 1"),
        (Claim(2), "not ready"),
        (Deposit(1), "settled"),
        (State, "1 in, 0 out, 0 settled, 2 stopped at 1"),
        (ClaimNext, "not ready"),
        // Events still come in.
        (Feed(0, 0), "at 2"),
        (State, "2 in, 0 out, 0 settled, 2 stopped at 1"),
        (Outputs, ""),
    ];
    play(&rt, alloc, TWO_HEAVY, &WIDE, &rows)?;
    // A turn that was out at the stop is settled, and none is handed out any more.
    let rows = [
        (Feed(0, 0), "at 1"),
        (Feed(0, 1), "at 2"),
        (Take(1), "change 0"),
        (Claim(2), "got 2 at 1"),
        (Take(1), "over"),
        (State, "2 in, 1 out, 1 settled, 1 stopped at 2"),
        (Deposit(2), "settled"),
        (State, "2 in, 0 out, 2 settled, 1 stopped at 2"),
        (Claim(2), "not ready"),
        (Claim(3), "not ready"),
        (ReopenAll, "0 out"),
        (State, "2 in, 0 out, 2 settled, 1 stopped at 2"),
    ];
    play(&rt, alloc, TWO_HEAVY, &WIDE, &rows)?;
    // A step more is enough.
    let rows = [
        (Feed(0, 1), "at 1"),
        (Rest, "3 turns"),
        (Outputs, "change 18"),
        (State, "1 in, 0 out, 3 settled, at rest"),
    ];
    play(&rt, alloc, TWO_HEAVY, &LONG_TURNS, &rows)
}
