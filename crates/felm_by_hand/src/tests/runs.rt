//! Runs on one thread.
use super::texts::{X, leave, left, limits};
use std::alloc::Global;
use std::process::Abort;
use std::test::Fail;

#[test]
fn an_input_is_shown(rt: HostRuntime) -> Result<(), Fail> {
    leave(
        &rt,
        rt.alloc(),
        "",
        &[
            (
                "input x : int = 0\nmain = x\n",
                "x 5\nx 5\n",
                "felm-result 1\n0 default 0\n1 x 5 change 5\n2 x 5 change 5\nend 2\n",
            ),
            (
                "input x : int = 0\nmain = x\n",
                "",
                "felm-result 1\n0 default 0\nend 0\n",
            ),
            (
                "input x : int = 0\ninput y : int = 7\nmain = y\n",
                "x 1\ny 2\nx 3\ny 2\n",
                "felm-result 1\n0 default 7\n1 x 1 same 7\n2 y 2 change 2\n3 x 3 same 2\n4 y 2 change 2\nend 4\n",
            ),
            (
                "-- one input\n  input\t_a1: int =-007 --\r\n\n main= _a1",
                " \n_a1  -9223372036854775808\n\n_a1 9223372036854775807",
                "felm-result 1\n0 default -7\n1 _a1 -9223372036854775808 change -9223372036854775808\n2 _a1 9223372036854775807 change 9223372036854775807\nend 2\n",
            ),
            (
                "input lift : int = 3\nmain = lift\n",
                "lift 0\n",
                "felm-result 1\n0 default 3\n1 lift 0 change 0\nend 1\n",
            ),
            (
                "input u : unit = ()\nmain = u\n",
                "u\nu ()\n",
                "felm-result 1\n0 default ()\n1 u () change ()\n2 u () change ()\nend 2\n",
            ),
        ],
    )
}

#[test]
fn signals_are_lifted_and_folded(rt: HostRuntime) -> Result<(), Fail> {
    leave(
        &rt,
        rt.alloc(),
        "",
        &[
            (
                "input click : unit = ()\ninput x : int = 0\nmain = foldp (\\u:unit.\\c:int. c + 1) 0 click\n",
                "click\nx 7\nclick ()\n",
                "felm-result 1\n0 default 0\n1 click () change 1\n2 x 7 same 1\n3 click () change 2\nend 3\n",
            ),
            (
                "input x : int = 10\ninput y : int = 20\nmain = lift2 (\\a:int.\\b:int. a + b) x y\n",
                "x 1\ny 2\n",
                "felm-result 1\n0 default 30\n1 x 1 change 21\n2 y 2 change 3\nend 2\n",
            ),
            // Quotients are taken at both ends.
            (
                "input x : int = 1\nmain = lift1 (\\n:int. -9223372036854775808 // n) x\n",
                "x -1\nx 0\n",
                "felm-result 1\n0 default -9223372036854775808\n1 x -1 change -9223372036854775808\n2 x 0 change 0\nend 2\n",
            ),
        ],
    )
}

#[test]
fn one_input_goes_through_each_form(rt: HostRuntime) -> Result<(), Fail> {
    leave(
        &rt,
        rt.alloc(),
        X,
        &[
            // A change is sent even where the value stays.
            (
                "lift1 (\\n:int. n * 0) x",
                "x 1\nx 2\n",
                "felm-result 1\n0 default 0\n1 x 1 change 0\n2 x 2 change 0\nend 2\n",
            ),
            // Sums wrap.
            (
                "lift1 (\\n:int. 9223372036854775807 + n) x",
                "x 1\n",
                "felm-result 1\n0 default 9223372036854775807\n1 x 1 change -9223372036854775808\nend 1\n",
            ),
            // Functions flow as values.
            (
                "foldp (\\f:int->int.\\s:int. f s) 0 (lift1 (\\n:int.\\s:int. s + n) x)",
                "x 2\nx 3\n",
                "felm-result 1\n0 default 0\n1 x 2 change 2\n2 x 3 change 5\nend 2\n",
            ),
            (
                "foldp (\\f:int->int.\\s:int. f s) 0 (lift1 (\\n:int.\\s:int. s + n) x)",
                "x 1\nx 2\n",
                "felm-result 1\n0 default 0\n1 x 1 change 1\n2 x 2 change 3\nend 2\n",
            ),
            (
                "lift1 (\\n:int.\\s:int. s + n) x",
                "x 2\n",
                "felm-result 1\n0 default <fun>\n1 x 2 change <fun>\nend 1\n",
            ),
            (
                "async (lift1 (\\n:int.\\s:int. s + n) x)",
                "x 1\nx 2\n",
                "felm-result 1\n0 default <fun>\n1 x 1 same <fun>\n2 @0 <fun> change <fun>\n3 x 2 same <fun>\n4 @0 <fun> change <fun>\nend 4\n",
            ),
        ],
    )
}

#[test]
fn changes_of_asyncs_are_events(rt: HostRuntime) -> Result<(), Fail> {
    leave(
        &rt,
        rt.alloc(),
        X,
        &[
            // A waiting change enters before the script's next event.
            (
                "lift2 (\\a:int.\\b:int. a + b) x (async (lift1 (\\n:int. n * 10) x))",
                "x 1\n",
                "felm-result 1\n0 default 0\n1 x 1 change 1\n2 @0 10 change 11\nend 2\n",
            ),
            (
                "lift2 (\\a:int.\\b:int. a + b) x (async (lift1 (\\n:int. n * 10) x))",
                "x 1\nx 2\n",
                "felm-result 1\n0 default 0\n1 x 1 change 1\n2 @0 10 change 11\n3 x 2 change 12\n4 @0 20 change 22\nend 4\n",
            ),
            // An async that a let binds is one source; of two the lower one enters first.
            (
                "let a = async x in lift2 (\\p:int.\\q:int. p + q) a a",
                "x 3\n",
                "felm-result 1\n0 default 0\n1 x 3 same 0\n2 @0 3 change 6\nend 2\n",
            ),
            (
                "lift2 (\\p:int.\\q:int. p + q) (async x) (async x)",
                "x 3\n",
                "felm-result 1\n0 default 0\n1 x 3 same 0\n2 @0 3 change 3\n3 @1 3 change 6\nend 3\n",
            ),
            // The changes of one signal enter in order.
            (
                "let s = lift2 (\\a:int.\\b:int. a + b) x (async x) in async s",
                "x 1\n",
                "felm-result 1\n0 default 0\n1 x 1 same 0\n2 @0 1 same 0\n3 @1 1 change 1\n4 @1 2 change 2\nend 4\n",
            ),
            // An async may wait on an async.
            (
                "async (async x)",
                "x 1\nx 2\n",
                "felm-result 1\n0 default 0\n1 x 1 same 0\n2 @0 1 same 0\n3 @1 1 change 1\n4 x 2 same 1\n5 @0 2 same 1\n6 @1 2 change 2\nend 6\n",
            ),
            // An async that nothing reads has its events all the same.
            (
                "let a = async x in x",
                "x 4\n",
                "felm-result 1\n0 default 0\n1 x 4 change 4\n2 @0 4 same 4\nend 2\n",
            ),
        ],
    )
}

/// A counter page: two buttons, a step field, and a count that follows late.
const COUNTER: &str = "-- A counter page: two buttons and a step field.\n\
input up : unit = ()\n\
input down : unit = ()\n\
input step : int = 1\n\
\n\
main =\n  \
let size = lift1 (\\n:int. if n < 1 then 1 else n) step in\n  \
let ups = foldp (\\u:unit.\\c:int. c + 1) 0 up in\n  \
let downs = foldp (\\u:unit.\\c:int. c + 1) 0 down in\n  \
let slow = async (lift2 (\\a:int.\\b:int. a - b) ups downs) in\n  \
lift2 (\\c:int.\\k:int. c * k) slow size\n";

#[test]
fn a_counter_page(rt: HostRuntime) -> Result<(), Fail> {
    leave(
        &rt,
        rt.alloc(),
        COUNTER,
        &[(
            "",
            "up\nup\nstep 5\ndown\nup\nstep 0\ndown\ndown\nup\nstep 2\n",
            "felm-result 1\n0 default 0\n1 up () same 0\n2 @0 1 change 1\n3 up () same 1\n4 @0 2 change 2\n5 step 5 change 10\n6 down () same 10\n7 @0 1 change 5\n8 up () same 5\n9 @0 2 change 10\n10 step 0 change 2\n11 down () same 2\n12 @0 1 change 1\n13 down () same 1\n14 @0 0 change 0\n15 up () same 0\n16 @0 1 change 1\n17 step 2 change 2\nend 17\n",
        )],
    )
}

/// A program behind the head of `x`, a script, the steps that a turn may take, the events that a journal may have, and what
/// they leave.
type Limited = (&'static str, &'static str, u64, u64, &'static str);

fn leave_within(rt: &impl Abort, alloc: Global, rows: &[Limited]) -> Result<(), Fail> {
    for (rest, script, turn_steps, journal, text) in rows {
        let program = format!(in alloc; "{X}{rest}")?;
        let limits = limits(10, *turn_steps, *journal);
        let left = left(rt, alloc, program.as_str(), script, &limits)?;
        assert!(rt; left.as_slice() == text.as_bytes(), "{program}: {left:?}");
    }
    Ok(())
}

#[test]
fn a_run_stops_where_a_turn_is_over_budget(rt: HostRuntime) -> Result<(), Fail> {
    leave_within(
        &rt,
        rt.alloc(),
        &[
            (
                "lift1 (\\n:int. n + 1) x",
                "x 0\n",
                2,
                9,
                "felm-stopped 1\nstopped 1 0\n",
            ),
            (
                "lift1 (\\n:int. n + 1) x",
                "x 0\n",
                3,
                9,
                "felm-result 1\n0 default 1\n1 x 0 change 1\nend 1\n",
            ),
            (
                "lift1 (\\n:int. n + 1) x",
                "x 5\n",
                3,
                9,
                "felm-result 1\n0 default 1\n1 x 5 change 6\nend 1\n",
            ),
            (
                "lift1 (\\n:int. if n then n + 1 else 0) (lift1 (\\n:int. if n then n + 1 else 0) x)",
                "x 1\nx 1\n",
                3,
                9,
                "felm-stopped 1\n1 x 1\nstopped 1 1\n",
            ),
            (
                "lift1 (\\n:int. if n then n + 1 else 0) (lift1 (\\n:int. if n then n + 1 else 0) x)",
                "x 0\nx 1\n",
                3,
                9,
                "felm-stopped 1\n1 x 0\n2 x 1\nstopped 1 2\n",
            ),
            (
                "lift1 (\\n:int. if n then n + 1 else 0) (lift1 (\\n:int. if n then n + 1 else 0) x)",
                "x 0\nx 0\n",
                3,
                9,
                "felm-result 1\n0 default 0\n1 x 0 change 0\n2 x 0 change 0\nend 2\n",
            ),
            // At the change of an async, behind the event that made it.
            (
                "lift1 (\\n:int. if n then n + 1 else 0) (async x)",
                "x 1\nx 2\n",
                3,
                9,
                "felm-stopped 1\n1 x 1\n2 @0 1\nstopped 2 2\n",
            ),
        ],
    )
}

#[test]
fn a_journal_has_a_limit(rt: HostRuntime) -> Result<(), Fail> {
    leave_within(
        &rt,
        rt.alloc(),
        &[
            (
                "x",
                "x 1\nx 2\n",
                10,
                1,
                "felm-result 1\n0 default 0\n1 x 1 change 1\nfull 1\n",
            ),
            (
                "x",
                "x 1\nx 2\n",
                10,
                2,
                "felm-result 1\n0 default 0\n1 x 1 change 1\n2 x 2 change 2\nend 2\n",
            ),
            (
                "x",
                "x 1\nx 2\n",
                10,
                3,
                "felm-result 1\n0 default 0\n1 x 1 change 1\n2 x 2 change 2\nend 2\n",
            ),
            (
                "lift2 (\\a:int.\\b:int. a + b) x (async (lift1 (\\n:int. n * 10) x))",
                "x 1\nx 2\n",
                10,
                9,
                "felm-result 1\n0 default 0\n1 x 1 change 1\n2 @0 10 change 11\n3 x 2 change 12\n4 @0 20 change 22\nend 4\n",
            ),
            (
                "lift2 (\\a:int.\\b:int. a + b) x (async (lift1 (\\n:int. n * 10) x))",
                "x 1\nx 2\n",
                10,
                3,
                "felm-result 1\n0 default 0\n1 x 1 change 1\n2 @0 10 change 11\n3 x 2 change 12\nfull 3\n",
            ),
            (
                "lift2 (\\a:int.\\b:int. a + b) x (async (lift1 (\\n:int. n * 10) x))",
                "x 1\nx 2\n",
                10,
                1,
                "felm-result 1\n0 default 0\n1 x 1 change 1\nfull 1\n",
            ),
        ],
    )
}
