//! Graphs of programs, with the steps that stage one takes.
use super::texts::{X, fault_line, limits};
use crate::plan_of_texts;
use felm_printer::graph_text;
use std::alloc::Global;
use std::process::Abort;
use std::test::Fail;

/// A program, behind a head that all rows share; the steps that stage one takes; and the lines of the graph behind those of
/// the inputs.
type Row = (&'static str, u64, &'static str);

/// What all rows begin with: the program's declarations, their lines in the graph, and the name of an input.
type Head = (&'static str, &'static str, &'static str);

const NUMBER: Head = (X, "felm-graph 1\n0 input x : int = 0\n", "x");

const NUMBER_AND_CLICK: Head = (
    "input x : int = 0\ninput click : unit = ()\nmain = ",
    "felm-graph 1\n0 input x : int = 0\n1 input click : unit = ()\n",
    "x",
);

const PAGE: Head = (
    "input up : unit = ()\ninput down : unit = ()\ninput step : int = 1\nmain = ",
    "felm-graph 1\n0 input up : unit = ()\n1 input down : unit = ()\n2 input step : int = 1\n",
    "up",
);

/// Each row has its graph within its steps. Behind two lets that name an input, and so take a step each and make no node, it
/// has the same graph within two steps more, and none within one more.
fn are_staged(rt: &impl Abort, alloc: Global, head: Head, rows: &[Row]) -> Result<(), Fail> {
    let (declared, first, input) = head;
    for (rest, steps, lines) in rows {
        let graph = format!(in alloc; "{first}{lines}")?;
        let program = format!(in alloc; "{declared}{rest}")?;
        are_left(rt, alloc, program.as_str(), *steps, graph.as_str())?;
        let (less, more) = (steps.saturating_add(1), steps.saturating_add(2));
        let program = format!(in alloc; "{declared}let i = {input} in let i = {input} in {rest}")?;
        are_left(rt, alloc, program.as_str(), more, graph.as_str())?;
        let line = format!(in alloc; "felm: stage one takes more than {less} steps\n")?;
        are_left(rt, alloc, program.as_str(), less, line.as_str())?;
    }
    Ok(())
}

/// A program leaves this text within so many steps of stage one.
fn are_left(
    rt: &impl Abort,
    alloc: Global,
    program: &str,
    steps: u64,
    expected: &str,
) -> Result<(), Fail> {
    let text = graph_left(alloc, program, steps)?;
    assert!(rt;
        text.as_slice() == expected.as_bytes(),
        "{program}: {text:?}"
    );
    Ok(())
}

/// The text of the graph that a program has within so many steps of stage one, or the line of its fault.
fn graph_left(alloc: Global, program: &str, steps: u64) -> Result<Vec<u8>, Fail> {
    let limits = limits(steps, 1, 1);
    match plan_of_texts(alloc, program, "", &limits) {
        Ok(plan) => Ok(graph_text(alloc, &plan.graph)?),
        Err(status) => fault_line(alloc, &status, &limits),
    }
}

#[test]
fn a_signal_that_a_let_binds_is_one_node(rt: HostRuntime) -> Result<(), Fail> {
    are_staged(
        &rt,
        rt.alloc(),
        NUMBER_AND_CLICK,
        &[
            (
                "let a = async x in lift2 (\\p:int.\\q:int. p - q) a a",
                1,
                "2 async 0\n3 lift2 (\\v0:int. (\\v1:int. (v0 - v1))) 2 2\nmain 3\n",
            ),
            (
                "lift2 (\\p:int.\\q:int. p - q) (async x) (async x)",
                0,
                "2 async 0\n3 async 0\n4 lift2 (\\v0:int. (\\v1:int. (v0 - v1))) 2 3\nmain 4\n",
            ),
            ("let a = x in let b = a in b", 2, "main 0\n"),
            (
                "let a = x in lift2 (\\p:int.\\q:int. p - q) a (foldp (\\u:unit.\\c:int. c + 1) 0 click)",
                1,
                "2 foldp (\\v0:unit. (\\v1:int. (v1 + 1))) 0 1\n3 lift2 (\\v0:int. (\\v1:int. (v0 - v1))) 0 2\nmain 3\n",
            ),
            ("let a = async x in click", 1, "2 async 0\nmain 1\n"),
            (
                "let a = async x in let b = lift1 (\\n:int. n + 1) a in let c = lift2 (\\p:int.\\q:int. p - q) a b in lift2 (\\p:int.\\q:int. p - q) c a",
                3,
                "2 async 0\n3 lift1 (\\v0:int. (v0 + 1)) 2\n4 lift2 (\\v0:int. (\\v1:int. (v0 - v1))) 2 3\n5 lift2 (\\v0:int. (\\v1:int. (v0 - v1))) 4 2\nmain 5\n",
            ),
            (
                "let a = (let b = async x in lift2 (\\p:int.\\q:int. p - q) b b) in lift2 (\\p:int.\\q:int. p - q) a a",
                2,
                "2 async 0\n3 lift2 (\\v0:int. (\\v1:int. (v0 - v1))) 2 2\n4 lift2 (\\v0:int. (\\v1:int. (v0 - v1))) 3 3\nmain 4\n",
            ),
            (
                "let a = async x in let a = lift1 (\\n:int. n + 1) a in a",
                2,
                "2 async 0\n3 lift1 (\\v0:int. (v0 + 1)) 2\nmain 3\n",
            ),
            (
                "let a = async x in (\\a:signal int. lift1 (\\n:int. n + 1) a) x",
                3,
                "2 async 0\n3 lift1 (\\v0:int. (v0 + 1)) 0\nmain 3\n",
            ),
        ],
    )
}

#[test]
fn signals_inside_of_signals_are_shared_first(rt: HostRuntime) -> Result<(), Fail> {
    are_staged(
        &rt,
        rt.alloc(),
        NUMBER_AND_CLICK,
        &[
            (
                "lift2 (\\p:int.\\q:int. p - q) (let a = async x in lift2 (\\p:int.\\q:int. p - q) a a) (async x)",
                1,
                "2 async 0\n3 lift2 (\\v0:int. (\\v1:int. (v0 - v1))) 2 2\n4 async 0\n5 lift2 (\\v0:int. (\\v1:int. (v0 - v1))) 3 4\nmain 5\n",
            ),
            (
                "lift2 (\\p:int.\\q:int. p - q) (async x) (let a = async x in a)",
                1,
                "2 async 0\n3 async 0\n4 lift2 (\\v0:int. (\\v1:int. (v0 - v1))) 3 2\nmain 4\n",
            ),
            (
                "async (foldp (\\p:int.\\q:int. p - q) 0 (let a = x in async a))",
                1,
                "2 async 0\n3 foldp (\\v0:int. (\\v1:int. (v0 - v1))) 0 2\n4 async 3\nmain 4\n",
            ),
        ],
    )
}

#[test]
fn functions_and_conditions_are_reduced(rt: HostRuntime) -> Result<(), Fail> {
    are_staged(
        &rt,
        rt.alloc(),
        NUMBER_AND_CLICK,
        &[
            (
                "(\\s:signal int. let t = lift1 (\\n:int. n + 1) s in lift2 (\\p:int.\\q:int. p - q) s t) (async x)",
                3,
                "2 async 0\n3 lift1 (\\v0:int. (v0 + 1)) 2\n4 lift2 (\\v0:int. (\\v1:int. (v0 - v1))) 2 3\nmain 4\n",
            ),
            (
                "let f = \\s:signal int. lift1 (\\n:int. n + 1) s in f (f x)",
                5,
                "2 lift1 (\\v0:int. (v0 + 1)) 0\n3 lift1 (\\v0:int. (v0 + 1)) 2\nmain 3\n",
            ),
            (
                "(\\k:int. lift1 (\\n:int. n - k) x) (1 + 2)",
                3,
                "2 lift1 (\\v0:int. (v0 - 3)) 0\nmain 2\n",
            ),
            ("if 1 - 1 then x else async x", 2, "2 async 0\nmain 2\n"),
            (
                "(if 2 then \\s:signal int. lift1 (\\n:int. n + 1) s else \\s:signal int. async s) x",
                3,
                "2 lift1 (\\v0:int. (v0 + 1)) 0\nmain 2\n",
            ),
            (
                "lift1 ((\\k:int.\\n:int. n - k) (1 + 2)) x",
                3,
                "2 lift1 (\\v0:int. (v0 - 3)) 0\nmain 2\n",
            ),
            (
                "foldp (if 1 then (\\p:int.\\q:int. p - q) else (\\p:int.\\q:int. p - q)) (let n = 2 in n + n) x",
                3,
                "2 foldp (\\v0:int. (\\v1:int. (v0 - v1))) 4 0\nmain 2\n",
            ),
            (
                "lift2 (\\f:int->int.\\n:int. f n) (lift1 (\\p:int.\\q:int. p - q) x) x",
                0,
                "2 lift1 (\\v0:int. (\\v1:int. (v0 - v1))) 0\n3 lift2 (\\v0:int -> int. (\\v1:int. (v0 v1))) 2 0\nmain 3\n",
            ),
        ],
    )
}

#[test]
fn arguments_come_first_and_from_the_left(rt: HostRuntime) -> Result<(), Fail> {
    are_staged(
        &rt,
        rt.alloc(),
        NUMBER,
        &[
            (
                "let a = async x in lift2 (\\p:int.\\q:int. p + q) a a",
                1,
                "1 async 0\n2 lift2 (\\v0:int. (\\v1:int. (v0 + v1))) 1 1\nmain 2\n",
            ),
            (
                "lift2 (\\p:int.\\q:int. p + q) (async x) (async x)",
                0,
                "1 async 0\n2 async 0\n3 lift2 (\\v0:int. (\\v1:int. (v0 + v1))) 1 2\nmain 3\n",
            ),
            ("let a = x in let b = a in b", 2, "main 0\n"),
            ("let a = x in a", 1, "main 0\n"),
            ("let a = async x in x", 1, "1 async 0\nmain 0\n"),
            (
                "let a = x in let b = lift1 (\\n:int. n + 1) a in let c = lift1 (\\n:int. n + 1) b in b",
                3,
                "1 lift1 (\\v0:int. (v0 + 1)) 0\n2 lift1 (\\v0:int. (v0 + 1)) 1\nmain 1\n",
            ),
            (
                "lift2 (\\p:int.\\q:int. p + q) (lift2 (\\p:int.\\q:int. p + q) x (async x)) (lift1 (\\n:int. n + 1) (async x))",
                0,
                "1 async 0\n2 lift2 (\\v0:int. (\\v1:int. (v0 + v1))) 0 1\n3 async 0\n4 lift1 (\\v0:int. (v0 + 1)) 3\n5 lift2 (\\v0:int. (\\v1:int. (v0 + v1))) 2 4\nmain 5\n",
            ),
            (
                "lift2 (\\a:int.\\b:int. a + b) x (async (lift1 (\\n:int. n * 10) x))",
                0,
                "1 lift1 (\\v0:int. (v0 * 10)) 0\n2 async 1\n3 lift2 (\\v0:int. (\\v1:int. (v0 + v1))) 0 2\nmain 3\n",
            ),
        ],
    )
}

#[test]
fn each_input_has_its_node(rt: HostRuntime) -> Result<(), Fail> {
    are_staged(
        &rt,
        rt.alloc(),
        PAGE,
        &[
            (
                "lift2 (\\p:int.\\q:int. p + q) (lift1 (\\n:int. n + 1) step) (foldp (\\u:unit.\\c:int. c + 1) 0 down)",
                0,
                "3 lift1 (\\v0:int. (v0 + 1)) 2\n4 foldp (\\v0:unit. (\\v1:int. (v1 + 1))) 0 1\n5 lift2 (\\v0:int. (\\v1:int. (v0 + v1))) 3 4\nmain 5\n",
            ),
            (
                "let size = lift1 (\\n:int. n + 1) step in let ups = foldp (\\u:unit.\\c:int. c + 1) 0 up in let downs = foldp (\\u:unit.\\c:int. c + 1) 0 down in let slow = async (lift2 (\\p:int.\\q:int. p + q) ups downs) in lift2 (\\p:int.\\q:int. p + q) slow size",
                4,
                "3 lift1 (\\v0:int. (v0 + 1)) 2\n4 foldp (\\v0:unit. (\\v1:int. (v1 + 1))) 0 0\n5 foldp (\\v0:unit. (\\v1:int. (v1 + 1))) 0 1\n6 lift2 (\\v0:int. (\\v1:int. (v0 + v1))) 4 5\n7 async 6\n8 lift2 (\\v0:int. (\\v1:int. (v0 + v1))) 7 3\nmain 8\n",
            ),
            ("up", 0, "main 0\n"),
        ],
    )
}

#[test]
fn defaults_are_values_and_bases_are_terms(rt: HostRuntime) -> Result<(), Fail> {
    let alloc = rt.alloc();
    let rows = [
        (
            "input x : int = -7\nmain = foldp (\\p:int.\\q:int. p - q) (-3) x",
            "felm-graph 1\n0 input x : int = -7\n1 foldp (\\v0:int. (\\v1:int. (v0 - v1))) (-3) 0\nmain 1\n",
        ),
        (
            "input click : unit = ()\ninput x : int = 0\nmain = foldp (\\u:unit.\\c:int. c + 1) 0 click",
            "felm-graph 1\n0 input click : unit = ()\n1 input x : int = 0\n2 foldp (\\v0:unit. (\\v1:int. (v1 + 1))) 0 0\nmain 2\n",
        ),
    ];
    for (program, graph) in rows {
        are_left(&rt, alloc, program, 1, graph)?;
    }
    Ok(())
}

/// The signs of the operators.
const SIGNS: [&str; 13] = [
    "+", "-", "*", "//", "%", "==", "/=", "<", "<=", ">", ">=", "&&", "||",
];

#[test]
fn each_operator_has_its_sign(rt: HostRuntime) -> Result<(), Fail> {
    let alloc = rt.alloc();
    for sign in SIGNS {
        let program = format!(in alloc; "{X}lift1 (\\n:int. 1 {sign} 2) x")?;
        let graph = format!(in alloc;
            "felm-graph 1\n0 input x : int = 0\n1 lift1 (\\v0:int. (1 {sign} 2)) 0\nmain 1\n"
        )?;
        are_left(&rt, alloc, program.as_str(), 1, graph.as_str())?;
    }
    Ok(())
}

/// An expression in which `f1` lifts a signal once, and each of the functions up to `f` with this number
/// does twice what the one before it does, and stands between these texts; and then comes the rest.
fn doubling(
    alloc: Global,
    last: u8,
    before: &str,
    after: &str,
    rest: &str,
) -> Result<String, Fail> {
    let mut text = format!(in alloc; "{X}let f1 = \\s:signal int. lift1 (\\n:int. n + 1) s in\n")?;
    for number in 2..=last {
        let prior = number - 1;
        let line = format!(in alloc;
            "let f{number} = \\s:signal int. {before}f{prior} (f{prior} s){after} in\n"
        )?;
        text.push_str(line.as_str())?;
    }
    text.push_str(rest)?;
    Ok(text)
}

#[test]
fn thousands_of_nodes_are_staged(rt: HostRuntime) -> Result<(), Fail> {
    let alloc = rt.alloc();
    // 14 lets, and an application and a share for each of 2^14 - 1 calls
    let program = doubling(alloc, 14, "", "", "f14 x")?;
    let text = graph_left(alloc, program.as_str(), 32_780)?;
    let last = b"\n8192 lift1 (\\v0:int. (v0 + 1)) 8191\nmain 8192\n";
    assert!(&rt; text.as_slice().ends_with(last));
    let line = "felm: stage one takes more than 32779 steps\n";
    are_left(&rt, alloc, program.as_str(), 32_779, line)
}

#[test]
fn a_graph_has_at_most_so_many_nodes(rt: HostRuntime) -> Result<(), Fail> {
    let alloc = rt.alloc();
    let (before, after) = ("lift1 (\\n:int. n + 1) (", ")");
    let program = doubling(alloc, 14, before, after, "f14 x")?;
    let text = graph_left(alloc, program.as_str(), 32_780)?;
    let last = b"\n16383 lift1 (\\v0:int. (v0 + 1)) 16382\nmain 16383\n";
    assert!(&rt; text.as_slice().ends_with(last));
    let large = "felm: the graph has more than 16384 nodes\n";
    let program = doubling(alloc, 14, before, after, "async (f14 x)")?;
    are_left(&rt, alloc, program.as_str(), 32_780, large)?;
    // 15 lets and 2^15 - 1 calls, for 16,385 nodes
    let program = doubling(alloc, 15, "", "", "f15 x")?;
    are_left(&rt, alloc, program.as_str(), 65_549, large)
}
