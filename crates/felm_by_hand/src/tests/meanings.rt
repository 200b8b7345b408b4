//! Defaults, and the parts of plans.
use super::texts::limits;
use crate::plan_of_texts;
use felm_graph::is_source;
use felm_meaning::{Job, Plan, Preset, defaults, job_of, same_plan};
use felm_printer::{Status, term_text};
use felm_term::Value;
use std::alloc::Global;
use std::test::Fail;

const TWO_LIFTS: &str =
    "input x : int = 0\nmain = lift1 (\\n:int. n + 2) (lift1 (\\n:int. n + 1) x)\n";

/// The plan of a program, with so many steps a turn.
fn plan(alloc: Global, program: &str, turn_steps: u64) -> Result<Plan, Status> {
    plan_of_texts(alloc, program, "x 4\nx 6\n", &limits(10, turn_steps, 10))
}

#[test]
fn defaults_are_those_of_the_program(rt: HostRuntime) -> Result<(), Fail> {
    let alloc = rt.alloc();
    let rows = [
        (TWO_LIFTS, 10, "0 1 3 "),
        (TWO_LIFTS, 2, "over 1"),
        // An async begins as its signal, and a foldp with its base.
        (
            "input x : int = 7\nmain = lift2 (\\a:int.\\b:int. a - b) x (async (lift1 (\\n:int. n + 1) x))\n",
            10,
            "7 8 8 -1 ",
        ),
        (
            "input x : int = 2\nmain = foldp (\\a:int.\\b:int. a - b) 5 x\n",
            1,
            "2 5 ",
        ),
    ];
    for (program, turn_steps, expected) in rows {
        let plan = plan(alloc, program, turn_steps)?;
        assert_eq!(&rt; told(alloc, &defaults(alloc, &plan)?)?.as_str(), expected);
    }
    Ok(())
}

fn told(alloc: Global, preset: &Preset) -> Result<String, Fail> {
    match preset {
        Preset::Over { node } => Ok(format!(in alloc; "over {node}")?),
        Preset::All(values) => {
            let mut text = String::new(alloc);
            for value in values.as_slice() {
                text.push_str(format!(in alloc; "{value} ")?.as_str())?;
            }
            Ok(text)
        }
    }
}

#[test]
fn a_copy_is_the_same_plan(rt: HostRuntime) -> Result<(), Fail> {
    let alloc = rt.alloc();
    let one = plan(alloc, TWO_LIFTS, 10)?;
    let copy = one.copy(alloc)?;
    assert!(&rt; same_plan(&one, &copy));
    let other = plan(alloc, TWO_LIFTS, 9)?;
    assert!(&rt; !same_plan(&one, &other));
    Ok(())
}

#[test]
fn a_lift_has_its_job(rt: HostRuntime) -> Result<(), Fail> {
    let alloc = rt.alloc();
    let plan = plan(alloc, TWO_LIFTS, 10)?;
    let graph = &plan.graph;
    assert!(&rt; graph.nodes().len() == 3 && !is_source(graph, 1));
    match job_of(graph, 1)? {
        Job::Lift {
            function: Value::Fun(function),
        } => {
            let text = term_text(alloc, function.as_term())?;
            assert_eq!(&rt; text.as_slice(), b"(\\v0:int. (v0 + 1))".as_slice());
        }
        _ => panic!(&rt; "no lift"),
    }
    Ok(())
}
