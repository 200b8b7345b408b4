//! What nodes read, and the types of their values.
use super::texts::limits;
use crate::plan_of_texts;
use felm_graph::{Graph, arguments_of, async_number, is_source};
use felm_term::{Ty, TyForm};
use std::alloc::Global;
use std::test::Fail;

/// A page that counts clicks up and down in steps.
const PAGE: &str = "input up : unit = ()\ninput down : unit = ()\ninput step : int = 1\nmain =\n\
    let size = lift1 (\\n:int. n + 1) step in\n\
    let ups = foldp (\\u:unit.\\c:int. c + 1) 0 up in\n\
    let downs = foldp (\\u:unit.\\c:int. c + 1) 0 down in\n\
    let slow = async (lift2 (\\p:int.\\q:int. p + q) ups downs) in\n\
    lift2 (\\p:int.\\q:int. p + q) slow size";

#[test]
fn nodes_have_their_types_and_say_what_they_read(rt: HostRuntime) -> Result<(), Fail> {
    let alloc = rt.alloc();
    // Each node by the type of its values and the nodes that it reads, or its number among the asyncs.
    let rows = [
        (
            PAGE,
            "unit input; unit input; int input; int 2; int 0; int 1; int 4 5; int @0; int 7 3; ",
        ),
        (
            "input x : int = 0\nmain = lift2 (\\p:int.\\q:int. p + q) (async (async x)) (async x)",
            "int input; int @0; int @1; int @2; int 2 3; ",
        ),
        (
            "input x : int = 0\nmain = foldp (\\f:int->int.\\s:int. f s) 0 (async (lift1 (\\p:int.\\q:int. p + q) x))",
            "int input; int -> int 0; int -> int @0; int 2; ",
        ),
        (
            "input x : int = 0\nmain = lift2 (\\f:int->int.\\n:int. f n) (lift1 (\\p:int.\\q:int. p - q) x) x",
            "int input; int -> int 0; int 1 0; ",
        ),
        (
            "input up : unit = ()\ninput down : unit = ()\ninput step : int = 1\nmain = up",
            "unit input; unit input; int input; ",
        ),
    ];
    for (program, nodes) in rows {
        let plan = plan_of_texts(alloc, program, "", &limits(10, 1, 1))?;
        assert_eq!(&rt; told(alloc, &plan.graph)?.as_str(), nodes);
    }
    Ok(())
}

fn told(alloc: Global, graph: &Graph) -> Result<String, Fail> {
    let mut text = String::new(alloc);
    for node in 0..9u32 {
        if (node as usize) < graph.nodes().len() {
            text.push_str(type_text(&graph.nodes()[node as usize].ty))?;
            text.push_str(reads_text(alloc, graph, node)?.as_str())?;
            text.push_str("; ")?;
        }
    }
    Ok(text)
}

fn type_text(ty: &Ty) -> &'static str {
    match &ty.form {
        TyForm::Unit => "unit",
        TyForm::Int => "int",
        TyForm::Arrow { from, to } if is_int(from) && is_int(to) => "int -> int",
        _ => "other",
    }
}

fn is_int(ty: &Ty) -> bool {
    matches!(&ty.form, TyForm::Int)
}

fn reads_text(alloc: Global, graph: &Graph, node: u32) -> Result<String, Fail> {
    if (node as usize) >= graph.nodes().len() {
        return Ok(String::new(alloc));
    }
    if is_source(graph, node) {
        return match async_number(graph, node) {
            Some(number) => Ok(format!(in alloc; " @{number}")?),
            None => Ok(String::from_str(alloc, " input")?),
        };
    }
    let arguments = arguments_of(graph, node);
    let mut text = String::new(alloc);
    for place in 0..arguments.len() {
        let argument = arguments.at(place);
        text.push_str(format!(in alloc; " {argument}")?.as_str())?;
    }
    Ok(text)
}
