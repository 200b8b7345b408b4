//! What two texts come to, as text.
ghost use Rattle.std.specs.Prelude.{◌≡◌, IsTrue};
ghost use Rattle.felm_graph.specs.Nodes.{is_source, is_source_kind};
ghost use Rattle.felm_printer.specs.Results.{NamesSources};

use crate::plan_of_texts;
use felm_graph::{Graph, Node, NodeKind};
use felm_io::SureSink;
use felm_meaning::{History, Plan, RunEnd};
use felm_plain::plain_run;
use felm_printer::{Closing, Status, put_fault, result_text, stopped_text};
use felm_term::{Event, Limits, Memory};
use std::alloc::Global;
use std::process::Abort;
use std::test::Fail;

/// The beginning of a program whose one input `x` is a number.
pub const X: &str = "input x : int = 0\nmain = ";

/// The text of a program, behind a head that all rows share, the text of a script, and what they leave.
pub type Row = (&'static str, &'static str, &'static str);

/// Limits with so many steps for stage one and for a turn, and so many events.
pub fn limits(stage_steps: u64, turn_steps: u64, journal: u64) -> Limits {
    Limits {
        workers: 2,
        turn_steps: turn_steps.max(1).min(10_000),
        stage_steps: stage_steps.max(1).min(100_000),
        edge: 16,
        journal: journal.max(1).min(1_048_576),
    }
}

/// Each row leaves its text, within the limits of a command that names none.
pub fn leave(rt: &impl Abort, alloc: Global, head: &str, rows: &[Row]) -> Result<(), Fail> {
    for (rest, script, text) in rows {
        let program = format!(in alloc; "{head}{rest}")?;
        let left = left(rt, alloc, program.as_str(), script, &Limits::DEFAULT)?;
        assert!(rt; left.as_slice() == text.as_bytes(), "{program}: {left:?}");
    }
    Ok(())
}

/// What a program and a script leave: the text of their run on one thread, or the line of their fault.
pub fn left(
    rt: &impl Abort,
    alloc: Global,
    program: &str,
    script: &str,
    limits: &Limits,
) -> Result<Vec<u8>, Fail> {
    match plan_of_texts(alloc, program, script, limits) {
        Ok(plan) => Ok(end_text(rt, alloc, &plan, &plain_run(alloc, &plan)?)?),
        Err(status) => fault_line(alloc, &status, limits),
    }
}

/// The line of a fault.
pub fn fault_line(alloc: Global, status: &Status, limits: &Limits) -> Result<Vec<u8>, Fail> {
    let mut line = SureSink::make(alloc);
    put_fault(status, "", limits, &mut line)?;
    Ok(Vec::from_slice(alloc, line.bytes())?)
}

/// The text of the end of a plan's run.
pub fn end_text(
    rt: &impl Abort,
    alloc: Global,
    plan: &Plan,
    end: &RunEnd,
) -> Result<Vec<u8>, Memory> {
    match end {
        RunEnd::Complete { history } => history_text(rt, alloc, plan, history, Closing::End),
        RunEnd::Full { history } => history_text(rt, alloc, plan, history, Closing::Full),
        RunEnd::Stopped {
            journal,
            node,
            position,
        } => {
            assert!(rt; names_sources(&plan.graph, journal.as_slice()));
            stopped_text(alloc, plan, journal, *node, *position)
        }
    }
}

fn history_text(
    rt: &impl Abort,
    alloc: Global,
    plan: &Plan,
    history: &History,
    closing: Closing,
) -> Result<Vec<u8>, Memory> {
    assert!(rt; names_sources(&plan.graph, history.journal.as_slice()));
    assert_eq!(rt; history.outputs.len(), history.journal.len());
    result_text(alloc, plan, history, closing)
}

/// Whether the events are of sources.
pub fn names_sources(graph: &Graph, events: &[Event]) -> bool
    ensures { IsTrue result → NamesSources graph.now events.now }
{
    let nodes = graph.nodes();
    events.iter().all(|event| is_source(nodes, event.source))
}

fn is_source(nodes: &[Node], source: u32) -> bool
    ensures { result ≡ is_source nodes.now source }
{
    match nodes.get(source as usize) {
        Some(node) => is_source_kind(&node.kind),
        None => false,
    }
}

fn is_source_kind(kind: &NodeKind) -> bool
    ensures { result ≡ is_source_kind kind.now }
{
    matches!(kind, NodeKind::Input { .. } | NodeKind::Async { .. })
}
