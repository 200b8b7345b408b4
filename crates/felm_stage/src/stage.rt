ghost use Rattle.std.specs.Prelude.{◌≡◌, ◌≤◌, IfOk};
ghost use Rattle.felm_stage.specs.Outcome.{IsProgram, IsStaged, IsOnlyStaged};

use crate::reduction::{Reached, finish};
use felm_graph::{Graph, Laid, layout};
use felm_term::{Inputs, Memory, Term};
use felm_types::Checked;
use std::alloc::Global;

/// What stage one comes to.
#[derive(Debug, Drop)]
pub enum Staged {
    /// The program's graph, and the number of steps that lead to it.
    Graph { graph: Graph, steps: u64 },
    /// There are more steps than the budget.
    Over,
    /// The graph would have more than 16,384 nodes.
    Large,
}

/// Reduces a program in at most `budget` steps, and lays out what it comes to as a graph.
///
/// A signal that a let binds is one node, however often it is used. A signal that is not bound is one node for each
/// place at which it stands. The time is proportional to the steps, to the nodes and to the sizes of the terms that
/// the steps touch.
pub fn stage_one(alloc: Global, checked: &Checked, budget: u64) -> Result<Staged, Memory>
    requires { budget ≤ 1000000000 }
    ensures outcome { IfOk result (IsStaged checked.now.inputs budget checked.now.term) }
    ensures only { IfOk result (IsOnlyStaged checked.now.inputs budget checked.now.term) }
{
    let term = checked.term.copy(alloc)?;
    stage_term(alloc, term, &checked.inputs, budget)
}

fn stage_term(alloc: Global, term: Term, inputs: &Inputs, budget: u64) -> Result<Staged, Memory>
    requires typed { IsProgram inputs.now.items term }
    requires small { budget ≤ 1000000000 }
    ensures outcome { IfOk result (IsStaged inputs.now.items budget term) }
    ensures only { IfOk result (IsOnlyStaged inputs.now.items budget term) }
{
    match finish(alloc, term, budget)? {
        Reached::Over => Ok(Staged::Over),
        Reached::Pair { finished, steps } => match layout(alloc, &finished, inputs)? {
            Laid::Graph(graph) => Ok(Staged::Graph { graph, steps }),
            Laid::Large => Ok(Staged::Large),
        },
    }
}
