ghost use Rattle.std.specs.Prelude.{◌≡◌, ◌<◌, IfOk, length, false, Some};
ghost use Rattle.felm_graph.specs.Nodes.{is_source, is_source_kind};
ghost use Rattle.felm_meaning.specs.Nodes.{job_of, job_of_kind};

use felm_graph::{Graph, NodeKind};
use felm_term::{Memory, Value};

/// What a node that is no source does at each of its turns.
#[derive(Debug, Drop)]
pub enum Job {
    /// Applies a function to the values of its arguments.
    Lift { function: Value },
    /// Applies a function to its argument's new value and its own previous one.
    Foldp { function: Value },
}

/// The job of a node that is no source. Its function shares its term with the graph's.
pub fn job_of(graph: &Graph, node: u32) -> Result<Job, Memory>
    requires there { node < length graph.now.nodes }
    requires inner { is_source graph.now.nodes node ≡ false }
    ensures { IfOk result (λ job. job_of graph.now.nodes node ≡ Some job) }
{
    job_of_kind(&graph.nodes()[node as usize].kind)
}

fn job_of_kind(kind: &NodeKind) -> Result<Job, Memory>
    requires { is_source_kind kind.now ≡ false }
    ensures { IfOk result (λ job. job_of_kind kind.now ≡ Some job) }
{
    match kind {
        NodeKind::Lift { function, .. } => {
            let function = function.copy()?;
            Ok(Job::Lift { function })
        }
        NodeKind::Foldp { function, .. } => {
            let function = function.copy()?;
            Ok(Job::Foldp { function })
        }
        NodeKind::Input { .. } => unreachable!(),
        NodeKind::Async { .. } => unreachable!(),
    }
}
