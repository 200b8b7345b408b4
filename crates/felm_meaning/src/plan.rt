ghost use Rattle.std.specs.Prelude.{◌≡◌, IsTrue, IfOk};
ghost use Rattle.felm_term.specs.Events.{all_fit};

use crate::copies::{copy_events, copy_graph};
use felm_graph::Graph;
use felm_term::{Limits, Memory, Script};
use std::alloc::Global;

/// What is run: a graph, the events that the outside sends to its inputs, and the limits of the run.
#[derive(Debug, Drop)]
pub struct Plan {
    pub graph: Graph,
    /// Each of its events names an input, and has a value of that input's type.
    pub script: Script,
    pub limits: Limits,
    pub ghost events_fit: { IsTrue (all_fit graph.inputs script.items) },
}

impl Plan {
    ghost use Rattle.felm_meaning.specs.Plans.{SamePlan};

    /// The plan of these parts.
    pub fn make(graph: Graph, script: Script, limits: Limits) -> Plan
        requires { IsTrue (all_fit graph.inputs script.items) }
        ensures graph { result.graph ≡ graph }
        ensures script { result.script ≡ script }
        ensures limits { result.limits ≡ limits }
    {
        Plan {
            graph,
            script,
            limits,
        }
    }

    /// An equal plan. Its functions share their terms with this one's.
    pub fn copy(&self, alloc: Global) -> Result<Plan, Memory>
        ensures { IfOk result (SamePlan self.now) }
    {
        let graph = copy_graph(alloc, &self.graph)?;
        let script = copy_events(alloc, self.script.as_slice())?;
        Ok(Plan {
            graph,
            script,
            limits: self.limits,
        })
    }
}
