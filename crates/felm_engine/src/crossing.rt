//! That engines may cross threads. A search proves it of each part, and runs out of steps at the whole.
ghost use denote.Param.Send.{IsSend};
ghost use Rattle.felm_term.specs.contracts.value.Value as value;
ghost use Rattle.felm_meaning.specs.contracts.plan.Plan as plan;
ghost use Rattle.felm_edges.specs.contracts.edges.Edges as edges;
ghost use Rattle.felm_engine.specs.contracts.waiting.Waiting as waiting;
ghost use Rattle.felm_engine.specs.contracts.engine.Engine as engine;

use crate::waiting::Waiting;
use felm_edges::Edges;
use felm_meaning::Plan;
use felm_term::Value;

/// Engines may cross threads.
pub fn engines_cross()
    ensures { IsSend engine.the_row }
{
    values_cross();
    plans_cross();
    edges_cross();
    waiting_cross();
}

fn values_cross()
    ensures { IsSend value.the_row }
{
    cross::<Value>()
}

fn plans_cross()
    ensures { IsSend plan.the_row }
{
    cross::<Plan>()
}

fn edges_cross()
    ensures { IsSend edges.the_row }
{
    cross::<Edges>()
}

fn waiting_cross()
    ensures { IsSend waiting.the_row }
{
    cross::<Waiting>()
}

// Values of a type that is `Send` may.
fn cross<T: Send>()
    ensures { IsSend T.row }
{}
