ghost use Rattle.std.specs.Prelude.{◌≡◌, ◌≤◌, length, IfOk, MatchOption};
ghost use Rattle.felm_term.specs.Reduction.{IsFinished};
ghost use Rattle.felm_graph.specs.FinishedPair.{IsTyped};
ghost use Rattle.felm_graph.specs.Layout.{input_nodes};
ghost use Rattle.felm_graph.specs.Graphs.{most_nodes};
ghost use Rattle.felm_graph.specs.Pairs.{IsLayout, AreLayableFrom, AreLaid};

use crate::graph::{Graph, MOST_NODES};
use crate::lay::lay_term;
use crate::node::Node;
use crate::typed::input_node;
use felm_term::{InputDecl, Inputs, Items, Memory, Name, Term};
use std::alloc::Global;

/// A pair at which reduction ends: shared signals in order, and the term that may name them.
#[derive(Debug, Drop)]
pub struct Finished {
    pub shared: Items<Term>,
    pub last: Term,
}

/// The graph of a finished pair.
#[derive(Debug, Drop)]
pub enum Laid {
    Graph(Graph),
    /// It would have more than 16,384 nodes.
    Large,
}

/// Lays out a finished pair as a graph. It goes over each term once, and recurses over the functions in it alone.
pub fn layout(alloc: Global, finished: &Finished, inputs: &Inputs) -> Result<Laid, Memory>
    requires finished { IsFinished finished.now.shared.items finished.now.last }
    requires typed { IsTyped inputs.now.items finished.now.shared.items finished.now.last }
    ensures { IfOk result (IsLayout inputs.now.items finished.now.shared.items finished.now.last) }
{
    if inputs.len() > MOST_NODES as usize {
        return Ok(Laid::Large);
    }
    let mut nodes = input_nodes(alloc, inputs.as_slice())?;
    let Some(roots) = lay_shared(alloc, &mut nodes, finished.shared.as_slice())? else {
        return Ok(Laid::Large);
    };
    let Some(main) = lay_term(alloc, &mut nodes, roots.as_slice(), &finished.last)? else {
        return Ok(Laid::Large);
    };
    let inputs = copy_inputs(alloc, inputs)?;
    Ok(Laid::Graph(Graph::make(nodes, inputs, main)))
}

fn input_nodes(alloc: Global, inputs: &[InputDecl]) -> Result<Items<Node>, Memory>
    requires { length inputs.now ≤ most_nodes }
    ensures { IfOk result (λ nodes. nodes.items ≡ input_nodes inputs.now) }
{
    let mut nodes = Items::make(alloc);
    for (number, declared) in inputs.iter().enumerate() {
        nodes.push(input_node(number as u32, declared))?;
    }
    Ok(nodes)
}

// Lays out shared signals in order behind these nodes, and gives their roots.
fn lay_shared(
    alloc: Global,
    nodes: &mut Items<Node>,
    shared: &[Term],
) -> Result<Option<Items<u32>>, Memory>
    requires layable { AreLayableFrom 0 shared.now }
    requires few { length nodes.old.items ≤ most_nodes }
    ensures { IfOk result (λ roots. MatchOption roots (AreLaid nodes.old.items shared.now nodes.new.items None) (λ roots. AreLaid nodes.old.items shared.now nodes.new.items (Some roots.items))) }
{
    let mut roots = Items::make(alloc);
    for term in shared {
        match lay_term(alloc, nodes, roots.as_slice(), term)? {
            Some(root) => roots.push(root)?,
            None => return Ok(None),
        }
    }
    Ok(Some(roots))
}

fn copy_inputs(alloc: Global, inputs: &Inputs) -> Result<Inputs, Memory>
    ensures { IfOk result (λ copy. copy.items ≡ inputs.now.items) }
{
    let declared = inputs.as_slice();
    Ok(Inputs::of_items(copy_declared(alloc, declared)?))
}

fn copy_declared(alloc: Global, inputs: &[InputDecl]) -> Result<Items<InputDecl>, Memory>
    ensures { IfOk result (λ copy. copy.items ≡ inputs.now) }
{
    let mut copy = Items::make(alloc);
    for declared in inputs {
        copy.push(InputDecl {
            name: Name::of(alloc, declared.name.as_str())?,
            ty: declared.ty,
            default: declared.default,
        })?;
    }
    Ok(copy)
}
