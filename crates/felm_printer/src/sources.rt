//! The texts of sources.
ghost use Rattle.std.specs.Prelude.{◌≡◌, map, string_bytes, IfOk};
ghost use Rattle.felm_graph.specs.Nodes.{is_async};
ghost use Rattle.felm_printer.specs.Sources.{text_behind, source_texts};
ghost use Rattle.felm_printer.specs.Results.{input_text, async_text};

use felm_graph::{Graph, Node, NodeKind};
use felm_term::{Inputs, Memory};
use std::alloc::Global;

/// The texts of a graph's sources by node number. A node that is no source has an empty one.
pub(crate) fn source_texts(alloc: Global, graph: &Graph) -> Result<Vec<String>, Memory>
    ensures { IfOk result (λ texts. map string_bytes texts.items ≡ source_texts graph.now) }
{
    let inputs = graph.inputs();
    let mut texts = Vec::new(alloc);
    let mut asyncs: usize = 0;
    for node in graph.nodes() {
        let text = text_behind(alloc, inputs, asyncs, &node.kind)?;
        if texts.push(text).is_err() {
            return Err(Memory);
        }
        if is_async(node) {
            asyncs += 1;
        }
    }
    Ok(texts)
}

/// The text of a node that does this, behind so many asyncs.
fn text_behind(
    alloc: Global,
    inputs: &Inputs,
    asyncs: usize,
    kind: &NodeKind,
) -> Result<String, Memory>
    ensures { IfOk result (λ text. string_bytes text ≡ text_behind inputs.now.items asyncs kind.now) }
{
    match kind {
        NodeKind::Input { number } => input_text(alloc, inputs, *number),
        NodeKind::Async { .. } => async_text(alloc, asyncs),
        NodeKind::Lift { .. } => Ok(String::new(alloc)),
        NodeKind::Foldp { .. } => Ok(String::new(alloc)),
    }
}

fn input_text(alloc: Global, inputs: &Inputs, number: u32) -> Result<String, Memory>
    ensures { IfOk result (λ text. string_bytes text ≡ input_text inputs.now.items number) }
{
    match inputs.as_slice().get(number as usize) {
        Some(declared) => copied(alloc, declared.name.as_str()),
        None => Ok(String::new(alloc)),
    }
}

fn copied(alloc: Global, text: &str) -> Result<String, Memory>
    ensures { IfOk result (λ copy. string_bytes copy ≡ text.now) }
{
    match String::from_str(alloc, text) {
        Ok(copy) => Ok(copy),
        Err(_) => Err(Memory),
    }
}

fn async_text(alloc: Global, number: usize) -> Result<String, Memory>
    ensures { IfOk result (λ text. string_bytes text ≡ async_text number) }
{
    match format!(in alloc; "@{number}") {
        Ok(text) => Ok(text),
        Err(_) => Err(Memory),
    }
}

fn is_async(node: &Node) -> bool
    ensures { result ≡ is_async node.now }
{
    matches!(&node.kind, NodeKind::Async { .. })
}
