//! The texts of graphs.
ghost use Rattle.std.specs.Prelude.{◌≡◌, [], ◌++◌, slice_get, IfOk, OnOk, string_bytes};
ghost use Rattle.std.specs.Option.{option_map_or};
ghost use Rattle.std.specs.Fmt.{WritesOnOk};
ghost use Rattle.felm_printer.specs.Graphs.{declaration_text, numbers_text, node_line, graph_text};

use crate::term::ValueTerm;
use felm_graph::{Graph, Node, NodeKind};
use felm_term::{InputDecl, InputTy, Memory};
use std::alloc::Global;
use std::fmt;
use std::fmt::{Display, Formatter};

/// The text of a graph, made whole in memory. It recurses over the functions,
/// bases and types in it alone.
pub fn graph_text(alloc: Global, graph: &Graph) -> Result<Vec<u8>, Memory>
    ensures { IfOk result (λ text. text.items ≡ graph_text graph.now) }
{
    let inputs = graph.inputs().as_slice();
    let nodes = graph.nodes();
    let main = graph.main();
    let mut text = String::new(alloc);
    if text.push_str("felm-graph 1\n").is_err() {
        return Err(Memory);
    }
    for (number, node) in nodes.iter().enumerate() {
        push_node(&mut text, inputs, number, node)?;
    }
    match write!(text, "main {main}\n") {
        Ok(()) => Ok(text.into_bytes()),
        Err(_) => Err(Memory),
    }
}

/// Writes the line of a node.
fn push_node(
    text: &mut String,
    inputs: &[InputDecl],
    number: usize,
    node: &Node,
) -> Result<(), Memory>
    ensures { OnOk result (string_bytes text.new ≡ string_bytes text.old
        ++ node_line inputs.now number node.now) }
{
    let kind = KindText {
        inputs,
        kind: &node.kind,
    };
    match write!(text, "{number} {kind}\n") {
        Ok(()) => Ok(()),
        Err(_) => Err(Memory),
    }
}

/// Shows what a node does, beside the declared inputs.
#[derive(Clone, Copy)]
struct KindText<'a> {
    inputs: &'a [InputDecl],
    kind: &'a NodeKind,
}

impl Display for KindText<'_> {
    ghost use Rattle.std.specs.Prelude.{Some};
    ghost use Rattle.felm_printer.specs.Graphs.{kind_text};

    ghost output = { λ text. Some (kind_text text.inputs.now text.kind.now) };

    fn fmt<W: fmt::Write>(&self, f: &mut Formatter<W>) -> fmt::Result {
        match self.kind {
            NodeKind::Input { number } => write_input(f, self.inputs, *number),
            NodeKind::Lift {
                function,
                arguments,
            } => {
                let function = ValueTerm { value: function };
                let count = arguments.len();
                write!(f, "lift{count} {function}")?;
                write_numbers(f, arguments.as_slice())
            }
            NodeKind::Foldp {
                function,
                base,
                argument,
            } => {
                let function = ValueTerm { value: function };
                let base = ValueTerm { value: base };
                write!(f, "foldp {function} {base} {argument}")
            }
            NodeKind::Async { argument } => write!(f, "async {argument}"),
        }
    }
}

fn write_input<W: fmt::Write>(
    f: &mut Formatter<W>,
    inputs: &[InputDecl],
    number: u32,
) -> fmt::Result
    ensures { WritesOnOk W.write_str_gives f.old result (option_map_or declaration_text (slice_get inputs.now number) []) f.new }
{
    match inputs.get(number as usize) {
        Some(declared) => write_declaration(f, declared),
        None => Ok(()),
    }
}

fn write_declaration<W: fmt::Write>(f: &mut Formatter<W>, declared: &InputDecl) -> fmt::Result
    ensures { WritesOnOk W.write_str_gives f.old result (declaration_text declared.now) f.new }
{
    let name = &declared.name;
    let default = declared.default;
    match declared.ty {
        InputTy::Int => write!(f, "input {name} : int = {default}"),
        InputTy::Unit => write!(f, "input {name} : unit = ()"),
    }
}

fn write_numbers<W: fmt::Write>(f: &mut Formatter<W>, numbers: &[u32]) -> fmt::Result
    ensures { WritesOnOk W.write_str_gives f.old result (numbers_text numbers.now) f.new }
{
    for number in numbers {
        write!(f, " {number}")?;
    }
    Ok(())
}
