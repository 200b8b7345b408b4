//! The parts of new edges.
ghost use Rattle.std.specs.Prelude.{◌≡◌, ◌+◌, ◌<◌, ◌^◌, ℕ, [], length, map, replicate, IfOk, OnOk};
ghost use Rattle.felm_graph.specs.Graphs.{IsGraph};
ghost use Rattle.felm_edges.specs.EdgesValue.{wiring_of, IsWired};
ghost use Rattle.felm_edges.specs.Parts.{new_edge, new_outlet, sources_of};
ghost use Rattle.felm_edges.specs.Readers.{AreReaders, AreReadersBefore};

use crate::outlet::Outlet;
use crate::ports::Ports;
use crate::readers::{Reader, Readers};
use felm_graph::{Graph, arguments_of};
use felm_term::Memory;
use std::alloc::Global;

/// The edges into each node, all empty.
pub fn make_rows(alloc: Global, graph: &Graph, capacity: u32) -> Result<Vec<Ports>, Memory>
    ensures rows { IfOk result (λ rows. rows.items ≡ map (map (new_edge capacity)) (wiring_of graph.now.nodes)) }
    ensures graph { IsGraph graph.now }
{
    let count = graph.nodes().len();
    let mut rows = Vec::with_capacity(alloc, count).map_err(|_| Memory)?;
    for node in 0..count {
        let sources = arguments_of(graph, node as u32);
        let ports = Ports::make(alloc, &sources, capacity)?;
        rows.push(ports).map_err(|_| Memory)?;
    }
    Ok(rows)
}

/// The readers of each node.
pub fn make_readers(alloc: Global, rows: &[Ports]) -> Result<Vec<Readers>, Memory>
    requires few { length rows.now < 2 ^ 32 }
    requires sources { (r port k : ℕ) → IsWired (sources_of rows.now) r port k → k < length rows.now }
    ensures { IfOk result (λ readers. AreReaders (sources_of rows.now) readers.items) }
{
    let mut readers = no_readers(alloc, rows.len())?;
    for node in 0..rows.len() {
        add_readers(&mut readers, rows, node)?;
    }
    Ok(readers)
}

fn no_readers(alloc: Global, count: usize) -> Result<Vec<Readers>, Memory>
    ensures { IfOk result (λ readers. readers.items ≡ replicate count []) }
{
    let mut readers = Vec::with_capacity(alloc, count).map_err(|_| Memory)?;
    for _made in 0..count {
        readers.push(Readers::make(alloc)).map_err(|_| Memory)?;
    }
    Ok(readers)
}

// Adds the ports of one node to the readers of the nodes that it reads.
fn add_readers(readers: &mut [Readers], rows: &[Ports], node: usize) -> Result<(), Memory>
    requires few { length rows.now < 2 ^ 32 }
    requires there { node < length rows.now }
    requires sources { (r port k : ℕ) → IsWired (sources_of rows.now) r port k → k < length rows.now }
    requires before { AreReadersBefore (sources_of rows.now) node 0 readers.old }
    ensures { OnOk result (AreReadersBefore (sources_of rows.now) (node + 1) 0 readers.new) }
{
    let edges = rows[node].as_slice();
    for port in 0..edges.len() {
        let reader = Reader {
            node: node as u32,
            port: port as u32,
        };
        readers[edges[port].source() as usize].push(reader)?;
    }
    Ok(())
}

/// An outlet for each node, with room for its readers.
pub fn make_outlets(alloc: Global, readers: &[Readers]) -> Result<Vec<Outlet>, Memory>
    ensures { IfOk result (λ outlets. outlets.items ≡ map (λ readers. new_outlet (length readers)) readers.now) }
{
    let mut outlets = Vec::with_capacity(alloc, readers.len()).map_err(|_| Memory)?;
    for own in readers {
        let outlet = Outlet::make(alloc, own.len())?;
        outlets.push(outlet).map_err(|_| Memory)?;
    }
    Ok(outlets)
}
