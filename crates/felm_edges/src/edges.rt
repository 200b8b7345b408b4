ghost use Rattle.std.specs.Prelude.{◌≡◌, ◌↔◌, ◌<◌, ◌≤◌, Some, None, length, All, IsTrue, IsSome, IsOk, IfOk, OnOk, OnErr, option_copied, slice_get};
ghost use Rattle.felm_term.specs.Values.{value_of, IsPlain};
ghost use Rattle.felm_edges.specs.EdgesValue.{AreEdges, read_in, edge_in, prepared_in, HasRoomIn, IsFedIn};
ghost use Rattle.felm_edges.specs.Changes.{AreNew, PreparedFrom, PutFrom, DroppedFrom};
ghost use Rattle.felm_edges.specs.Parts.{with_message, IsThere, HasPlaceAt, changed_at_each, new_outlet};
ghost use Rattle.felm_edges.specs.Readers.{AllOnce};

use crate::making::{make_outlets, make_readers, make_rows};
use crate::outlet::Outlet;
use crate::ports::Ports;
use crate::readers::{Reader, Readers};
use felm_graph::Graph;
use felm_term::{Memory, Message};
use std::alloc::Global;
use std::marker::Model;

/// The edges of a graph, which contracts see as an `EdgesValue`: for each port of each node a list
/// of messages that is no longer than the capacity, and for each node the message that is prepared
/// for its readers, or none.
///
/// All memory is taken when edges are made. After that only a copy of a function can be refused.
#[derive(Debug, Drop)]
pub struct Edges {
    rows: Vec<Ports>,
    readers: Vec<Readers>,
    outlets: Vec<Outlet>,
    capacity: u32,
}

impl Model for Edges {
    ghost use Rattle.felm_edges.specs.EdgesValue.{EdgesValue};

    ghost Value = { EdgesValue };

    ghost use Rattle.std.specs.Coded.{codes};
    ghost use Rattle.felm_term.specs.Codes.{coded_term};

    ghost coded = { Prim.hlevel (codes, coded_term) };

    ghost use Rattle.felm_edges.specs.Inside.{edges_of, AreInside};

    ghost view = { edges_of };

    ghost invariant = { AreInside };
}

impl Edges {
    /// The edges of a graph, each for so many messages, on which nothing was sent.
    pub fn make(alloc: Global, graph: &Graph, capacity: u32) -> Result<Edges, Memory>
        requires least { 1 ≤ capacity }
        requires most { capacity ≤ 1024 }
        ensures { IfOk result (AreNew graph.now.nodes capacity) }
    {
        let rows = make_rows(alloc, graph, capacity)?;
        let readers = make_readers(alloc, &rows)?;
        let outlets = make_outlets(alloc, &readers)?;
        Ok(Edges {
            rows,
            readers,
            outlets,
            capacity,
        })
    }

    /// The oldest message on the edge into a node at a port, counted from 0. There is none exactly
    /// where the edge is empty.
    pub fn head(&self, node: u32, port: usize) -> Option<&Message>
        requires { port < length (read_in self.now node) }
        ensures { option_copied result ≡ slice_get (edge_in self.now node port) 0 }
    {
        self.rows[node as usize].at(port).first()
    }

    /// Whether each of a node's own edges has a message.
    pub fn is_fed(&self, node: u32) -> bool
        requires { node < length self.now.wiring }
        ensures { IsTrue result ↔ IsFedIn self.now node }
    {
        self.rows[node as usize].have_messages()
    }

    /// Whether each edge that reads a node can take one message more.
    pub fn room(&self, node: u32) -> bool
        requires { node < length self.now.wiring }
        ensures room { IsTrue result ↔ HasRoomIn self.now node }
        ensures edges { AreEdges self.now }
    {
        have_places(&self.rows, self.readers[node as usize].as_slice())
    }

    /// Whether a message is prepared for the readers of a node.
    pub fn is_prepared(&self, node: u32) -> bool
        requires { node < length self.now.wiring }
        ensures { IsTrue result ↔ IsSome (prepared_in self.now node) }
    {
        self.outlets[node as usize].is_prepared()
    }

    /// Prepares a message for the readers of a node, in place of what was prepared for them: one
    /// copy for the node itself, and one for each edge that reads it. A message without a function
    /// is always prepared. After `Memory` nothing is prepared for them.
    pub fn prepare(&mut self, node: u32, message: &Message) -> Result<(), Memory>
        requires { node < length self.old.wiring }
        ensures ok { OnOk result (PreparedFrom self.old node (Some message.now) self.new) }
        ensures err { OnErr result (PreparedFrom self.old node None self.new) }
        ensures plain { IsPlain (value_of message.now) → IsOk result }
    {
        let readers = self.readers[node as usize].len();
        self.outlets[node as usize].prepare(readers, message)
    }

    /// Puts the prepared message of a node on each edge that reads it. Then none is prepared.
    pub fn put(&mut self, node: u32)
        requires room { HasRoomIn self.old node }
        requires prepared { IsSome (prepared_in self.old node) }
        ensures { PutFrom self.old node self.new }
    {
        let readers = self.readers[node as usize].as_slice();
        send(&mut self.rows, readers, &mut self.outlets[node as usize]);
    }

    /// Takes the oldest message off each of a node's own edges.
    pub fn drop_heads(&mut self, node: u32)
        requires there { node < length self.old.wiring }
        requires fed { IsFedIn self.old node }
        ensures { DroppedFrom self.old node self.new }
    {
        self.rows[node as usize].drop_firsts();
    }
}

// Whether the edges at all of these ports can take one message more.
fn have_places(rows: &[Ports], readers: &[Reader]) -> bool
    requires { All (IsThere rows.now) readers.now }
    ensures { IsTrue result ↔ All (HasPlaceAt rows.now) readers.now }
{
    readers.iter().all(|reader| has_place(rows, reader))
}

fn has_place(rows: &[Ports], reader: &Reader) -> bool
    requires { IsThere rows.now reader.now }
    ensures { IsTrue result ↔ HasPlaceAt rows.now reader.now }
{
    rows[reader.node as usize]
        .at(reader.port as usize)
        .has_place()
}

// Puts a copy of what is prepared on the edge at each of these ports, and then nothing is prepared.
fn send(rows: &mut [Ports], readers: &[Reader], outlet: &mut Outlet)
    requires there { All (IsThere rows.old) readers.now }
    requires places { All (HasPlaceAt rows.old) readers.now }
    requires distinct { AllOnce readers.now }
    requires prepared { IsSome outlet.old.message }
    requires copies { outlet.old.left ≡ length readers.now }
    ensures sent { rows.new ≡ changed_at_each (with_message outlet.old.message) rows.old readers.now }
    ensures none { outlet.new ≡ new_outlet outlet.old.room }
{
    for reader in readers {
        rows[reader.node as usize].put(reader.port as usize, outlet.take());
    }
    outlet.clear();
}
