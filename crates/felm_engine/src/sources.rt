//! What an event does at each source of a graph. Sources stand in a list.
ghost use Rattle.std.specs.Prelude.{◌≡◌, ◌<◌, ◌≤◌, ◌^◌, ℕ, Some, length, All, MatchBool, IsSome, IfOk, OnOk};
ghost use Rattle.felm_edges.specs.EdgesValue.{HasRoomIn, prepared_in};
ghost use Rattle.felm_meaning.specs.Nodes.{inner};
ghost use Rattle.felm_core.specs.Positions.{done_at};
ghost use Rattle.felm_core.specs.EngineLaws.{message_by};
ghost use Rattle.felm_engine.specs.Queued.{AreDistinct};
ghost use Rattle.felm_engine.specs.Sources.{SomeLacksRoom, SameEdges, AreDue, PutAll, CountedAs, Grown, AreRoomy};

use crate::waiting::Waiting;
use felm_edges::Edges;
use felm_graph::{Node, NodeKind};
use felm_term::{Event, Memory, Message, Value};

/// Whether each edge that reads one of these nodes can take one message more.
pub fn have_room(sources: &[u32], edges: &Edges) -> bool
    requires { All (λ k. k < length edges.now.wiring) sources.now }
    ensures { MatchBool result (All (HasRoomIn edges.now) sources.now) (SomeLacksRoom sources.now edges.now) }
{
    for source in sources {
        if !edges.room(*source) {
            return false;
        }
    }
    true
}

/// The message of a source at an event, by the value that it keeps.
pub fn message_at(event: &Event, source: u32, kept: &Value) -> Result<Message, Memory>
    ensures { IfOk result (λ message. message ≡ message_by event.now source kept.now) }
{
    if event.source == source {
        Ok(Message::Change(event.value.copy()?))
    } else {
        Ok(Message::NoChange(kept.copy()?))
    }
}

/// Prepares the message of each of these nodes at an event, for all that read them.
pub fn prepare_messages(
    sources: &[u32],
    event: &Event,
    kept: &[Value],
    edges: &mut Edges,
) -> Result<(), Memory>
    requires nodes { All (λ k. k < length edges.old.wiring) sources.now }
    requires kept { length kept.now ≡ length edges.old.wiring }
    ensures stays { SameEdges edges.old edges.new }
    ensures ok { OnOk result (AreDue sources.now event.now kept.now edges.new) }
{
    for source in sources {
        let message = message_at(event, *source, &kept[*source as usize])?;
        edges.prepare(*source, &message)?;
    }
    Ok(())
}

/// Puts the prepared message of each of these nodes on the edges that read it.
pub fn put_messages(sources: &[u32], edges: &mut Edges)
    requires distinct { AreDistinct sources.now }
    requires room { All (HasRoomIn edges.old) sources.now }
    requires prepared { All (λ k. IsSome (prepared_in edges.old k)) sources.now }
    ensures { PutAll sources.now edges.old edges.new }
{
    for source in sources {
        edges.put(*source);
    }
}

/// Each of these nodes has sent so many messages.
pub fn count_messages(sources: &[u32], count: u64, done: &mut [u64])
    requires { All (λ k. k < length done.old) sources.now }
    ensures { CountedAs sources.now count done.old done.new }
{
    for source in sources {
        done[*source as usize] = count;
    }
}

/// Makes room in the queue of each async for what its inner signal has still to send at so many
/// events, and for one value more. All values stay.
pub fn reserve_queues(
    sources: &[u32],
    nodes: &[Node],
    done: &[u64],
    events: u64,
    waiting: &mut Waiting,
) -> Result<(), Memory>
    requires nodes { All (λ k. k < length nodes.now) sources.now }
    requires done { length done.now ≡ length nodes.now }
    requires waiting { length waiting.old ≡ length nodes.now }
    requires inner { (a x : ℕ) → inner nodes.now a ≡ Some x → x < length nodes.now }
    requires sent { (k : ℕ) → done_at done.now k ≤ events }
    requires few { events < 2 ^ 31 }
    ensures stays { Grown waiting.old waiting.new }
    ensures ok { OnOk result (AreRoomy nodes.now sources.now done.now events waiting.new) }
{
    for source in sources {
        if let NodeKind::Async { argument } = &nodes[*source as usize].kind {
            let owed = events - done[*argument as usize];
            waiting.reserve(*source, owed + 1)?;
        }
    }
    Ok(())
}
