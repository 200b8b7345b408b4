//! Events come in.
ghost use Rattle.std.specs.Prelude.{◌≡◌, ◌<◌, ℕ, Some, length, slice_get, MatchBool, IfOk, OnOk, OnErr};
ghost use Rattle.felm_term.specs.declared.value.Value.{Value};
ghost use Rattle.felm_core.specs.Moves.{HasPlace};
ghost use Rattle.felm_engine.specs.Answers.{planned, Moved, MayComeIn, coming_in, AllHaveRoom, LacksRoom, EnteredAs};
ghost use Rattle.felm_engine.specs.Sources.{shown_by};

use crate::answers::Entered;
use crate::engine::Engine;
use crate::outputs::show;
use crate::sources::{
    count_messages, have_room, message_at, prepare_messages, put_messages, reserve_queues,
};
use felm_graph::{Graph, is_source};
use felm_term::{Event, Memory, Message, Value};

impl Engine {
    /// Enters an event of a source: a fed value of an input, or the value that has waited longest at
    /// an async. Every source sends its message at once. Room for the deposits of this event's turns
    /// is made here.
    pub fn dispatch(&mut self, source: u32, value: Value) -> Result<Entered, Memory>
        requires { MayComeIn self.old (record { source = source; value = value }) }
        ensures ok { IfOk result (EnteredAs self.old (record { source = source; value = value }) self.new) }
        ensures err { OnErr result (self.new ≡ self.old) }
    {
        let events = self.journal.len() as u64;
        if events >= self.plan.limits.journal {
            return Ok(Entered::Full);
        }
        if !self.sources_have_room() {
            return Ok(Entered::NoRoom);
        }
        self.enter(Event { source, value })?;
        Ok(Entered::At {
            position: events + 1,
        })
    }

    // Whether each edge that reads a source can take one message more.
    fn sources_have_room(&self) -> bool
        ensures { MatchBool result (AllHaveRoom (planned self.now) self.now.position) (LacksRoom (planned self.now) self.now.position) }
    {
        have_room(self.sources.as_slice(), &self.edges)
    }

    // Enters an event for which there is place.
    fn enter(&mut self, event: Event) -> Result<(), Memory>
        requires may { MayComeIn self.old event }
        requires place { HasPlace (planned self.old) self.old.position }
        ensures ok { OnOk result (Moved self.old (coming_in self.old.plan.graph.nodes event) self.new) }
        ensures err { OnErr result (self.new ≡ self.old) }
    {
        let plan = &self.plan;
        let graph = &plan.graph;
        let sources = self.sources.as_slice();
        let asyncs = self.asyncs.over(event.source);
        let events = self.journal.len() as u64;

        // All that may be refused comes first.
        let owed = events - self.done[graph.main() as usize];
        self.journal.reserve(1)?;
        self.outputs.reserve(owed as usize + 1)?;
        reserve_queues(
            sources,
            graph.nodes(),
            &self.done,
            events,
            &mut self.waiting,
        )?;
        self.waiting.prepare(asyncs, &event.value)?;
        prepare_messages(sources, &event, &self.kept, &mut self.edges)?;
        let shown = shown_at(graph, &event, &self.kept)?;
        let kept = event.value.copy()?;

        put_messages(sources, &mut self.edges);
        count_messages(sources, events + 1, &mut self.done);
        self.kept[event.source as usize] = kept;
        self.waiting.take_first(event.source);
        self.waiting.put(asyncs);
        show(shown, &mut self.outputs);
        let _ = self.journal.push(event);
        Ok(())
    }
}

// The message of the shown node at an event, if the node is a source.
fn shown_at(graph: &Graph, event: &Event, kept: &[Value]) -> Result<Option<Message>, Memory>
    requires main { graph.now.main < length graph.now.nodes }
    requires kept { length kept.now ≡ length graph.now.nodes }
    ensures { IfOk result (λ shown. (v : Value) → slice_get kept.now graph.now.main ≡ Some v → shown ≡ shown_by graph.now event.now v) }
{
    let main = graph.main();
    if !is_source(graph, main) {
        return Ok(None);
    }
    let message = message_at(event, main, &kept[main as usize])?;
    Ok(Some(message))
}
