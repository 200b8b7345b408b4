ghost use Rattle.std.specs.Prelude.{◌≡◌, ◌<◌, ◌∷◌, [], true, Some, length, map, slice_get, slice_set, All, IfOk, OnOk};
ghost use Rattle.felm_term.specs.Values.{value_of};
ghost use Rattle.felm_term.specs.declared.message.Message.TheVariants.{Change, NoChange};
ghost use Rattle.felm_meaning.specs.Step.{is_change, lift_step, foldp_step};
ghost use Rattle.felm_meaning.specs.Steps.{sent_by};
ghost use Rattle.felm_meaning.specs.Meaning.{source_message, message_of};
ghost use Rattle.felm_meaning.specs.Types.{IsCallable};
ghost use Rattle.felm_meaning.specs.Values.{message_at, messages_at};
ghost use Rattle.felm_plain.specs.Rows.{row_of, kept_at, MayStep, Sends, Precedes, AdvancesTo};

use felm_graph::{Graph, NodeKind};
use felm_meaning::{Among, Step, foldp_step, is_change, lift_step};
use felm_term::{Event, Memory, Message, Value};
use std::alloc::Global;
use std::marker::Model;
use std::mem;

/// The last message of every node, in the order of their numbers, advanced in place from event to
/// event. Contracts see the list.
#[derive(Debug, Drop)]
pub struct Row {
    messages: Vec<Message>,
}

impl Model for Row {
    ghost use Rattle.std.specs.Prelude.{List};
    ghost use Rattle.felm_term.specs.declared.message.Message.{Message};

    ghost Value = { List Message };

    ghost use Rattle.std.specs.Coded.{codes};
    ghost use Rattle.felm_term.specs.Codes.{coded_term};

    ghost coded = { Prim.hlevel (codes, coded_term) };

    ghost view = { λ a. a.messages.items };
}

impl Row {
    /// The row before the first event: no node has changed from its default.
    pub fn of_defaults(alloc: Global, defaults: &[Value]) -> Result<Row, Memory>
        ensures { IfOk result (λ row. row ≡ map (λ value. NoChange value) defaults.now) }
    {
        let mut messages = Vec::with_capacity(alloc, defaults.len()).map_err(|_| Memory)?;
        for value in defaults {
            messages
                .push(Message::NoChange(value.copy()?))
                .map_err(|_| Memory)?;
        }
        Ok(Row { messages })
    }

    /// All messages in order.
    pub fn as_slice(&self) -> &[Message]
        ensures { result.now ≡ self.now }
    {
        self.messages.as_slice()
    }

    /// Takes every node in order over an event. The answer is the first one whose call is over
    /// budget, if there is one; then the nodes from it on stay.
    pub fn advance(
        &mut self,
        alloc: Global,
        graph: &Graph,
        event: &Event,
        budget: u64,
    ) -> Result<Option<u32>, Memory>
        requires { Precedes graph.now budget self.old event.now }
        ensures { IfOk result (AdvancesTo graph.now budget event.now self.old self.new) }
    {
        for node in 0..graph.nodes().len() {
            if !self.step(alloc, graph, node as u32, event, budget)? {
                return Ok(Some(node as u32));
            }
        }
        Ok(None)
    }

    // Sends a node's message at an event, unless its call is over budget; then the row stays.
    fn step(
        &mut self,
        alloc: Global,
        graph: &Graph,
        node: u32,
        event: &Event,
        budget: u64,
    ) -> Result<bool, Memory>
        requires nodes { length self.old ≡ length graph.now.nodes }
        requires within { node < length self.old }
        requires fits { MayStep graph.now.nodes node self.old }
        ensures { IfOk result (Sends self.old node (message_of graph.now budget (row_of self.old) event.now (row_of self.old) node) self.new) }
    {
        match &graph.nodes()[node as usize].kind {
            NodeKind::Input { .. } => self.pass_on(node, event),
            NodeKind::Async { .. } => self.pass_on(node, event),
            NodeKind::Lift {
                function,
                arguments,
            } => self.lift(alloc, node, function, arguments.as_slice(), budget),
            NodeKind::Foldp {
                function,
                argument,
                ..
            } => self.fold(alloc, node, function, *argument, budget),
        }
    }

    // A source sends the event, if it is its own.
    fn pass_on(&mut self, node: u32, event: &Event) -> Result<bool, Memory>
        requires { node < length self.old }
        ensures { IfOk result (Sends self.old node (source_message node event.now (Some (kept_at self.old node))) self.new) }
    {
        if event.source == node {
            let value = event.value.copy()?;
            self.change(node, value);
        } else {
            self.keep(node);
        }
        Ok(true)
    }

    // A lift sends its step over what its arguments sent.
    fn lift(
        &mut self,
        alloc: Global,
        node: u32,
        function: &Value,
        arguments: &[u32],
        budget: u64,
    ) -> Result<bool, Memory>
        requires within { node < length self.old }
        requires there { All (λ a. a < length self.old) arguments.now }
        requires callable { IsCallable function.now (map value_of (messages_at self.old arguments.now)) }
        ensures { IfOk result (Sends self.old node (lift_step function.now (kept_at self.old node) (messages_at self.old arguments.now) budget) self.new) }
    {
        let arguments = Among {
            row: self.as_slice(),
            nodes: arguments,
        };
        let step = lift_step(alloc, function, &arguments, budget)?;
        Ok(self.put(node, step))
    }

    // So does a foldp, over its own value too.
    fn fold(
        &mut self,
        alloc: Global,
        node: u32,
        function: &Value,
        argument: u32,
        budget: u64,
    ) -> Result<bool, Memory>
        requires within { node < length self.old }
        requires there { argument < length self.old }
        requires callable { IsCallable function.now (kept_at self.old argument ∷ kept_at self.old node ∷ []) }
        ensures { IfOk result (Sends self.old node (foldp_step function.now (kept_at self.old node) (messages_at self.old (argument ∷ [])) budget) self.new) }
    {
        let argument = self.message(argument);
        let step = foldp_step(alloc, function, self.value(node), argument, budget)?;
        Ok(self.put(node, step))
    }

    // What a node sent last.
    fn message(&self, node: u32) -> &Message
        requires { node < length self.now }
        ensures { result.now ≡ message_at self.now node }
    {
        &self.messages[node as usize]
    }

    // What a node has now.
    fn value(&self, node: u32) -> &Value
        requires { node < length self.now }
        ensures { result.now ≡ kept_at self.now node }
    {
        match self.message(node) {
            Message::Change(value) => value,
            Message::NoChange(value) => value,
        }
    }

    // What a step does with the node's value. The answer is whether it sends a message.
    fn put(&mut self, node: u32, step: Step) -> bool
        requires { node < length self.old }
        ensures { Sends self.old node (sent_by (kept_at self.old node) step) self.new result }
    {
        match step {
            Step::Change(value) => {
                self.change(node, value);
                true
            }
            Step::Keep => {
                self.keep(node);
                true
            }
            Step::Over => false,
        }
    }

    fn change(&mut self, node: u32, value: Value)
        requires { node < length self.old }
        ensures { self.new ≡ slice_set self.old node (Change value) }
    {
        self.messages[node as usize] = Message::Change(value);
    }

    // The node's value stays where it is.
    fn keep(&mut self, node: u32)
        requires { node < length self.old }
        ensures { self.new ≡ slice_set self.old node (NoChange (kept_at self.old node)) }
    {
        let message = &mut self.messages[node as usize];
        if is_change(message) {
            *message = unchanged(mem::take(message));
        }
    }
}

fn unchanged(message: Message) -> Message
    ensures { result ≡ NoChange (value_of message) }
{
    match message {
        Message::Change(value) => Message::NoChange(value),
        Message::NoChange(value) => Message::NoChange(value),
    }
}
