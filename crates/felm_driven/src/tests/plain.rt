//! What a journal comes to, computed event by event and node by node, by the reduction of calls alone.
ghost use Rattle.std.specs.Prelude.{◌≡◌, IfOk, IsTrue};
ghost use Rattle.felm_term.specs.Typing.{HasSimpleType};

use felm_graph::{Node, NodeKind};
use felm_meaning::{History, Plan, equal_values};
use felm_reduce::{Reduced, reduce};
use felm_term::{
    Event, InputDecl, InputTy, Memory, Message, Scope, Term, TermForm, Value, boxed, type_of,
};
use std::alloc::Global;
use std::test::Fail;

/// Whether a history is that of a complete run of a plan, in some legal order of events.
pub fn is_complete_run(alloc: Global, plan: &Plan, history: &History) -> Result<bool, Fail> {
    let main = plan.graph.main();
    let mut follower = Follower::begin(alloc, plan)?;
    if !equal_values(&history.default, follower.value(main)?) {
        return Ok(false);
    }
    let outputs = history.outputs.as_slice();
    for (place, event) in history.journal.as_slice().iter().enumerate() {
        let output = outputs.get(place).ok_or("an output is missing")?;
        if !follower.follow(alloc, plan, event)? || !follower.sends(main, output)? {
            return Ok(false);
        }
    }
    Ok(outputs.len() == history.journal.len() && follower.has_ended(plan))
}

/// How far a journal was followed.
#[derive(Drop)]
struct Follower {
    /// The value of each node.
    values: Vec<Value>,
    /// Whether it changed at the last event.
    changed: Vec<bool>,
    /// The changes of asyncs' inner signals that are no events yet, each with its async.
    waiting: Vec<(u32, Value)>,
    /// How many events of the script came.
    cursor: usize,
}

impl Follower {
    /// Before the first event.
    fn begin(alloc: Global, plan: &Plan) -> Result<Follower, Fail> {
        let mut follower = Follower {
            values: Vec::new(alloc),
            changed: Vec::new(alloc),
            waiting: Vec::new(alloc),
            cursor: 0,
        };
        for node in plan.graph.nodes() {
            let value = follower.default_of(alloc, plan, node)?;
            follower.values.push(value)?;
            follower.changed.push(false)?;
        }
        Ok(follower)
    }

    fn default_of(&self, alloc: Global, plan: &Plan, node: &Node) -> Result<Value, Fail> {
        match &node.kind {
            NodeKind::Input { number } => {
                let declared = plan.graph.inputs().as_slice().get(*number as usize);
                Ok(declared_value(declared.ok_or("no input")?))
            }
            NodeKind::Lift {
                function,
                arguments,
            } => self.called(alloc, plan, function, arguments.as_slice()),
            NodeKind::Foldp { base, .. } => Ok(base.copy()?),
            NodeKind::Async { argument } => Ok(self.value(*argument)?.copy()?),
        }
    }

    /// Follows an event. False where it is neither the script's next one nor the next change of its async's inner signal.
    fn follow(&mut self, alloc: Global, plan: &Plan, event: &Event) -> Result<bool, Fail> {
        if !self.take(plan, event)? {
            return Ok(false);
        }
        for (number, node) in plan.graph.nodes().iter().enumerate() {
            let next = self.next_of(alloc, plan, number as u32, node, event)?;
            self.set(number, next);
        }
        for (number, node) in plan.graph.nodes().iter().enumerate() {
            if let NodeKind::Async { argument } = &node.kind {
                self.add_change(number as u32, *argument)?;
            }
        }
        Ok(true)
    }

    /// Takes an event off the script, or off what waits.
    fn take(&mut self, plan: &Plan, event: &Event) -> Result<bool, Fail> {
        let node = plan.graph.nodes().get(event.source as usize);
        match &node.ok_or("no node")?.kind {
            NodeKind::Input { .. } => {
                let next = plan.script.as_slice().get(self.cursor);
                let next = next.ok_or("an event too many")?;
                self.cursor = self.cursor.wrapping_add(1);
                Ok(next.source == event.source && equal_values(&next.value, &event.value))
            }
            NodeKind::Async { .. } => Ok(self.take_waiting(event)),
            _ => Ok(false),
        }
    }

    fn take_waiting(&mut self, event: &Event) -> bool {
        for place in 0..self.waiting.len() {
            if self.waiting[place].0 == event.source {
                let (_, value) = self.waiting.remove(place);
                return equal_values(&value, &event.value);
            }
        }
        false
    }

    /// The value that a node changes to at an event, if it changes.
    fn next_of(
        &self,
        alloc: Global,
        plan: &Plan,
        number: u32,
        node: &Node,
        event: &Event,
    ) -> Result<Option<Value>, Fail> {
        match &node.kind {
            NodeKind::Lift {
                function,
                arguments,
            } if self.any_changed(arguments.as_slice()) => Ok(Some(self.called(
                alloc,
                plan,
                function,
                arguments.as_slice(),
            )?)),
            NodeKind::Foldp {
                function,
                argument,
                ..
            } if self.has_changed(*argument) => Ok(Some(self.called(
                alloc,
                plan,
                function,
                &[*argument, number],
            )?)),
            _ if event.source == number => Ok(Some(event.value.copy()?)),
            _ => Ok(None),
        }
    }

    /// What the call of a function on the values of nodes comes to.
    fn called(
        &self,
        alloc: Global,
        plan: &Plan,
        function: &Value,
        nodes: &[u32],
    ) -> Result<Value, Fail> {
        let mut application = function.to_term(alloc)?;
        for node in nodes {
            application = apply(alloc, application, self.value(*node)?)?;
        }
        value_of(alloc, application, plan.limits.turn_steps)
    }

    fn set(&mut self, number: usize, next: Option<Value>) {
        if number >= self.values.len() || number >= self.changed.len() {
            return;
        }
        match next {
            Some(value) => {
                self.values[number] = value;
                self.changed[number] = true;
            }
            None => self.changed[number] = false,
        }
    }

    fn add_change(&mut self, number: u32, argument: u32) -> Result<(), Fail> {
        if self.has_changed(argument) {
            let value = self.value(argument)?.copy()?;
            self.waiting.push((number, value))?;
        }
        Ok(())
    }

    fn value(&self, node: u32) -> Result<&Value, Fail> {
        Ok(self.values.get(node as usize).ok_or("no value")?)
    }

    fn has_changed(&self, node: u32) -> bool {
        matches!(self.changed.get(node as usize), Some(true))
    }

    fn any_changed(&self, nodes: &[u32]) -> bool {
        for node in nodes {
            if self.has_changed(*node) {
                return true;
            }
        }
        false
    }

    /// Whether this is the message of a node at the last event.
    fn sends(&self, node: u32, message: &Message) -> Result<bool, Fail> {
        let value = self.value(node)?;
        match message {
            Message::Change(sent) => Ok(self.has_changed(node) && equal_values(sent, value)),
            Message::NoChange(sent) => Ok(!self.has_changed(node) && equal_values(sent, value)),
        }
    }

    /// Whether the script is used and nothing waits.
    fn has_ended(&self, plan: &Plan) -> bool {
        self.cursor == plan.script.len() && self.waiting.is_empty()
    }
}

fn declared_value(declared: &InputDecl) -> Value {
    match declared.ty {
        InputTy::Int => Value::Int(declared.default),
        InputTy::Unit => Value::Unit,
    }
}

fn apply(alloc: Global, function: Term, argument: &Value) -> Result<Term, Memory> {
    let function = boxed(alloc, function)?;
    let argument = boxed(alloc, argument.to_term(alloc)?)?;
    Ok(Term {
        form: TermForm::App { function, argument },
    })
}

/// The value of a term within so many steps.
fn value_of(alloc: Global, term: Term, budget: u64) -> Result<Value, Fail> {
    if !has_simple_type(alloc, &term)? {
        return Err(Fail::new("a call has no type"));
    }
    match reduce(alloc, term, budget)? {
        Reduced::Value { value, .. } => Ok(value),
        Reduced::Over => Err(Fail::new("a call is over budget")),
    }
}

fn has_simple_type(alloc: Global, term: &Term) -> Result<bool, Memory>
    ensures { IfOk result (λ yes. IsTrue yes → HasSimpleType term.now) }
{
    match type_of(alloc, term, &Scope::Outside, &[], &[])? {
        Some(ty) => Ok(ty.is_simple()),
        None => Ok(false),
    }
}
