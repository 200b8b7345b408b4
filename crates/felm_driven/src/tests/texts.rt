//! What calls answer, as text.
use felm_engine::{Deposit, Engine, Entered, Stop};
use felm_meaning::{Done, Outcome, Turn};
use felm_term::{Event, Message};
use std::alloc::Global;
use std::test::Fail;

pub fn words(alloc: Global, text: &str) -> Result<String, Fail> {
    Ok(String::from_str(alloc, text)?)
}

/// What the entry of an event answers.
pub fn entered_text(alloc: Global, entered: Entered) -> Result<String, Fail> {
    match entered {
        Entered::At { position } => Ok(format!(in alloc; "at {position}")?),
        Entered::NoRoom => words(alloc, "no room"),
        Entered::Full => words(alloc, "full"),
    }
}

/// What a deposit answers.
pub fn deposit_text(answer: Deposit) -> &'static str {
    match answer {
        Deposit::Settled => "settled",
        Deposit::Reopened => "reopened",
    }
}

/// What a turn is made of, but for its job.
pub fn turn_text(alloc: Global, turn: &Turn) -> Result<String, Fail> {
    let previous = turn.previous();
    let inputs = messages_text(alloc, turn.inputs().as_slice())?;
    let budget = turn.budget();
    Ok(format!(in alloc; "had {previous}, takes {inputs} in {budget} steps")?)
}

/// What a turn comes to.
pub fn outcome_text(alloc: Global, done: &Done) -> Result<String, Fail> {
    match done.outcome() {
        Outcome::Sent(message) => Ok(format!(in alloc; "{message}")?),
        Outcome::Over => words(alloc, "over"),
    }
}

pub fn messages_text(alloc: Global, messages: &[Message]) -> Result<String, Fail> {
    let mut text = String::new(alloc);
    for message in messages {
        add(&mut text, ", ", format!(in alloc; "{message}")?.as_str())?;
    }
    Ok(text)
}

/// Events, each with its source's number.
pub fn journal_text(alloc: Global, events: &[Event]) -> Result<String, Fail> {
    let mut text = String::new(alloc);
    for event in events {
        let item = format!(in alloc; "{} {}", event.source, event.value)?;
        add(&mut text, ", ", item.as_str())?;
    }
    Ok(text)
}

/// How many events came in, how many turns are out, how many messages were settled, and what has stopped.
pub fn state_text(alloc: Global, engine: &Engine) -> Result<String, Fail> {
    let events = engine.journal().len();
    let out = engine.turns_out();
    let settled = engine.turns_settled();
    let mut text = format!(in alloc; "{events} in, {out} out, {settled} settled")?;
    if engine.is_settled() {
        text.push_str(", at rest")?;
    }
    if let Some(Stop { node, position }) = engine.stopped() {
        text.push_str(format!(in alloc; ", {node} stopped at {position}")?.as_str())?;
    }
    Ok(text)
}

/// Appends an item to a list in a text, behind a mark unless it is the first.
pub fn add(text: &mut String, mark: &str, item: &str) -> Result<(), Fail> {
    if text.len() > 0 {
        text.push_str(mark)?;
    }
    text.push_str(item)?;
    Ok(())
}
