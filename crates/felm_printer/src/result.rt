//! The texts of runs.
ghost use Rattle.std.specs.Prelude.{◌≡◌, ◌++◌, length, map, Some, IfOk, OnOk, string_bytes};
ghost use Rattle.felm_term.specs.Text.{value_text};
ghost use Rattle.felm_printer.specs.Results.{NamesSources, event_line, event_lines, closing_text, closing_line, history_text, stopped_line, stopped_lines, stopped_text};
ghost use Rattle.felm_printer.specs.Sources.{source_texts};

use crate::sources::source_texts;
use felm_meaning::{History, Plan};
use felm_term::{Event, Events, Memory, Message, Value};
use std::alloc::Global;

/// How the text of a run ends.
#[derive(Clone, Copy, Debug, PartialEq, Eq)]
pub enum Closing {
    /// Every event entered.
    End,
    /// The journal is full, and an event was still to enter.
    Full,
}

/// The text of a value, which doesn't show what a function is.
pub fn value_text(alloc: Global, value: &Value) -> Result<Vec<u8>, Memory>
    ensures { IfOk result (λ text. text.items ≡ value_text value.now) }
{
    match format!(in alloc; "{value}") {
        Ok(text) => Ok(text.into_bytes()),
        Err(_) => Err(Memory),
    }
}

/// The result text of a plan's history, made whole in memory.
pub fn result_text(
    alloc: Global,
    plan: &Plan,
    history: &History,
    closing: Closing,
) -> Result<Vec<u8>, Memory>
    requires sources { NamesSources plan.now.graph history.now.journal.items }
    requires one_each { length history.now.outputs.items ≡ length history.now.journal.items }
    ensures { IfOk result (λ text. text.items ≡ history_text plan.now.graph
        (Some history.now.default) history.now.journal.items history.now.outputs.items closing) }
{
    let sources = source_texts(alloc, &plan.graph)?;
    let mut text = String::new(alloc);
    let default = &history.default;
    if write!(text, "felm-result 1\n0 default {default}\n").is_err() {
        return Err(Memory);
    }
    let count = history.journal.len();
    for index in 0..count {
        let event = history.journal.at(index);
        let source = &sources[event.source as usize];
        let message = history.outputs.at(index);
        push_event(&mut text, index as u64 + 1, source.as_str(), event, message)?;
    }
    push_closing(&mut text, closing, count)?;
    Ok(text.into_bytes())
}

/// Writes the line of an event.
fn push_event(
    text: &mut String,
    position: u64,
    source: &str,
    event: &Event,
    message: &Message,
) -> Result<(), Memory>
    ensures { OnOk result (string_bytes text.new ≡ string_bytes text.old
        ++ event_line position source.now event.now message.now) }
{
    let value = &event.value;
    match write!(text, "{position} {source} {value} {message}\n") {
        Ok(()) => Ok(()),
        Err(_) => Err(Memory),
    }
}

/// Writes the last line of a result.
fn push_closing(text: &mut String, closing: Closing, count: usize) -> Result<(), Memory>
    ensures { OnOk result (string_bytes text.new ≡ string_bytes text.old
        ++ closing_line closing count) }
{
    let word = closing_text(closing);
    match write!(text, "{word}{count}\n") {
        Ok(()) => Ok(()),
        Err(_) => Err(Memory),
    }
}

fn closing_text(closing: Closing) -> &'static str
    ensures { result.now ≡ closing_text closing }
{
    match closing {
        Closing::End => "end ",
        Closing::Full => "full ",
    }
}

/// The text of a run that stopped at a node and a position, after the events of a journal. It is
/// made whole in memory.
pub fn stopped_text(
    alloc: Global,
    plan: &Plan,
    journal: &Events,
    node: u32,
    position: u64,
) -> Result<Vec<u8>, Memory>
    requires { NamesSources plan.now.graph journal.now.items }
    ensures { IfOk result (λ text. text.items ≡ stopped_text plan.now.graph journal.now.items node position) }
{
    let sources = source_texts(alloc, &plan.graph)?;
    let mut text = String::new(alloc);
    if text.push_str("felm-stopped 1\n").is_err() {
        return Err(Memory);
    }
    for index in 0..journal.len() {
        let event = journal.at(index);
        let source = &sources[event.source as usize];
        push_stopped(&mut text, index as u64 + 1, source.as_str(), event)?;
    }
    match write!(text, "stopped {node} {position}\n") {
        Ok(()) => Ok(text.into_bytes()),
        Err(_) => Err(Memory),
    }
}

/// Writes the line of an event before a stop.
fn push_stopped(text: &mut String, position: u64, source: &str, event: &Event) -> Result<(), Memory>
    ensures { OnOk result (string_bytes text.new ≡ string_bytes text.old
        ++ stopped_line position source.now event.now) }
{
    let value = &event.value;
    match write!(text, "{position} {source} {value}\n") {
        Ok(()) => Ok(()),
        Err(_) => Err(Memory),
    }
}
