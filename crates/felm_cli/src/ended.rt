//! What a command leaves of a plan.
ghost use Rattle.std.specs.Prelude.{◌≡◌, IfOk};
ghost use Rattle.felm_graph.specs.Graphs.{IsGraph};
ghost use Rattle.felm_meaning.specs.Journals.{NamesInputs};
ghost use Rattle.felm_meaning.specs.Plans.{plan_of};
ghost use Rattle.felm_meaning.specs.Histories.{IsConcluded};
ghost use Rattle.felm_printer.specs.Results.{result_text};
ghost use Rattle.felm_cli.specs.declared.words.Command.TheVariants as command;
ghost use Rattle.felm_cli.specs.Ends.{IsPrintable, IsTextOfEnd, Leaves, LeavesText};

use felm_meaning::{History, Plan, RunEnd};
use felm_plain::plain_run;
use felm_printer::{Closing, Status, graph_text, result_text, stopped_text};
use felm_term::Memory;
use std::alloc::Global;

/// The text that a command leaves, and the status that it ends with if that text can be put.
#[derive(Drop)]
pub struct Ended {
    pub status: Status,
    pub text: Vec<u8>,
}

/// What every plan keeps: its graph is one, and its script names inputs.
fn keeps(plan: &Plan)
    ensures graph { IsGraph plan.now.graph }
    ensures named { NamesInputs plan.now.graph.nodes plan.now.script.items }
{
    let _ = plan.graph.nodes();
}

/// The result text of a history.
fn text_of_history(
    alloc: Global,
    plan: &Plan,
    history: &History,
    closing: Closing,
) -> Result<Vec<u8>, Memory>
    requires { IsPrintable (plan_of plan.now) history.now }
    ensures { IfOk result (λ text. text.items
        ≡ result_text plan.now.graph plan.now.limits.turn_steps history.now.journal.items closing) }
{
    result_text(alloc, plan, history, closing)
}

/// What is left of an end of a plan's run.
pub fn text_of_end(alloc: Global, plan: &Plan, end: &RunEnd) -> Result<Ended, Memory>
    requires { IsConcluded (plan_of plan.now) end.now }
    ensures text { IfOk result (λ ended. IsTextOfEnd (plan_of plan.now) end.now ended.status ended.text.items) }
    ensures leaves { IfOk result (λ ended. LeavesText ended.status) }
{
    keeps(plan);
    match end {
        RunEnd::Complete { history } => Ok(Ended {
            text: text_of_history(alloc, plan, history, Closing::End)?,
            status: Status::Success,
        }),
        RunEnd::Stopped {
            journal,
            node,
            position,
        } => Ok(Ended {
            text: stopped_text(alloc, plan, journal, *node, *position)?,
            status: Status::Turn {
                node: *node,
                position: *position,
            },
        }),
        RunEnd::Full { history } => Ok(Ended {
            text: text_of_history(alloc, plan, history, Closing::Full)?,
            status: Status::Journal,
        }),
    }
}

/// Runs a plan on one thread.
pub fn run_plan(alloc: Global, plan: &Plan) -> Result<Ended, Memory>
    ensures text { IfOk result (λ ended. Leaves command.Sync (plan_of plan.now) ended.status ended.text.items) }
    ensures leaves { IfOk result (λ ended. LeavesText ended.status) }
{
    keeps(plan);
    let end = plain_run(alloc, plan)?;
    text_of_end(alloc, plan, &end)
}

/// Prints the graph of a plan.
pub fn show_graph(alloc: Global, plan: &Plan) -> Result<Ended, Memory>
    ensures text { IfOk result (λ ended. Leaves command.Graph (plan_of plan.now) ended.status ended.text.items) }
    ensures leaves { IfOk result (λ ended. LeavesText ended.status) }
{
    Ok(Ended {
        text: graph_text(alloc, &plan.graph)?,
        status: Status::Success,
    })
}
