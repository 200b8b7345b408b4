//! The plan of two texts.
ghost use Rattle.std.specs.Prelude.{◌≡◌, ◌≤◌, ◌<◌, ◌^◌, ◌+◌, length, IfOk, OnOk, IfErr, Some, Ok, IsTrue};
ghost use Rattle.felm_term.specs.Events.{all_fit};
ghost use Rattle.felm_lexer.specs.Readings.{Reads as Tokenizes, Whole};
ghost use Rattle.felm_syntax.specs.Binders.{binders};
ghost use Rattle.felm_syntax.specs.ProgramText.{IsProgramText};
ghost use Rattle.felm_types.specs.Typed.{IsTyped, program_term};
ghost use Rattle.felm_script.specs.Script.{script_of};
ghost use Rattle.felm_plans.specs.Plans.{planned, HavePlan, IsStagedTerm, IsProgramFault, IsCheckFault, IsEventsFault, IsTermFault, IsPlanFault, OrMemory};

use crate::faults::{
    status_of_lex_fault, status_of_parse_fault, status_of_script_fault, status_of_type_fault,
};
use felm_graph::Graph;
use felm_lexer::{Token, Tokens, tokens};
use felm_meaning::Plan;
use felm_parser::parse;
use felm_printer::{StageCause, Status};
use felm_script::read_script;
use felm_stage::{Staged, stage_one};
use felm_syntax::Program;
use felm_term::{Inputs, Limits, Script};
use felm_types::{Checked, check};
use std::alloc::Global;

/// The tokens of a text.
fn read_tokens(alloc: Global, text: &[u8]) -> Result<Tokens, Status>
    ensures tokens { IfOk result (λ tokens. Tokenizes text.now (Whole tokens.items)) }
    ensures fault { IfErr result (OrMemory (IsProgramFault text.now)) }
{
    tokens(alloc, text).map_err(status_of_lex_fault)
}

/// The program that the tokens of a text are.
fn parse_tokens(alloc: Global, text: &[u8], tokens: &[Token]) -> Result<Program, Status>
    requires { Tokenizes text.now (Whole tokens.now) }
    ensures program { IfOk result (IsProgramText text.now) }
    ensures size { IfOk result (λ program. length program.inputs + binders program.main ≤ length text.now) }
    ensures fault { IfErr result (OrMemory (IsProgramFault text.now)) }
{
    match parse(alloc, text, tokens) {
        Ok(program) => Ok(program),
        Err(fault) => Err(status_of_parse_fault(fault)),
    }
}

/// The program of a text, before its types are checked.
fn read_program(alloc: Global, text: &[u8]) -> Result<Program, Status>
    ensures program { IfOk result (IsProgramText text.now) }
    ensures size { IfOk result (λ program. length program.inputs + binders program.main ≤ length text.now) }
    ensures fault { IfErr result (OrMemory (IsProgramFault text.now)) }
{
    let tokens = read_tokens(alloc, text)?;
    parse_tokens(alloc, text, tokens.as_slice())
}

/// The core term of a program, with its inputs.
fn check_program(alloc: Global, program: &Program) -> Result<Checked, Status>
    requires inputs { length program.now.inputs < 2 ^ 31 }
    requires binders { binders program.now.main < 2 ^ 31 }
    ensures term { IfOk result (λ checked. program_term program.now ≡ Some checked.term) }
    ensures inputs { IfOk result (λ checked. checked.inputs ≡ program.now.inputs) }
    ensures typed { OnOk result (IsTyped program.now) }
    ensures fault { IfErr result (OrMemory (IsCheckFault program.now)) }
{
    check(alloc, program).map_err(status_of_type_fault)
}

/// The events of a script over these inputs.
fn read_events(alloc: Global, text: &[u8], inputs: &Inputs) -> Result<Script, Status>
    requires { length inputs.now.items < 2 ^ 31 }
    ensures events { IfOk result (λ script. script_of inputs.now.items text.now ≡ Ok script.items) }
    ensures fits { IfOk result (λ script. IsTrue (all_fit inputs.now.items script.items)) }
    ensures fault { IfErr result (OrMemory (IsEventsFault inputs.now.items text.now)) }
{
    read_script(alloc, text, inputs).map_err(status_of_script_fault)
}

/// The graph that a checked program reduces to.
fn graph_of(alloc: Global, checked: &Checked, limits: &Limits) -> Result<Graph, Status>
    ensures graph { IfOk result (IsStagedTerm checked.now.inputs checked.now.term limits.now.stage_steps) }
    ensures fault { IfErr result (OrMemory (IsTermFault checked.now.inputs checked.now.term limits.now.stage_steps)) }
{
    let cause = match stage_one(alloc, checked, limits.stage_steps)? {
        Staged::Graph { graph, .. } => return Ok(graph),
        Staged::Over => StageCause::Over,
        Staged::Large => StageCause::Large,
    };
    Err(Status::Stage { cause })
}

/// The plan of the text of a program and the text of a script, or why they have none.
///
/// The script is judged before stage one, since a wrong line costs less to find.
pub fn read_plan(
    alloc: Global,
    program: &[u8],
    script: &[u8],
    limits: &Limits,
) -> Result<Plan, Status>
    requires { length program.now ≤ 16777216 }
    ensures plan { IfOk result (λ plan. HavePlan program.now script.now limits.now.stage_steps (planned plan)) }
    ensures limits { IfOk result (λ plan. plan.limits ≡ limits.now) }
    ensures fault { IfErr result (OrMemory (IsPlanFault limits.now.stage_steps program.now script.now)) }
{
    let read = read_program(alloc, program)?;
    let checked = check_program(alloc, &read)?;
    let script = read_events(alloc, script, &checked.inputs)?;
    let graph = graph_of(alloc, &checked, limits)?;
    Ok(Plan::make(graph, script, *limits))
}
