//! A plan from texts as they stand in a table.
ghost use Rattle.std.specs.Prelude.{◌≡◌, ◌≤◌, length, IfOk, IfErr};
ghost use Rattle.felm_plans.specs.Plans.{HavePlan, IsPlanFault, OrMemory, planned};

use felm_meaning::Plan;
use felm_plans::read_plan;
use felm_printer::{Status, Which};
use felm_term::Limits;
use std::alloc::Global;

/// The greatest length of a program's text, in bytes.
const LONGEST: usize = 16_777_216;

/// The plan of the text of a program and the text of a script, or why they have none: what
/// `felm_plans::read_plan` says of their bytes.
///
/// That call takes no program of more than 16,777,216 bytes, so that one is answered as too long.
pub fn plan_of_texts(
    alloc: Global,
    program: &str,
    script: &str,
    limits: &Limits,
) -> Result<Plan, Status>
    ensures plan { IfOk result (λ plan. HavePlan program.now script.now limits.now.stage_steps (planned plan)) }
    ensures limits { IfOk result (λ plan. plan.limits ≡ limits.now) }
    ensures fault { length program.now ≤ 16777216 → IfErr result (OrMemory (IsPlanFault limits.now.stage_steps program.now script.now)) }
{
    if program.len() > LONGEST {
        let which = Which::Program;
        return Err(Status::TooLong { which });
    }
    read_plan(alloc, program.as_bytes(), script.as_bytes(), limits)
}
