//! Plans from texts.
use felm_by_hand::plan_of_texts;
use felm_meaning::Plan;
use felm_term::Limits;
use std::alloc::Global;
use std::test::Fail;

/// What all programs begin with: node 0 is an input of numbers.
pub const X: &str = "input x : int = 0\n";

/// The plan of a program behind the head, and of a script.
pub fn plan(alloc: Global, program: &str, script: &str, limits: &Limits) -> Result<Plan, Fail> {
    let program = format!(in alloc; "{X}{program}")?;
    Ok(plan_of_texts(alloc, program.as_str(), script, limits)?)
}

// ---- limits

/// Edges with room for more than a row sends.
pub const WIDE: Limits = Limits {
    workers: 2,
    turn_steps: 10,
    stage_steps: 100,
    edge: 16,
    journal: 100,
};

/// Edges that hold one message.
pub const NARROW: Limits = Limits {
    workers: 2,
    turn_steps: 10,
    stage_steps: 100,
    edge: 1,
    journal: 10,
};

/// A journal of one event.
pub const SHORT: Limits = Limits {
    workers: 2,
    turn_steps: 10,
    stage_steps: 100,
    edge: 1,
    journal: 1,
};

/// A step more for each turn.
pub const LONG_TURNS: Limits = Limits {
    workers: 2,
    turn_steps: 11,
    stage_steps: 100,
    edge: 16,
    journal: 100,
};

// ---- programs

pub const TWO_LIFTS: &str = "main = lift1 (\\n:int. n + 2) (lift1 (\\n:int. n + 1) x)";

pub const APPLIED: &str =
    "main = foldp (\\f:int->int.\\s:int. f s) 0 (lift1 (\\n:int.\\s:int. s + n) x)";

/// Nodes 1 and 2 take eleven steps where the input isn't 0, and three where it is; node 3 adds them up.
pub const TWO_HEAVY: &str =
    "main = let heavy = \\s:signal int. lift1 (\\n:int. if n then n + 1 + 1 + 1 + 1 + 1 + 1 + 1 + 1 else 0) s in \
    lift2 (\\p:int.\\q:int. p + q) (heavy x) (heavy x)";
