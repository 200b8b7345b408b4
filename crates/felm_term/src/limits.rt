ghost use Rattle.std.specs.Prelude.{◌≤◌};

/// Limits of a run.
#[derive(Clone, Copy, Debug, PartialEq, Eq)]
pub struct Limits {
    /// Threads that take turns, 1 to 16.
    pub workers: u32,
    /// Reduction steps that one turn may take, 1 to 1,000,000,000.
    pub turn_steps: u64,
    /// Reduction steps that stage one may take, 1 to 1,000,000,000.
    pub stage_steps: u64,
    /// Messages that one edge may hold, 1 to 1,024.
    pub edge: u32,
    /// Events that a journal may have, 1 to 16,777,216.
    pub journal: u64,
    ghost workers_in_range: { (1 ≤ workers) × (workers ≤ 16) },
    ghost turn_steps_in_range: { (1 ≤ turn_steps) × (turn_steps ≤ 1000000000) },
    ghost stage_steps_in_range: { (1 ≤ stage_steps) × (stage_steps ≤ 1000000000) },
    ghost edge_in_range: { (1 ≤ edge) × (edge ≤ 1024) },
    ghost journal_in_range: { (1 ≤ journal) × (journal ≤ 16777216) },
}

impl Limits {
    /// The limits of a command that names none.
    pub const DEFAULT: Limits = Limits {
        workers: 2,
        turn_steps: 10_000,
        stage_steps: 100_000,
        edge: 16,
        journal: 1_048_576,
    };
}
