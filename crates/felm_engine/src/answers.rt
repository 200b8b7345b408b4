ghost use Rattle.std.specs.Prelude.{◌≡◌};
ghost use Rattle.felm_engine.specs.Bench.{fed_of};

use felm_meaning::Turn;

/// What the entry of an event answers.
#[derive(Clone, Copy, Debug, PartialEq, Eq)]
pub enum Entered {
    /// The event stands in the journal at this position, counted from 1.
    At { position: u64 },
    /// An edge of some source is full.
    NoRoom,
    /// The journal is as long as it may be.
    Full,
}

/// What a claim of a turn answers.
#[derive(Debug, Drop)]
pub enum Claim {
    /// The turn, which is now out.
    Got(Turn),
    /// No turn is ready there.
    NotReady,
}

/// What a deposit of a computed turn answers.
#[derive(Clone, Copy, Debug, PartialEq, Eq)]
pub enum Deposit {
    /// It was the turn that is out, and is settled.
    Settled,
    /// It was another one. The node's turn is free again.
    Reopened,
}

/// The turn whose call took more steps than its budget.
#[derive(Clone, Copy, Debug, PartialEq, Eq)]
pub struct Stop {
    pub node: u32,
    /// Counted from 1.
    pub position: u64,
}

/// What the feed of a script event, or the entry of a value that waits at an async, answers.
#[derive(Clone, Copy, Debug, PartialEq, Eq)]
pub enum Fed {
    /// The event stands in the journal at this position, counted from 1.
    At { position: u64 },
    /// The script has no further event.
    NoneLeft,
    /// No value waits.
    NoneWaiting,
    /// An edge of some source is full.
    NoRoom,
    /// The journal is as long as it may be.
    Full,
}

impl From<Entered> for Fed {
    ghost from_gives = { λ entered fed. fed ≡ fed_of entered };

    fn from(entered: Entered) -> Fed {
        match entered {
            Entered::At { position } => Fed::At { position },
            Entered::NoRoom => Fed::NoRoom,
            Entered::Full => Fed::Full,
        }
    }
}
