use felm_term::{Events, Messages, Value};

/// What a run was: its events, and what the shown node sent.
#[derive(Debug, Drop)]
pub struct History {
    /// The value of the shown node before the first event.
    pub default: Value,
    /// The events that entered the graph.
    pub journal: Events,
    /// The messages of the shown node, one an event.
    pub outputs: Messages,
}

/// How a run ends.
#[derive(Debug, Drop)]
pub enum RunEnd {
    /// Every event entered, and every message was sent.
    Complete {
        history: History,
    },
    /// The call of this node at this position takes more steps than a turn may. Position 0 stands
    /// for its default.
    Stopped {
        journal: Events,
        node: u32,
        position: u64,
    },
    /// The journal is full, and an event was still to enter.
    Full {
        history: History,
    },
}
