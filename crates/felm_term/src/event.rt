ghost use Rattle.std.specs.Prelude.{◌≡◌, IfOk, IsOk};
ghost use Rattle.felm_term.specs.Values.{IsPlain};

use crate::list::Items;
use crate::memory::Memory;
use crate::value::Value;

/// A value that enters the graph at a source.
#[derive(Debug, Drop)]
pub struct Event {
    /// The source's node number.
    pub source: u32,
    /// What it carries, of the type of the source's values.
    pub value: Value,
}

/// Events in the order in which they entered the graph. Positions in it count from 1.
pub type Events = Items<Event>;

/// Events in the order in which the outside sends them.
pub type Script = Items<Event>;

impl Event {
    /// A copy. An event without a function is always copied.
    pub fn copy(&self) -> Result<Event, Memory>
        ensures value { IfOk result (λ copy. copy ≡ self.now) }
        ensures plain { IsPlain self.now.value → IsOk result }
    {
        Ok(Event {
            source: self.source,
            value: self.value.copy()?,
        })
    }
}
