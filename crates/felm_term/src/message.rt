ghost use Rattle.std.specs.Prelude.{◌≡◌, IfOk, IsOk};
ghost use Rattle.felm_term.specs.Values.{value_of, IsPlain};

use crate::list::Items;
use crate::memory::Memory;
use crate::value::Value;
use std::fmt;

/// What a node sends for one event. Both kinds carry the signal's present value.
#[derive(Debug, Drop)]
pub enum Message {
    /// The signal has this value now, also where it had an equal one before.
    Change(Value),
    /// The signal still has this value.
    NoChange(Value),
}

/// Messages in order.
pub type Messages = Items<Message>;

impl Message {
    /// A copy. A message without a function is always copied.
    pub fn copy(&self) -> Result<Message, Memory>
        ensures value { IfOk result (λ copy. copy ≡ self.now) }
        ensures plain { IsPlain (value_of self.now) → IsOk result }
    {
        match self {
            Message::Change(value) => Ok(Message::Change(value.copy()?)),
            Message::NoChange(value) => Ok(Message::NoChange(value.copy()?)),
        }
    }
}

impl Default for Message {
    ghost use Rattle.felm_term.specs.declared.message.Message.TheVariants.{NoChange};
    ghost use Rattle.felm_term.specs.declared.value.Value.TheVariants as value;

    ghost is_default = { λ message. message ≡ NoChange value.Unit };

    // A fixed vector of messages has it in its unused places.
    fn default() -> Self {
        Message::NoChange(Value::Unit)
    }
}

impl fmt::Display for Message {
    ghost use Rattle.std.specs.Prelude.{Some};
    ghost use Rattle.felm_term.specs.Text.{message_text};

    ghost output = { λ message. Some (message_text message) };

    fn fmt<W: fmt::Write>(&self, f: &mut fmt::Formatter<W>) -> fmt::Result {
        match self {
            Message::Change(value) => write!(f, "change {value}"),
            Message::NoChange(value) => write!(f, "same {value}"),
        }
    }
}
