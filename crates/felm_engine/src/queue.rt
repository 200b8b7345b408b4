ghost use Rattle.std.specs.Prelude.{◌≡◌, ◌<◌, ◌≤◌, [], length, drop, slice_get, Some, None, option_copied, IfOk, OnOk, OnErr, IsOk, IfSome, ◌^◌};
ghost use Rattle.felm_term.specs.Values.{IsPlain};
ghost use Rattle.felm_engine.specs.Queued.{QueueValue, put_value};

use circular_buffer::HeapCircularBuffer;
use felm_term::{Memory, Value};
use std::alloc::Global;
use std::marker::Model;

/// The changes of an async's inner signal that have no event yet, the oldest first. Contracts see
/// them with the room for more, and the value that is put next.
#[derive(Debug, Drop)]
pub struct Queue {
    ring: HeapCircularBuffer<Value>,
    prepared: Option<Value>,
}

impl Model for Queue {
    ghost use Rattle.std.specs.Prelude.{◌-◌, length};
    ghost use Rattle.felm_engine.specs.Queued.{QueueValue};

    ghost Value = { QueueValue };

    ghost use Rattle.std.specs.Coded.{codes};
    ghost use Rattle.felm_term.specs.Codes.{coded_term};

    ghost coded = { Prim.hlevel (codes, coded_term) };

    ghost view = { λ a. record { items = a.ring.items; spare = a.ring.capacity - length a.ring.items; prepared = a.prepared } };
}

impl Queue {
    /// A queue in which nothing waits, without room.
    pub fn make(alloc: Global) -> Result<Queue, Memory>
        ensures { IfOk result (λ queue. queue.items ≡ []) }
    {
        let ring = HeapCircularBuffer::with_capacity(alloc, 0).map_err(|_| Memory)?;
        Ok(Queue {
            ring,
            prepared: None,
        })
    }

    /// The value that has waited longest.
    pub fn first(&self) -> Option<&Value>
        ensures { option_copied result ≡ slice_get self.now.items 0 }
    {
        self.ring.front()
    }

    /// Makes room for so many values more. The values stay.
    pub fn reserve(&mut self, more: u64) -> Result<(), Memory>
        requires { more < 2 ^ 32 }
        ensures items { self.new.items ≡ self.old.items }
        ensures spare { self.old.spare ≤ self.new.spare }
        ensures ok { OnOk result (more ≤ self.new.spare) }
    {
        let capacity = self.ring.capacity();
        let wanted = self.ring.len() + more as usize;
        if capacity < wanted {
            let doubled = capacity.saturating_mul(2);
            self.ring.resize(wanted.max(doubled)).map_err(|_| Memory)?;
        }
        Ok(())
    }

    /// Prepares a value that is to be put next. It can't be refused where the value is no function.
    pub fn prepare(&mut self, value: &Value) -> Result<(), Memory>
        ensures ok { OnOk result (self.new ≡ record self.old { prepared = Some value.now }) }
        ensures err { OnErr result (self.new ≡ self.old) }
        ensures plain { IsPlain value.now → IsOk result }
    {
        self.prepared = Some(value.copy()?);
        Ok(())
    }

    /// Puts the prepared value at the end, where there is room for it.
    pub fn put(&mut self)
        requires { 0 < self.old.spare }
        ensures { IfSome self.old.prepared (λ v. self.new ≡ put_value self.old v) }
    {
        if let Some(value) = self.prepared.take() {
            let _ = self.ring.try_push_back(value);
        }
    }

    /// Takes the first value off. Its room stays.
    pub fn take_first(&mut self)
        ensures items { self.new.items ≡ drop 1 self.old.items }
        ensures spare { self.old.spare ≤ self.new.spare }
    {
        let _ = self.ring.pop_front();
    }
}
