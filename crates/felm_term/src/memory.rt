ghost use Rattle.std.specs.Prelude.{◌≡◌, IfOk};

use std::alloc::Global;
use thiserror::Error;

/// There was no memory.
#[derive(Clone, Copy, Debug, PartialEq, Eq, Error)]
#[error("out of memory")]
pub struct Memory;

/// The item in a box.
pub fn boxed<T: Drop>(alloc: Global, item: T) -> Result<Box<T>, Memory>
    ensures { IfOk result (λ boxed. boxed.value ≡ item) }
{
    match Box::new(alloc, item) {
        Ok(boxed) => Ok(boxed),
        Err(_) => Err(Memory),
    }
}
