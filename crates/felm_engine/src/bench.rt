ghost use Rattle.std.specs.Prelude.{◌≡◌, ℕ, ◌+◌, ◌<◌, ◌^◌, IfOk, OnErr};
ghost use Rattle.felm_engine.specs.Bench.{settled_by};

use crate::answers::{Claim, Deposit, Fed, Stop};
use felm_meaning::Done;
use felm_term::Memory;

/// A run that workers share: one thread feeds it events, and workers claim its turns, compute them
/// and deposit what they come to. It keeps the allocator that it was made with.
pub trait Bench {
    /// How many messages deposits have settled.
    ghost settled: { Self → ℕ };

    /// Enters the script's next event.
    fn feed(&mut self) -> Result<Fed, Memory>
        ensures { settled self.new ≡ settled self.old };

    /// Enters the first value that waits at an async, of the least one where any waits.
    fn enter_next(&mut self) -> Result<Fed, Memory>
        ensures { settled self.new ≡ settled self.old };

    /// Claims the turn of the least ready node, which is then out.
    fn claim_next(&mut self) -> Result<Claim, Memory>
        ensures { settled self.new ≡ settled self.old };

    /// Takes back a turn with what it comes to.
    fn deposit(&mut self, done: Done) -> Result<Deposit, Memory>
        ensures settled { IfOk result (λ answer. settled self.new ≡ settled self.old + settled_by done.outcome answer) }
        ensures refused { OnErr result (settled self.new ≡ settled self.old) };

    /// How many claimed turns are not deposited yet.
    fn turns_out(&self) -> u32;

    /// How many messages deposits have settled.
    fn turns_settled(&self) -> u64
        ensures count { result ≡ settled self.now }
        ensures bound { result < 2 ^ 38 };

    /// The first turn over its budget that was deposited.
    fn stopped(&self) -> Option<Stop>;
}
