ghost use Rattle.std.specs.Prelude.{◌≡◌, OnOk, OnErr};
ghost use Rattle.felm_io.specs.Calls.{no_calls, failing_at, next_fails, after_call};

use felm_term::Memory;
use std::alloc::Global;
use std::marker::Model;

/// The calls of an object in memory: how many there were, how many of them failed, and which ones
/// are to fail. Both numbers stay at the greatest u64.
#[derive(Debug, Drop)]
pub(crate) struct Calls {
    failing: Vec<u64>,
    made: u64,
    faults: u64,
}

impl Model for Calls {
    ghost use Rattle.felm_io.specs.Calls.{CallLog};

    ghost Value = { CallLog };

    ghost view = { λ a. record { failing = a.failing.items; made = a.made; faults = a.faults } };
}

impl Calls {
    pub(crate) fn make(alloc: Global) -> Self
        ensures { result ≡ no_calls }
    {
        Calls {
            failing: Vec::new(alloc),
            made: 0,
            faults: 0,
        }
    }

    /// Lets the call with this number, counted from 1, fail.
    pub(crate) fn fail_at(&mut self, call: u64) -> Result<(), Memory>
        ensures ok { OnOk result (self.new ≡ failing_at self.old call) }
        ensures err { OnErr result (self.new ≡ self.old) }
    {
        self.failing.push(call).map_err(|_| Memory)
    }

    /// Whether the next call is one that is to fail.
    pub(crate) fn next_fails(&self) -> bool
        ensures { result ≡ next_fails self.now }
    {
        let next = self.made.saturating_add(1);
        self.failing.iter().any(|call| *call == next)
    }

    /// How many calls failed.
    pub(crate) fn faults(&self) -> u64
        ensures { result ≡ self.now.faults }
    {
        self.faults
    }

    /// Counts one more call, and that it failed.
    pub(crate) fn count(&mut self, failed: bool)
        ensures { self.new ≡ after_call self.old failed }
    {
        self.made = self.made.saturating_add(1);
        if failed {
            self.faults = self.faults.saturating_add(1);
        }
    }
}
