ghost use Rattle.std.specs.Prelude.{◌≡◌, ◌<◌, ◌^◌, sum};

use std::marker::Model;

/// How many messages each worker settled, in the order of the workers. Contracts see a list.
#[derive(Debug, Drop)]
pub struct Shares {
    counts: Vec<u64>,
}

impl Model for Shares {
    ghost use Rattle.std.specs.Prelude.{List, ℕ, ◌<◌, ◌^◌, sum};

    ghost Value = { List ℕ };

    ghost view = { λ a. a.counts.items };

    ghost invariant = { λ a. sum a.counts.items < 2 ^ 64 };
}

impl Shares {
    /// These counts.
    pub(crate) fn make(counts: Vec<u64>) -> Shares
        requires { sum counts.items < 2 ^ 64 }
        ensures { result ≡ counts.items }
    {
        Shares { counts }
    }

    /// The count of each worker.
    pub fn as_slice(&self) -> &[u64]
        ensures { result.now ≡ self.now }
    {
        self.counts.as_slice()
    }

    /// Their sum.
    pub fn total(&self) -> u64
        ensures { result ≡ sum self.now }
    {
        self.counts.iter().sum()
    }
}
