ghost use Rattle.std.specs.Prelude.{◌≡◌};

use std::sync::ledger::{Ledger, Share};

/// How many messages a worker settled, with its part of the ledger, which has as many.
#[derive(Drop)]
pub struct Tally<L: Ledger> {
    pub share: Share<L>,
    pub count: u64,
    ghost one_part: { share.parts ≡ 1 },
    ghost counted: { share.amount ≡ count },
}

impl<L: Ledger> Tally<L> {
    /// The tally of a worker that has settled nothing.
    pub fn make(share: Share<L>) -> Tally<L>
        requires { (share.parts ≡ 1) × (share.amount ≡ 0) }
    {
        Tally { share, count: 0 }
    }
}
