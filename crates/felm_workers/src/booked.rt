ghost use Rattle.std.specs.Prelude.{◌≡◌, ◌<◌, ◌^◌, is_some};
ghost use Rattle.felm_meaning.specs.Outcomes.{sent_of};

use crate::tally::Tally;
use felm_engine::{Bench, Claim, Deposit, Fed};
use felm_meaning::{Done, Outcome};
use felm_term::Memory;
use std::sync::ledger::{Book, Ledger, Share};

/// A bench with the book of what workers settled on it.
#[derive(Drop)]
pub struct Booked<B: Bench, L: Ledger> {
    bench: B,
    book: Book<L>,
    ghost exact: { B.settled bench ≡ book.total },
}

impl<B: Bench, L: Ledger> Booked<B, L> {
    pub fn make(bench: B, book: Book<L>) -> Booked<B, L>
        requires { B.settled bench ≡ book.total }
    {
        Booked { bench, book }
    }

    /// Enters one event, a value that waits at an async first. False where none can come in now.
    pub fn feed(&mut self) -> Result<bool, Memory> {
        if is_in(self.bench.enter_next()?) {
            return Ok(true);
        }
        Ok(is_in(self.bench.feed()?))
    }

    /// Claims the turn of the least ready node.
    pub fn claim(&mut self) -> Result<Claim, Memory> {
        self.bench.claim_next()
    }

    /// Deposits a turn. A message that this settles is booked to the worker.
    pub fn settle(&mut self, done: Done, tally: &mut Tally<L>) -> Result<(), Memory> {
        let Booked { bench, book } = self;
        let Tally { share, count } = tally;
        // The worker's count is at most the book's total, which is the bench's count, and that fits.
        book.audit(share);
        let _settled = bench.turns_settled();
        let sends = sends(&done);
        match bench.deposit(done)? {
            Deposit::Settled => {
                if sends {
                    book.add(share, 1);
                    *count += 1;
                }
            }
            Deposit::Reopened => {}
        }
        Ok(())
    }

    /// Whether a turn over its budget was deposited.
    pub fn is_stopped(&self) -> bool {
        self.bench.stopped().is_some()
    }

    /// Whether no turn is out.
    pub fn rests(&self) -> bool {
        self.bench.turns_out() == 0
    }

    /// The bench, whose settled count is the sum of all shares.
    pub fn close(self, all: &mut Share<L>) -> B
        requires { all.old.parts ≡ L.parts }
        ensures exact { B.settled result ≡ all.new.amount }
        ensures same { all.new.amount ≡ all.old.amount }
        ensures bound { all.old.amount < 2 ^ 38 }
    {
        let Booked { bench, mut book } = self;
        book.audit(all);
        let _settled = bench.turns_settled();
        bench
    }
}

fn is_in(fed: Fed) -> bool {
    matches!(fed, Fed::At { .. })
}

fn sends(done: &Done) -> bool
    ensures { result ≡ is_some (sent_of done.now.outcome) }
{
    matches!(done.outcome(), Outcome::Sent(_))
}
