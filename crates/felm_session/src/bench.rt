//! Sessions as benches, which workers share.
ghost use Rattle.std.specs.Prelude.{◌≡◌, ◌+◌, ◌<◌, ◌^◌, IfOk, OnErr};
ghost use Rattle.felm_engine.specs.Answers.{planned, ClaimedNextAs, SomeIsReady, DepositedAs, IsTurnOut, CarriesFunction, turns_out_at};
ghost use Rattle.felm_engine.specs.Bench.{settled_by};
ghost use Rattle.felm_engine.specs.Stops.{stop_of};
ghost use Rattle.felm_session.specs.SessionValue.{settled_in};
ghost use Rattle.felm_session.specs.Answers.{FedAs, EnteredNext, NeverFull};

use crate::session::Session;
use felm_engine::{Bench, Claim, Deposit, Entered, Fed, Stop};
use felm_meaning::Done;
use felm_term::Memory;

impl Bench for Session {
    ghost settled = { settled_in };

    /// Enters the script's next event.
    fn feed(&mut self) -> Result<Fed, Memory>
        ensures ok { IfOk result (FedAs self.old self.new) }
        ensures never_full { IfOk result (NeverFull (planned self.old.engine)) }
        ensures err { OnErr result (self.new ≡ self.old) }
        ensures settled { settled_in self.new ≡ settled_in self.old }
    {
        let Some(event) = self.next_event()? else {
            return Ok(Fed::NoneLeft);
        };
        self.engine.sound();
        match self.engine.dispatch(event.source, event.value)? {
            Entered::At { position } => {
                self.cursor += 1;
                Ok(Fed::At { position })
            }
            Entered::NoRoom => Ok(Fed::NoRoom),
            Entered::Full => Ok(Fed::Full),
        }
    }

    /// Enters the value that has waited longest at the least async at which any waits.
    fn enter_next(&mut self) -> Result<Fed, Memory>
        ensures ok { IfOk result (EnteredNext self.old self.new) }
        ensures never_full { IfOk result (NeverFull (planned self.old.engine)) }
        ensures err { OnErr result (self.new ≡ self.old) }
        ensures settled { settled_in self.new ≡ settled_in self.old }
    {
        self.legal();
        match self.least_waiting() {
            Some(node) => self.enter(node),
            None => Ok(Fed::NoneWaiting),
        }
    }

    /// Hands out the turn of the least node that is ready.
    fn claim_next(&mut self) -> Result<Claim, Memory>
        ensures ok { IfOk result (ClaimedNextAs self.old.engine self.new.engine) }
        ensures cursor { self.new.cursor ≡ self.old.cursor }
        ensures ready { OnErr result (SomeIsReady self.old.engine) }
        ensures err { OnErr result (self.new ≡ self.old) }
        ensures settled { settled_in self.new ≡ settled_in self.old }
    {
        self.engine.sound();
        self.engine.claim_next()
    }

    /// Takes back a computed turn: it is settled if it is out, and else its node's turn is free again.
    /// Only a message that carries a function may find no memory; then the turn stays out.
    fn deposit(&mut self, done: Done) -> Result<Deposit, Memory>
        ensures ok { IfOk result (DepositedAs self.old.engine done self.new.engine) }
        ensures cursor { self.new.cursor ≡ self.old.cursor }
        ensures out { OnErr result (IsTurnOut self.old.engine done.turn) }
        ensures function { OnErr result (CarriesFunction done.outcome) }
        ensures err { OnErr result (self.new ≡ self.old) }
        ensures settled { IfOk result (λ answer. settled_in self.new ≡ settled_in self.old + settled_by done.outcome answer) }
        ensures refused { OnErr result (settled_in self.new ≡ settled_in self.old) }
    {
        self.engine.sound();
        self.engine.deposit(done)
    }

    /// How many turns are out.
    fn turns_out(&self) -> u32
        ensures { result ≡ turns_out_at self.now.engine.position }
    {
        self.engine.turns_out()
    }

    /// How many messages of turns were settled.
    fn turns_settled(&self) -> u64
        ensures count { result ≡ settled_in self.now }
        ensures bound { result < 2 ^ 38 }
    {
        self.engine.turns_settled()
    }

    /// The first turn over its budget that was settled.
    fn stopped(&self) -> Option<Stop>
        ensures { stop_of result ≡ self.now.engine.position.stop }
    {
        self.engine.stopped()
    }
}
