use crate::booked::Booked;
use crate::gate::Gate;
use crate::hand::Hand;
use crate::queue::Queue;
use crate::shared::{Next, Shared};
use crate::sleepers::Wake;
use crate::tally::Tally;
use felm_engine::Bench;
use felm_term::Memory;
use std::alloc::Global;
use std::sync::ledger::Ledger;
use std::sync::{Condvar, Mutex, Wait};

/// What the workers and the feeder share, and where each side sleeps.
#[derive(Drop)]
pub struct Pool<B: Bench + Drop, L: Ledger, Q: Queue + Drop> {
    pub shared: Mutex<Shared<B, L, Q>>,
    workers: Condvar,
    feeder: Condvar,
}

impl<B: Bench + Drop, L: Ledger, Q: Queue + Drop> Pool<B, L, Q> {
    pub fn make(shared: Shared<B, L, Q>) -> Pool<B, L, Q> {
        Pool {
            shared: Mutex::new(shared),
            workers: Condvar::new(),
            feeder: Condvar::new(),
        }
    }

    /// What is under the lock, when all workers have ended.
    pub fn into_booked(self) -> Booked<B, L> {
        let Pool { shared, .. } = self;
        let Shared { booked, .. } = shared.into_inner();
        booked
    }

    /// Works until the work has ended.
    pub fn work<G: Gate, R: Wait>(
        &self,
        rt: &R,
        alloc: Global,
        gate: &G,
        tally: &mut Tally<L>,
    ) -> Result<(), Memory> {
        let mut hand = Hand::make(alloc)?;
        for _ in rt.forever() {
            if !self.next_turns(rt, &mut hand, tally) {
                break;
            }
            let computed = hand.compute_all(rt, alloc, gate);
            if computed.is_err() {
                self.shared.lock(rt).settle(&mut hand, tally);
                return computed;
            }
        }
        Ok(())
    }

    // Deposits what the worker has done and takes its next turns, in one holding of the lock. Sleeps
    // where none is ready. False where the work has ended.
    fn next_turns<R: Wait>(&self, rt: &R, hand: &mut Hand, tally: &mut Tally<L>) -> bool {
        let mut shared = self.shared.lock(rt);
        shared.settle(hand, tally);
        for _ in rt.forever() {
            match shared.give(hand) {
                Next::Go(wake) => {
                    drop(shared);
                    self.wake(wake);
                    return true;
                }
                Next::Sleep(wake) => {
                    self.wake(wake);
                    shared = self.workers.wait(rt, shared);
                    shared.worker_woke();
                }
                Next::End => break,
            }
        }
        false
    }

    /// Enters events until there is nothing more to do.
    pub fn feed<R: Wait>(&self, rt: &R) {
        let mut shared = self.shared.lock(rt);
        for _ in rt.forever() {
            match shared.feed() {
                Next::Go(wake) => {
                    drop(shared);
                    self.wake(wake);
                    shared = self.shared.lock(rt);
                }
                Next::Sleep(wake) => {
                    self.wake(wake);
                    shared = self.feeder.wait(rt, shared);
                }
                Next::End => break,
            }
        }
        drop(shared);
        self.end(rt);
    }

    /// Ends the work, and wakes all to tell them.
    pub fn end<R: Wait>(&self, rt: &R) {
        self.shared.lock(rt).end();
        self.workers.notify_all();
        self.feeder.notify_all();
    }

    fn wake(&self, wake: Wake) {
        if wake.worker {
            self.workers.notify_one();
        }
        if wake.feeder {
            self.feeder.notify_one();
        }
    }
}
