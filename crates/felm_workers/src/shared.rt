use crate::booked::Booked;
use crate::hand::{Hand, MOST_IN_HAND, put};
use crate::queue::Queue;
use crate::sleepers::{Sleepers, Wake};
use crate::tally::Tally;
use felm_engine::{Bench, Claim};
use felm_term::Memory;
use std::sync::ledger::Ledger;

/// The feeder enters at most so many events before it lets the lock go.
const MOST_FED: u32 = 64;

/// What a worker or the feeder does next.
#[derive(Clone, Copy)]
pub enum Next {
    /// It goes on, after it has woken these.
    Go(Wake),
    /// It wakes these, and sleeps until it is woken.
    Sleep(Wake),
    /// The work has ended.
    End,
}

/// What the workers and the feeder share under one lock.
#[derive(Drop)]
pub struct Shared<B: Bench, L: Ledger, Q: Queue> {
    pub booked: Booked<B, L>,
    // Claimed turns that no worker has taken.
    claimed: Q,
    // How many workers there are, those included that still have to come.
    workers: u32,
    // The place of the worker that is left out.
    left_out: Option<u32>,
    sleepers: Sleepers,
    ended: bool,
}

impl<B: Bench, L: Ledger, Q: Queue> Shared<B, L, Q> {
    /// The queue has room for a full hand of each worker.
    pub fn make(booked: Booked<B, L>, claimed: Q, workers: u32) -> Shared<B, L, Q> {
        Shared {
            booked,
            claimed,
            workers,
            left_out: None,
            sleepers: Sleepers::make(),
            ended: false,
        }
    }

    /// The worker at this place can't be started.
    pub fn leave_out(&mut self, place: u32) {
        self.left_out = Some(place);
        self.workers = self.workers.saturating_sub(1);
    }

    /// Whether the worker at this place is to work.
    pub fn admits(&self, place: u32) -> bool {
        self.left_out != Some(place)
    }

    /// Ends the work.
    pub fn end(&mut self) {
        self.ended = true;
    }

    /// Deposits what a worker has done. The work ends at a stop, and where there is no memory.
    pub fn settle(&mut self, hand: &mut Hand, tally: &mut Tally<L>) {
        for _ in 0..MOST_IN_HAND {
            let Some(done) = hand.done.pop() else {
                break;
            };
            if self.booked.settle(done, tally).is_err() || self.booked.is_stopped() {
                self.ended = true;
            }
        }
    }

    /// Gives a worker its part of the turns that are ready.
    pub fn give(&mut self, hand: &mut Hand) -> Next {
        match self.try_give(hand) {
            Ok(next) => next,
            Err(_) => self.give_up(),
        }
    }

    fn try_give(&mut self, hand: &mut Hand) -> Result<Next, Memory> {
        if self.ended {
            return Ok(Next::End);
        }
        self.claim_all()?;
        if self.claimed.count() == 0 {
            let feeder = self.sleepers.wake_feeder();
            self.sleepers.add_worker();
            let worker = false;
            return Ok(Next::Sleep(Wake { worker, feeder }));
        }
        for _ in 0..self.part() {
            let Some(turn) = self.claimed.take() else {
                break;
            };
            put(&mut hand.turns, turn)?;
        }
        let worker = self.wake_worker();
        let feeder = self.sleepers.wake_feeder_in_time();
        Ok(Next::Go(Wake { worker, feeder }))
    }

    /// A worker that slept runs again.
    pub fn worker_woke(&mut self) {
        self.sleepers.remove_worker();
    }

    /// Enters the events for which there is room.
    pub fn feed(&mut self) -> Next {
        match self.try_feed() {
            Ok(next) => next,
            Err(_) => self.give_up(),
        }
    }

    fn try_feed(&mut self) -> Result<Next, Memory> {
        self.sleepers.remove_feeder();
        if self.ended || self.workers == 0 {
            return Ok(Next::End);
        }
        let fed = self.feed_some()?;
        if fed > 0 {
            self.sleepers.feeder_was_wanted();
        }
        self.claim_all()?;
        let worker = self.wake_worker();
        let feeder = false;
        if fed == MOST_FED {
            return Ok(Next::Go(Wake { worker, feeder }));
        }
        if self.claimed.count() == 0 && self.booked.rests() {
            return Ok(Next::End);
        }
        self.sleepers.add_feeder();
        Ok(Next::Sleep(Wake { worker, feeder }))
    }

    // Enters events until none can come in now, and answers how many it were.
    fn feed_some(&mut self) -> Result<u32, Memory> {
        for fed in 0..MOST_FED {
            if !self.booked.feed()? {
                return Ok(fed);
            }
        }
        Ok(MOST_FED)
    }

    // Claims what is ready, as long as it has a place in the queue.
    fn claim_all(&mut self) -> Result<(), Memory> {
        for _ in self.claimed.count()..self.places() {
            let Claim::Got(turn) = self.booked.claim()? else {
                break;
            };
            self.claimed.put(turn)?;
        }
        Ok(())
    }

    fn places(&self) -> usize {
        self.workers.saturating_mul(MOST_IN_HAND) as usize
    }

    // How many turns a worker takes: as many as leave the same for each of the others. So nobody
    // holds back what another one could compute meanwhile, however heavy a turn is.
    fn part(&self) -> usize {
        let workers = self.workers.max(1) as usize;
        (self.claimed.count() / workers).clamp(1, MOST_IN_HAND as usize)
    }

    // A worker is woken only where there is a turn for it. It wakes the next one.
    fn wake_worker(&mut self) -> bool {
        self.claimed.count() > 0 && self.sleepers.wake_worker()
    }

    fn give_up(&mut self) -> Next {
        self.ended = true;
        Next::End
    }
}
