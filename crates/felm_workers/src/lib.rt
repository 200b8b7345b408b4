//! Workers that share a run: they claim its turns, compute them side by side and deposit what they come to.
#![tactic(auto)]

ghost use Rattle.std.specs.Prelude.{◌≡◌, ◌≤◌, length, sum, IfOk};

mod booked;
mod crossing;
mod gate;
mod hand;
mod meet;
mod pool;
mod queue;
mod shared;
mod shares;
mod sleepers;
mod tally;
mod team;
#[cfg(test)]
mod tests;

use felm_engine::Bench;
use felm_meaning::Turn;
use felm_term::Memory;
pub use gate::{FreeGate, Gate};
pub use meet::MeetGate;
pub use shares::Shares;
use std::alloc::Global;
use std::collections::VecDeque;
use std::marker::Brand;
use std::sync::Wait;
use std::sync::ledger::Blank;
use std::thread::Threads;

/// Works on a bench with so many workers, and gives it back with how many messages each settled.
///
/// This thread enters events; each worker claims turns, passes the gate with each, computes it
/// outside the lock and deposits it. A worker that can't be started is left out, and where none can
/// be, nothing is done. The work ends when no event can be entered, no turn is ready and none is
/// out; at a stop; or when there was no memory for a feed, an entry, a claim, a turn or a deposit:
/// the bench comes back then too, with the turns that were claimed and not deposited still out.
/// `Memory` says that there was none before the first worker was started.
pub fn run_bench<B: Bench + Drop + Send, G: Gate + Sync, R: Threads + Wait + Sync>(
    rt: &R,
    alloc: Global,
    bench: B,
    workers: u32,
    gate: &G,
) -> Result<(B, Shares), Memory>
    requires workers { (1 ≤ workers) × (workers ≤ 16) }
    requires fresh { B.settled bench ≡ 0 }
    ensures shares { IfOk result (λ r. length r.1 ≡ workers) }
    ensures exact { IfOk result (λ r. sum r.1 ≡ B.settled r.0) }
{
    let places = workers.saturating_mul(hand::MOST_IN_HAND) as usize;
    let Ok(claimed) = VecDeque::with_capacity(alloc, places) else {
        return Err(Memory);
    };
    crossing::turns_cross();
    team::run::<B, G, Brand, VecDeque<Turn>, R>(
        rt,
        alloc,
        Blank::new(workers as u64 + 1),
        bench,
        claimed,
        workers,
        gate,
    )
}
