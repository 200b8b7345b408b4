//! Workers on a bench in memory.
mod line;
mod looks;

ghost use Rattle.std.specs.Prelude.{◌≡◌, ◌≤◌};

use super::{FreeGate, Gate, MeetGate, Shares, run_bench};
use felm_engine::Bench;
use felm_term::Memory;
use line::{Line, Shape, Trouble, Watch};
use std::alloc::Global;
use std::process::Abort;
use std::sync::atomic::{AtomicU64, Ordering};
use std::sync::{Arc, Wait};
use std::thread;
use std::thread::Threads;

// Counts who passes.
#[derive(Drop)]
struct CountingGate {
    passes: AtomicU64,
}

impl Gate for CountingGate {
    fn pass<R: Wait>(&self, _rt: &R, _node: u32, _position: u64) {
        self.passes.fetch_add(1, Ordering::SeqCst);
    }
}

// Holds the first turn until the feeder has looked again. Somebody woke it, so the other of two
// workers sleeps then. At the later turns two workers meet.
#[derive(Drop)]
struct HoldingGate {
    watch: Arc<Watch>,
    meet: MeetGate,
}

impl Gate for HoldingGate {
    fn pass<R: Wait>(&self, rt: &R, node: u32, position: u64) {
        if node == 1 && position == 1 {
            for _ in 0..10_000_000u32 {
                if self.watch.looked_again() {
                    break;
                }
                thread::yield_now();
            }
        }
        self.meet.pass(rt, node, position);
    }
}

fn watch(alloc: Global) -> Result<Arc<Watch>, Memory> {
    match Arc::new(alloc, Watch::make()) {
        Ok(watch) => Ok(watch),
        Err(_) => Err(Memory),
    }
}

fn again(watch: &Arc<Watch>) -> Result<Arc<Watch>, Memory> {
    match Arc::try_clone(watch) {
        Ok(watch) => Ok(watch),
        Err(_) => Err(Memory),
    }
}

// A line after the work of so many workers, with their shares, of which there is one each.
fn worked<G: Gate + Sync, R: Abort + Threads + Wait + Sync>(
    rt: &R,
    alloc: Global,
    shape: Shape,
    watch: Arc<Watch>,
    workers: u32,
    gate: &G,
) -> Result<(Line, Shares), Memory> {
    assert!(rt; 1 <= workers && workers <= 16);
    let line = Line::make(alloc, shape, watch)?;
    let (line, shares) = run_bench(rt, alloc, line, workers, gate)?;
    assert_eq!(rt; shares.as_slice().len(), workers as usize);
    assert_eq!(rt; shares.total(), line.turns_settled());
    Ok((line, shares))
}

// Nodes in a line, an edge's room, events, with no trouble.
fn plain(nodes: u32, edge: u64, events: u64) -> Shape {
    Shape {
        nodes,
        edge,
        events,
        trouble: Trouble::Nothing,
        call: 1,
    }
}

// On edges with room for one message the feeder and a single worker have to wake each other at
// every event.
#[test]
fn every_turn_passes_the_gate_and_is_settled(rt: HostRuntime) -> Result<(), Memory> {
    let shapes = [
        (plain(1, 1, 0), 0),
        (plain(0, 1, 200), 0),
        (plain(1, 1, 50), 50),
        (plain(7, 1, 20), 140),
        (plain(150, 16, 20), 3_000),
    ];
    for (shape, turns) in shapes {
        for workers in [1, 2, 4, 16] {
            let gate = CountingGate {
                passes: AtomicU64::new(0),
            };
            let (line, shares) = worked(
                &rt,
                rt.alloc(),
                shape,
                watch(rt.alloc())?,
                workers,
                &gate,
            )?;
            assert!(&rt; line.is_done(), "{workers} on {shape:?}");
            assert_eq!(&rt; shares.total(), turns, "{workers} on {shape:?}");
            let passes = gate.passes.load(Ordering::SeqCst);
            assert_eq!(&rt; passes, turns, "{workers} on {shape:?}");
        }
    }
    Ok(())
}

#[test]
fn a_reopened_turn_is_done_again_and_counts_once(rt: HostRuntime) -> Result<(), Memory> {
    for workers in [1, 16] {
        let shape = Shape {
            trouble: Trouble::Reopening,
            call: 5,
            ..plain(3, 2, 10)
        };
        let gate = CountingGate {
            passes: AtomicU64::new(0),
        };
        let (line, shares) = worked(&rt, rt.alloc(), shape, watch(rt.alloc())?, workers, &gate)?;
        assert!(&rt; line.is_done() && line.was_struck());
        assert_eq!(&rt; shares.total(), 30);
        assert_eq!(&rt; gate.passes.load(Ordering::SeqCst), 31);
    }
    Ok(())
}

#[test]
fn want_of_memory_and_a_stop_end_the_work(rt: HostRuntime) -> Result<(), Memory> {
    let troubles = [
        Trouble::NoMemoryToEnter,
        Trouble::NoMemoryToFeed,
        Trouble::NoMemoryToClaim,
        Trouble::NoMemoryToDeposit,
        Trouble::Stopping,
    ];
    for trouble in troubles {
        for (workers, call) in [(1, 1), (1, 7), (2, 4), (16, 1), (16, 7)] {
            let shape = Shape {
                trouble,
                call,
                ..plain(5, 2, 100)
            };
            let (line, _shares) = worked(
                &rt,
                rt.alloc(),
                shape,
                watch(rt.alloc())?,
                workers,
                &FreeGate,
            )?;
            assert!(&rt; line.was_struck(), "{workers} on {shape:?}");
            assert!(&rt; !line.is_done(), "{workers} on {shape:?}");
        }
    }
    Ok(())
}

// The first turn is held until the feeder has looked again, so the work may not end while a turn is
// out, though no event is left and none is ready.
#[test]
fn the_work_goes_on_while_a_turn_is_out(rt: HostRuntime) -> Result<(), Memory> {
    let watched = watch(rt.alloc())?;
    let gate = HoldingGate {
        watch: again(&watched)?,
        meet: MeetGate::make(0, 0),
    };
    let (line, shares) = worked(&rt, rt.alloc(), plain(3, 2, 1), watched, 2, &gate)?;
    assert!(&rt; gate.watch.looked_again() && line.is_done());
    assert_eq!(&rt; shares.total(), 3);
    Ok(())
}

// While the first turn is held the other worker falls asleep. So it has to be woken for one of the
// two turns that are ready after it.
#[test]
fn two_workers_meet(rt: HostRuntime) -> Result<(), Memory> {
    for _ in 0..20 {
        let watched = watch(rt.alloc())?;
        let gate = HoldingGate {
            watch: again(&watched)?,
            meet: MeetGate::make(1, 2),
        };
        assert!(&rt; !gate.meet.met());
        let (line, shares) = worked(&rt, rt.alloc(), plain(2, 2, 2), watched, 2, &gate)?;
        assert!(&rt; gate.meet.met() && gate.watch.looked_again() && line.is_done());
        assert_eq!(&rt; shares.total(), 4);
    }
    Ok(())
}
