//! Looks at what workers share, one after the other and without threads: whom each of them wakes.
ghost use Rattle.std.specs.Prelude.{◌≡◌};

use super::line::{Line, Shape, Trouble, Watch};
use crate::booked::Booked;
use crate::gate::FreeGate;
use crate::hand::Hand;
use crate::shared::{Next, Shared};
use crate::tally::Tally;
use felm_term::Memory;
use std::alloc::Global;
use std::collections::VecDeque;
use std::marker::Brand;
use std::process::Abort;
use std::sync::ledger::{Blank, Ledger};
use std::sync::{Arc, Wait};

// What comes next, in words.
fn told(next: Next) -> &'static str {
    match next {
        Next::Go(wake) => match (wake.worker, wake.feeder) {
            (false, false) => "goes on",
            (true, false) => "wakes a worker and goes on",
            (false, true) => "wakes the feeder and goes on",
            (true, true) => "wakes both and goes on",
        },
        Next::Sleep(wake) => match (wake.worker, wake.feeder) {
            (false, false) => "sleeps",
            (true, false) => "wakes a worker and sleeps",
            (false, true) => "wakes the feeder and sleeps",
            (true, true) => "wakes both and sleeps",
        },
        Next::End => "ends",
    }
}

// Two nodes in a line, two events and two workers.
fn looks<L: Ledger, R: Abort + Wait>(rt: &R, alloc: Global, blank: Blank) -> Result<(), Memory>
    requires name { blank.name ≡ L.name }
    requires parts { blank.parts ≡ L.parts }
    requires three { blank.parts ≡ 3 }
{
    let (book, mut all) = blank.open::<L>();
    let mut one = Tally::make(all.split_off(1, 0));
    let mut two = Tally::make(all.split_off(1, 0));
    let shape = Shape {
        nodes: 2,
        edge: 2,
        events: 2,
        trouble: Trouble::Nothing,
        call: 1,
    };
    let Ok(watch) = Arc::new(alloc, Watch::make()) else {
        return Err(Memory);
    };
    let Ok(claimed) = VecDeque::with_capacity(alloc, 16) else {
        return Err(Memory);
    };
    let line = Line::make(alloc, shape, watch)?;
    let mut shared = Shared::make(Booked::make(line, book), claimed, 2);
    let mut first = Hand::make(alloc)?;
    let mut second = Hand::make(alloc)?;
    // The second worker comes before any event.
    assert_eq!(rt; told(shared.give(&mut second)), "sleeps");
    assert_eq!(rt; told(shared.feed()), "wakes a worker and sleeps");
    // The first worker takes the only turn that is ready.
    assert_eq!(rt;
        told(shared.give(&mut first)),
        "wakes the feeder and goes on"
    );
    assert_eq!(rt; told(shared.feed()), "sleeps");
    shared.worker_woke();
    assert_eq!(rt;
        told(shared.give(&mut second)),
        "wakes the feeder and sleeps"
    );
    assert_eq!(rt; told(shared.feed()), "sleeps");
    first.compute_all(rt, alloc, &FreeGate)?;
    shared.settle(&mut first, &mut one);
    // Of the two turns that are ready now it takes one.
    assert_eq!(rt; told(shared.give(&mut first)), "wakes a worker and goes on");
    shared.worker_woke();
    assert_eq!(rt; told(shared.give(&mut second)), "goes on");
    first.compute_all(rt, alloc, &FreeGate)?;
    shared.settle(&mut first, &mut one);
    second.compute_all(rt, alloc, &FreeGate)?;
    shared.settle(&mut second, &mut two);
    assert_eq!(rt; told(shared.give(&mut first)), "goes on");
    first.compute_all(rt, alloc, &FreeGate)?;
    shared.settle(&mut first, &mut one);
    // All is done, which the feeder finds out.
    assert_eq!(rt;
        told(shared.give(&mut first)),
        "wakes the feeder and sleeps"
    );
    assert_eq!(rt; told(shared.feed()), "ends");
    assert!(rt; one.count == 3 && two.count == 1);
    Ok(())
}

#[test]
fn sleepers_are_woken_for_something(rt: HostRuntime) -> Result<(), Memory> {
    looks::<Brand, _>(&rt, rt.alloc(), Blank::new(3))
}
