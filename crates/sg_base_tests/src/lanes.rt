//! Lanes: they are drained by workers side by side, behind the gate.

use sg_lanes::{Gate, Lane, OpenGate, drain_all};
use std::alloc::Global;
use std::process::Abort;
use std::sync::atomic::{AtomicBool, Ordering};

/// How often one who waits looks before it gives up.
const LOADS: u64 = 1_000_000_000;

/// Raises one's own flag, and looks for the other's until it is up or this was done `LOADS` times.
fn meets(mine: &AtomicBool, other: &AtomicBool) -> bool {
    mine.store(true, Ordering::SeqCst);
    for _ in 0..LOADS {
        if other.load(Ordering::SeqCst) {
            return true;
        }
    }
    false
}

/// A lane that waits in its `drain` until another lane is in its own.
#[derive(Drop)]
struct Waiting<'a> {
    mine: &'a AtomicBool,
    other: &'a AtomicBool,
    met: bool,
}

impl<'a> Lane for Waiting<'a> {
    ghost drained = { λ old new. Unit {0} };

    fn drain(&mut self) {
        self.met = meets(self.mine, self.other);
    }
}

/// A gate that notes the places that it was entered with.
#[derive(Drop)]
struct Noting<'a>(&'a [AtomicBool]);

impl<'a> Gate for Noting<'a> {
    fn enter(&self, lane: usize) {
        if let Some(flag) = self.0.get(lane) {
            flag.store(true, Ordering::SeqCst);
        }
    }
}

/// A lane that tells whether the gate had been entered for it when it was drained.
#[derive(Drop)]
struct Guarded<'a> {
    noted: &'a AtomicBool,
    was_entered: bool,
}

impl<'a> Lane for Guarded<'a> {
    ghost drained = { λ old new. Unit {0} };

    fn drain(&mut self) {
        self.was_entered = self.noted.load(Ordering::SeqCst);
    }
}

/// Four flags that are down.
fn flags(rt: &impl Abort, alloc: Global) -> Vec<AtomicBool> {
    let mut flags = Vec::new(alloc);
    for _ in 0..4 {
        flags.push(AtomicBool::new(false)).expect(rt, "memory");
    }
    flags
}

#[test]
fn two_lanes_meet(rt: HostRuntime) {
    let left = AtomicBool::new(false);
    let right = AtomicBool::new(false);
    let mut lanes = Vec::new(rt.alloc());
    for (mine, other) in [(&left, &right), (&right, &left)] {
        let lane = Waiting {
            mine,
            other,
            met: false,
        };
        lanes.push(lane).expect(&rt, "memory");
    }
    drain_all(&rt, lanes.as_mut_slice(), 2, &OpenGate);
    assert!(rt; lanes.iter().all(|lane| lane.met));
}

/// Lanes behind these flags.
fn lanes_behind<'a>(rt: &impl Abort, alloc: Global, noted: &'a [AtomicBool]) -> Vec<Guarded<'a>> {
    let mut lanes = Vec::new(alloc);
    for flag in noted {
        let lane = Guarded {
            noted: flag,
            was_entered: false,
        };
        lanes.push(lane).expect(rt, "memory");
    }
    lanes
}

#[test]
fn the_gate_comes_before_each_lane(rt: HostRuntime) {
    for workers in [1, 2, 3, 9] {
        let noted = flags(&rt, rt.alloc());
        let mut lanes = lanes_behind(&rt, rt.alloc(), &noted);
        drain_all(
            &rt,
            lanes.as_mut_slice(),
            workers,
            &Noting(noted.as_slice()),
        );
        for lane in &lanes {
            assert!(rt; lane.was_entered);
        }
    }
}
