//! A gate at which two workers wait for each other.

ghost use Rattle.std.specs.Prelude.{◌≤◌};

use sg_lanes::Gate;
use std::sync::atomic::{AtomicBool, Ordering};

/// How often one who waits looks before it gives up.
const LOADS: u64 = 1_000_000_000;

/// The workers of the first lane and of the last of 256 wait here for each other.
#[derive(Drop)]
pub struct Meeting {
    arrived: [AtomicBool; 2],
    met: [AtomicBool; 2],
}

impl Gate for Meeting {
    fn enter(&self, lane: usize) {
        match lane {
            0 => self.wait(0),
            255 => self.wait(1),
            _ => {}
        }
    }
}

impl Meeting {
    pub fn new() -> Meeting {
        Meeting {
            arrived: [AtomicBool::new(false), AtomicBool::new(false)],
            met: [AtomicBool::new(false), AtomicBool::new(false)],
        }
    }

    /// Whether each has seen the other's arrival.
    pub fn have_met(&self) -> bool {
        self.met[0].load(Ordering::SeqCst) && self.met[1].load(Ordering::SeqCst)
    }

    /// Tells one's own arrival, and looks for the other's until it is told or this was done `LOADS` times.
    fn wait(&self, mine: usize)
        requires { mine ≤ 1 }
    {
        self.arrived[mine].store(true, Ordering::SeqCst);
        for _ in 0..LOADS {
            if self.arrived[1 - mine].load(Ordering::SeqCst) {
                self.met[mine].store(true, Ordering::SeqCst);
                return;
            }
        }
    }
}
