//! Lanes that workers drain side by side.
#![tactic(auto)]

ghost use Rattle.std.specs.Prelude.{◌≡◌, ℕ, ◌<◌, length, slice_index_or};

use std::thread;
use std::thread::Threads;

/// Something that one worker at a time drains. What `drain` does is a relation between the lane before and
/// the lane after.
pub trait Lane {
    ghost drained: { Self → Self → Type 0 };

    fn drain(&mut self)
        ensures { drained self.old self.new };
}

/// What each worker passes before it drains a lane. It promises only to return.
pub trait Gate {
    fn enter(&self, lane: usize);
}

/// A gate that does nothing.
#[derive(Drop)]
pub struct OpenGate;

impl Gate for OpenGate {
    fn enter(&self, _lane: usize) {}
}

/// Drains each lane once, whatever the gate does.
///
/// The lanes are cut in their order into runs of one length, which is their number divided by `workers` and
/// rounded up; the last run may be shorter. The runs are drained at once, each in order, in a thread of
/// its own where one can be made. Before a lane is drained the gate is entered with the lane's place.
pub fn drain_all<R: Threads + Sync, L: Lane + Send, G: Gate + Sync>(
    rt: &R,
    lanes: &mut [L],
    workers: usize,
    gate: &G,
)
    requires { 0 < workers }
    ensures size { length lanes.new ≡ length lanes.old }
    ensures each { (i : ℕ) (d : L) → i < length lanes.old → L.drained (slice_index_or lanes.old i d) (slice_index_or lanes.new i d) }
{
    thread::for_each_mut(
        rt,
        lanes,
        workers,
        &|place, lane| {
            gate.enter(place);
            lane.drain();
        },
    );
}
