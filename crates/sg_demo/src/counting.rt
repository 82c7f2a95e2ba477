//! What the gateway made of a round, counted.

ghost use Rattle.std.specs.Prelude.{◌≡◌, ◌≤◌, ◌+◌, ◌^◌, List, length, IfOk, OnOk, ℕ, slice_get};
ghost use Rattle.std.specs.List.{AllZip, AllByRecursion};
ghost use Rattle.sg_demo.specs.declared.summary.Summary as numbers;
ghost use Rattle.sg_table.specs.Batches.{told_of};
ghost use Rattle.sg_table.specs.Handling.{outcome_by};
ghost use Rattle.sg_demo.specs.Callers as model;
ghost use Rattle.sg_demo.specs.Counting.{counted, counted_of, peers_counted, plain_counted, sealed_counted, dropped_for, checked_by};
ghost use Rattle.sg_demo.specs.Standing.{CallerStandsFor, CountStands, IsHandled, IsWithin, told_as};

use crate::caller::Caller;
use crate::origin::Origin;
use crate::packets::filled;
use crate::summary::Summary;
use sg_base::{DropCause, NoMemory, Pad};
use sg_table::{Arrival, End};
use std::alloc::Global;

impl Summary {
    /// A datagram of a peer was dropped.
    fn count_dropped(&mut self, cause: DropCause)
        requires { IsWithin (2 ^ 63) self.old }
        ensures counted { self.new ≡ dropped_for cause self.old }
        ensures within { (n : ℕ) → IsWithin n self.old → IsWithin (n + 1) self.new }
    {
        self.arrived += 1;
        match cause {
            DropCause::Repeat => self.repeat += 1,
            DropCause::BadTag => self.badtag += 1,
            _ => self.other += 1,
        }
    }

    /// A datagram of a peer arrived.
    fn count_peers(&mut self, end: End)
        requires { IsWithin (2 ^ 63) self.old }
        ensures counted { (port : ℕ) (octets : List ℕ) → self.new ≡ peers_counted (outcome_by port octets end) self.old }
        ensures within { (n : ℕ) → IsWithin n self.old → IsWithin (n + 1) self.new }
    {
        match end {
            End::Out { .. } => {
                self.arrived += 1;
                self.out += 1;
            }
            End::Dropped(cause) => self.count_dropped(cause),
        }
    }

    /// The gateway has sealed a packet, which a peer opened or not.
    fn count_sealed(&mut self, opened: bool)
        requires { IsWithin (2 ^ 63) self.old }
        ensures counted { self.new ≡ sealed_counted opened self.old }
        ensures within { (n : ℕ) → IsWithin n self.old → IsWithin (n + 1) self.new }
    {
        self.sent += 1;
        if opened {
            self.opened += 1;
        }
    }
}

/// What the gateway made of a plain packet. What it has sealed is for the peer of the call at this position.
fn count_plain(
    alloc: Global,
    position: usize,
    pad: &Pad,
    end: End,
    callers: &mut [Caller],
    summary: &mut Summary,
) -> Result<(), NoMemory>
    requires within { IsWithin (2 ^ 63) summary.old }
    ensures counted { OnOk result ((cs : List model.Caller) (port : ℕ) → AllZip CallerStandsFor callers.old cs
        → CountStands callers.new summary.new (plain_counted position (outcome_by port pad.now end) (record { callers = cs; summary = summary.old }))) }
    ensures size { length callers.new ≡ length callers.old }
    ensures within { (n : ℕ) → IsWithin n summary.old → IsWithin (n + 1) summary.new }
{
    match end {
        End::Dropped(_) => Ok(()),
        End::Out { .. } => {
            let opened = check(alloc, position, pad, callers)?;
            summary.count_sealed(opened);
            Ok(())
        }
    }
}

/// Whether the peer of the call at this position opens a datagram.
fn check(
    alloc: Global,
    position: usize,
    pad: &Pad,
    callers: &mut [Caller],
) -> Result<bool, NoMemory>
    ensures checked { IfOk result (λ opened. (cs : List model.Caller) (s : numbers.Summary) → AllZip CallerStandsFor callers.old cs
        → CountStands callers.new (sealed_counted opened s) (checked_by (slice_get cs position) position pad.now (record { callers = cs; summary = s }))) }
    ensures size { length callers.new ≡ length callers.old }
{
    if position >= callers.len() {
        return Ok(false);
    }
    let pad = filled(alloc, pad.octets())?;
    Ok(callers[position].opens(pad))
}

/// What became of one arrival; of one that isn't handled nothing is counted.
fn count(
    alloc: Global,
    origin: Origin,
    arrival: &Arrival,
    callers: &mut [Caller],
    summary: &mut Summary,
) -> Result<(), NoMemory>
    requires within { IsWithin (2 ^ 63) summary.old }
    ensures counted { OnOk result ((cs : List model.Caller) → AllZip CallerStandsFor callers.old cs → IsHandled arrival.now
        → CountStands callers.new summary.new (counted_of origin (told_as arrival.now) (record { callers = cs; summary = summary.old }))) }
    ensures size { length callers.new ≡ length callers.old }
    ensures within { (n : ℕ) → IsWithin n summary.old → IsWithin (n + 1) summary.new }
{
    match (&arrival.pad, arrival.end) {
        (Some(pad), Some(end)) => match origin {
            Origin::Peer => {
                summary.count_peers(end);
                Ok(())
            }
            Origin::Plain(position) => { count_plain(alloc, position, pad, end, callers, summary) }
        },
        _ => Ok(()),
    }
}

/// What became of each arrival, in order.
pub fn count_all(
    alloc: Global,
    origins: &[Origin],
    arrivals: &[Arrival],
    callers: &mut [Caller],
    summary: &mut Summary,
) -> Result<(), NoMemory>
    requires within { IsWithin (2 ^ 62) summary.old }
    requires few { length arrivals.now ≤ 512 }
    ensures counted { OnOk result ((cs : List model.Caller) → AllZip CallerStandsFor callers.old cs → AllByRecursion IsHandled arrivals.now
        → CountStands callers.new summary.new (counted origins.now (told_of arrivals.now) (record { callers = cs; summary = summary.old }))) }
    ensures size { length callers.new ≡ length callers.old }
    ensures within { (n : ℕ) → IsWithin n summary.old → IsWithin (n + 512) summary.new }
{
    for place in 0..origins.len().min(arrivals.len()) {
        count(alloc, origins[place], &arrivals[place], callers, summary)?;
    }
    Ok(())
}
