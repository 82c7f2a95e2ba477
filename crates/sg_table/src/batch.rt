//! Many datagrams at once: each goes to its call, the calls handle theirs side by side, and what becomes of each
//! comes back in order of arrival.

ghost use Rattle.std.specs.Prelude.{◌≡◌, ◌<◌, ◌≤◌, ℕ, List, [], length, map, All, IsSome};
ghost use Rattle.std.specs.List.{AllByRecursion};
ghost use Rattle.sg_gateway.specs.World.{World};
ghost use Rattle.sg_leg.specs.declared.books.Books as declared_books;
ghost use Rattle.sg_table.specs.Batches.{octets_of, IsBatched};
ghost use Rattle.sg_table.specs.Octets.{AreOctets};
ghost use Rattle.sg_table.specs.Orders.{HaveEndedAlone, IsBatchedAs};
ghost use Rattle.sg_table.specs.Parts.{datagram_of, pushed_at, popped_at, waiting_of, is_taken, handed, all_handed, handled_first, given_back, HaveRoom, AreReady, IsGathered};
ghost use Rattle.sg_table.specs.Standing.{TableStandsFor};
ghost use Rattle.sg_table.specs.Values.{AreIndexed, AreQuiet, AreRising, shapes_of};
ghost use Rattle.sg_table.specs.declared.arrival.Arrival as declared;

use crate::arrival::Arrival;
use crate::laws::{every_order_gives_the_same, only_its_own_call_counts};
use crate::octets::holds_octets;
use crate::ports::place;
use crate::table::Table;
use sg_base::DropCause;
use sg_call::{Call, End};
use sg_gateway::{calls_in_order, each_call_by_itself};
use sg_lanes::{Gate, drain_all};
use std::thread::Threads;

impl Table {
    /// Handles up to 256 datagrams, as many calls at a time as there are workers: each arrival has the pad and the
    /// end that it would have if they came one at a time, in order, or in any other order that keeps each call's own.
    /// Where there are several each call is a lane, by rising slot; of lanes and workers no clause tells. It doesn't
    /// allocate.
    pub fn batch<R: Threads + Sync, G: Gate + Sync>(
        &mut self,
        rt: &R,
        arrivals: &mut [Arrival],
        workers: usize,
        gate: &G,
    )
        requires few { length arrivals.old ≤ 256 }
        requires pads { All (λ a. IsSome a.pad) arrivals.old }
        requires workers { 0 < workers }
        ensures batched { (w : World) → TableStandsFor self.old w → IsBatched w arrivals.old arrivals.new self.new }
        ensures alone { (w : World) → TableStandsFor self.old w → HaveEndedAlone w [] arrivals.old arrivals.new }
        ensures orders { (w : World) (others : List declared.Arrival) → TableStandsFor self.old w → IsBatchedAs w others arrivals.old arrivals.new self.new }
    {
        only_its_own_call_counts();
        every_order_gives_the_same();
        self.handle(rt, arrivals, workers, gate);
    }

    /// One arrival is handled alone, so that no call without one is looked at, and none at all where none came.
    fn handle<R: Threads + Sync, G: Gate + Sync>(
        &mut self,
        rt: &R,
        arrivals: &mut [Arrival],
        workers: usize,
        gate: &G,
    )
        requires few { length arrivals.old ≤ 256 }
        requires pads { All (λ a. IsSome a.pad) arrivals.old }
        requires workers { 0 < workers }
        ensures { (w : World) → TableStandsFor self.old w → IsBatched w arrivals.old arrivals.new self.new }
    {
        calls_in_order();
        if arrivals.len() <= 1 {
            self.in_turn(arrivals);
            return;
        }
        handle_all(
            &mut self.calls.by_slot,
            &self.places,
            self.calls.moment,
            rt,
            arrivals,
            workers,
            gate,
        );
    }
}

/// The arrivals are shared out, the calls handle theirs, as many at a time as there are workers, and all is taken
/// back. Calls in a slice hand out no allocator.
fn handle_all<R: Threads + Sync, G: Gate + Sync>(
    calls: &mut [Call],
    places: &[Option<u8>],
    now: u64,
    rt: &R,
    arrivals: &mut [Arrival],
    workers: usize,
    gate: &G,
)
    requires few { length arrivals.old ≤ 256 }
    requires pads { All (λ a. IsSome a.pad) arrivals.old }
    requires workers { 0 < workers }
    requires indexed { AreIndexed places.now (shapes_of calls.old) }
    requires rising { AreRising (shapes_of calls.old) }
    requires quiet { AreQuiet calls.old }
    ensures batched { (books : declared_books.Books) (w : World) → TableStandsFor (record { calls = calls.old; books = books; moment = now }) w
        → IsBatched w arrivals.old arrivals.new (record { calls = calls.new; books = books; moment = now }) }
    ensures shapes { shapes_of calls.new ≡ shapes_of calls.old }
{
    each_call_by_itself();
    share_out(calls, places, now, arrivals);
    drain_all(rt, calls, workers, gate);
    gather(calls, places, arrivals);
}

/// Hands each arrival to the call that has its port; what no call takes has its end.
fn share_out(calls: &mut [Call], places: &[Option<u8>], now: u64, arrivals: &mut [Arrival])
    requires few { length arrivals.old ≤ 256 }
    requires pads { All (λ a. IsSome a.pad) arrivals.old }
    requires indexed { AreIndexed places.now (shapes_of calls.old) }
    requires rising { AreRising (shapes_of calls.old) }
    requires quiet { HaveRoom 0 calls.old }
    ensures ready { (w : World) → AreReady now [] calls.old w → AreReady now (map datagram_of arrivals.old) calls.new w }
    ensures handed { arrivals.new ≡ all_handed (shapes_of calls.old) arrivals.old }
    ensures octets { AllByRecursion (λ a. AreOctets (octets_of a.pad)) arrivals.old }
    ensures shapes { shapes_of calls.new ≡ shapes_of calls.old }
{
    for (k, arrival) in arrivals.iter_mut().enumerate() {
        hand_out(calls, places, k as u32, now, arrival);
    }
}

/// Hands an arrival to the call that has its port.
fn hand_out(calls: &mut [Call], places: &[Option<u8>], number: u32, now: u64, arrival: &mut Arrival)
    requires pad { IsSome arrival.old.pad }
    requires indexed { AreIndexed places.now (shapes_of calls.old) }
    requires rising { AreRising (shapes_of calls.old) }
    requires room { HaveRoom 255 calls.old }
    ensures calls { calls.new ≡ map (pushed_at (waiting_of number now arrival.old)) calls.old }
    ensures arrival { arrival.new ≡ handed (is_taken arrival.old.port (shapes_of calls.old)) arrival.old }
    ensures octets { AreOctets (octets_of arrival.old.pad) }
{
    let Some(pad) = arrival.pad.take() else {
        unreachable!()
    };
    holds_octets(&pad);
    match place(calls, places, arrival.port) {
        None => {
            arrival.pad = Some(pad);
            arrival.end = Some(End::Dropped(DropCause::PortUnused));
        }
        Some(i) => calls[i].push(number, arrival.port, arrival.from, pad, now),
    }
}

/// Takes back what the calls handled, in order of arrival.
fn gather(calls: &mut [Call], places: &[Option<u8>], arrivals: &mut [Arrival])
    requires indexed { AreIndexed places.now (shapes_of calls.old) }
    requires rising { AreRising (shapes_of calls.old) }
    ensures gathered { (w : World) (came : List declared.Arrival) → arrivals.old ≡ all_handed (shapes_of calls.old) came → IsGathered w came calls.old arrivals.new calls.new }
    ensures shapes { shapes_of calls.new ≡ shapes_of calls.old }
{
    for arrival in arrivals.iter_mut() {
        take_back(calls, places, arrival);
    }
}

/// Takes back the first datagram that the call at the arrival's port has handled.
fn take_back(calls: &mut [Call], places: &[Option<u8>], arrival: &mut Arrival)
    requires indexed { AreIndexed places.now (shapes_of calls.old) }
    requires rising { AreRising (shapes_of calls.old) }
    ensures calls { calls.new ≡ map (popped_at arrival.old.port) calls.old }
    ensures arrival { arrival.new ≡ given_back arrival.old (handled_first arrival.old.port calls.old) }
{
    if let Some(i) = place(calls, places, arrival.port) {
        if let Some((_number, handled)) = calls[i].pop() {
            arrival.pad = Some(handled.pad);
            arrival.end = Some(handled.end);
        }
    }
}
