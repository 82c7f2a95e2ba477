//! A demonstration: calls that are keyed with drawn keys, and rounds of their traffic.

ghost use Rattle.std.specs.Prelude.{◌≡◌, ◌≤◌, ◌<◌, ◌+◌, ◌^◌, ℕ, false, List, [], ◌∷◌, ◌++◌, length, vec_len, All, IfOk, OnOk, OnErr, IsSome};
ghost use Rattle.std.specs.List.{AllZip};
ghost use Rattle.sg_gateway.specs.Events.{events_of_signal, outcomes_from, signal_lacks_noise};
ghost use Rattle.sg_gateway.specs.Runs.{world_after};
ghost use Rattle.sg_gateway.specs.World.{World, empty};
ghost use Rattle.sg_table.specs.Batches.{IsBatched};
ghost use Rattle.sg_table.specs.Standing.{TableStandsFor};
ghost use Rattle.sg_table.specs.Telling.{IsTimely};
ghost use Rattle.sg_table.specs.Values.{TableValue};
ghost use Rattle.sg_demo.specs.Callers as calls;
ghost use Rattle.sg_demo.specs.Callers.{new_caller};
ghost use Rattle.sg_demo.specs.Demonstration as model;
ghost use Rattle.sg_demo.specs.Demonstration.{calls_made, with_call, with_round, HasTakenPrefix};
ghost use Rattle.sg_demo.specs.Standing.{CallerStandsFor, IsWithin};
ghost use Rattle.sg_demo.specs.Going.{DemoStandsFor};

use crate::caller::Caller;
use crate::counting::count_all;
use crate::round::{PLAIN, SECURE, take_turns};
use crate::summary::Summary;
use crate::words::{draw_key, start};
use rand_pcg::Pcg32;
use sg_base::{BATCH_MOST, CallId, MasterKey, NoMemory};
use sg_lanes::Gate;
use sg_lines::Signal;
use sg_outcome::Outcome;
use sg_table::{Arrival, Outcomes, Table};
use std::alloc::Global;
use std::thread::Threads;

/// A demonstration so far: its generator, the calls that were made, and the numbers.
#[derive(Drop)]
pub struct Demo {
    words: Pcg32,
    callers: Vec<Caller>,
    pub summary: Summary,
}

impl Demo {
    /// Nothing is done yet.
    pub fn new(alloc: Global, number: u64) -> Demo
        ensures stands { (table : TableValue) → TableStandsFor table empty → DemoStandsFor result table (calls_made 0 number) }
        ensures size { vec_len result.callers ≡ 0 }
        ensures within { IsWithin 0 result.summary }
    {
        Demo {
            words: start(number),
            callers: Vec::new(alloc),
            summary: Summary {
                calls: 0,
                sealed: 0,
                arrived: 0,
                out: 0,
                repeat: 0,
                badtag: 0,
                other: 0,
                sent: 0,
                opened: 0,
            },
        }
    }

    /// The call of this number draws its two keys and is told to the table. Where it is refused it takes no part. Out of
    /// memory, the table has taken the first of the events, up to some of them.
    pub fn call(&mut self, alloc: Global, number: u32, table: &mut Table) -> Result<(), NoMemory>
        requires within { self.old.summary.calls < 256 }
        ensures called { OnOk result ((d : model.Demo) → DemoStandsFor self.old table.old d → DemoStandsFor self.new table.new (with_call number d)) }
        ensures failed { OnErr result ((d : model.Demo) → DemoStandsFor self.old table.old d → HasTakenPrefix table.new (with_call number d).events) }
        ensures size { vec_len self.new.callers ≤ vec_len self.old.callers + 1 }
        ensures within { (n : ℕ) → IsWithin n self.old.summary → IsWithin (n + 1) self.new.summary }
    {
        let from_peer = draw_key(&mut self.words);
        let to_peer = draw_key(&mut self.words);
        let signal = Signal::Manual {
            call: CallId(number),
            secure: SECURE,
            plain: PLAIN,
            roc: 0,
            window: 64,
            from_peer: from_peer.clone(),
            to_peer: to_peer.clone(),
        };
        let told = tell(alloc, &signal, table)?;
        match told {
            None => Ok(()),
            Some(slot) => {
                seat(&mut self.callers, number, slot, &from_peer, &to_peer)?;
                self.summary.calls += 1;
                Ok(())
            }
        }
    }

    /// Each call has its turn; then what arrives is handled in order, by so many workers, and counted. Out of memory, the
    /// table has taken the first of the events, up to some of them.
    pub fn round<R: Threads + Sync, G: Gate + Sync>(
        &mut self,
        rt: &R,
        alloc: Global,
        table: &mut Table,
        workers: usize,
        gate: &G,
    ) -> Result<(), NoMemory>
        requires workers { 0 < workers }
        requires few { vec_len self.old.callers ≤ 256 }
        requires within { IsWithin (2 ^ 61) self.old.summary }
        ensures round { OnOk result ((d : model.Demo) → DemoStandsFor self.old table.old d → DemoStandsFor self.new table.new (with_round d)) }
        ensures failed { OnErr result ((d : model.Demo) → DemoStandsFor self.old table.old d → HasTakenPrefix table.new (with_round d).events) }
        ensures size { vec_len self.new.callers ≡ vec_len self.old.callers }
        ensures within { (n : ℕ) → IsWithin n self.old.summary → IsWithin (n + 1024) self.new.summary }
    {
        let mut round = take_turns(alloc, &mut self.words, &mut self.callers)?;
        self.summary.sealed += round.sealed;
        handle(rt, table, &mut round.arrivals, workers, gate);
        count_all(
            alloc,
            &round.origins,
            &round.arrivals,
            &mut self.callers,
            &mut self.summary,
        )
    }
}

/// The slot of the call that the table has made of a signal, if it has made one. All that is told of it is large, so it isn't
/// inlined.
#[inline(never)]
fn tell(alloc: Global, signal: &Signal, table: &mut Table) -> Result<Option<u8>, NoMemory>
    requires noise { signal_lacks_noise signal.now ≡ false }
    requires timely { IsTimely signal.now }
    ensures told { IfOk result (λ slot. (w : World) → TableStandsFor table.old w → slot ≡ model.slot_told (outcomes_from w (events_of_signal signal.now))) }
    ensures taken { OnOk result ((w : World) → TableStandsFor table.old w → TableStandsFor table.new (world_after w (events_of_signal signal.now))) }
    ensures same { OnErr result (table.new ≡ table.old) }
{
    let told = table.step(alloc, signal)?;
    Ok(slot_told(&told))
}

/// The call of this number takes part, in this slot. Its peers are large, so it isn't inlined: what else a demonstration
/// does has them in no frame.
#[inline(never)]
fn seat(
    callers: &mut Vec<Caller>,
    number: u32,
    slot: u8,
    from_peer: &MasterKey,
    to_peer: &MasterKey,
) -> Result<(), NoMemory>
    ensures seated { OnOk result ((cs : List calls.Caller) → AllZip CallerStandsFor callers.old.items cs
        → AllZip CallerStandsFor callers.new.items (cs ++ new_caller number slot from_peer.now to_peer.now ∷ [])) }
    ensures size { vec_len callers.new ≤ vec_len callers.old + 1 }
{
    callers.push(Caller::make(number, slot, from_peer, to_peer))?;
    Ok(())
}

/// The slot of the call that is told of first, where it was made.
fn slot_told(told: &Outcomes) -> Option<u8>
    ensures { result ≡ model.slot_told told.now.items }
{
    match told.as_slice().first() {
        Some(Outcome::Made { slot, .. }) => Some(*slot),
        _ => None,
    }
}

/// The table handles what arrives, in batches.
fn handle<R: Threads + Sync, G: Gate + Sync>(
    rt: &R,
    table: &mut Table,
    arrivals: &mut [Arrival],
    workers: usize,
    gate: &G,
)
    requires few { length arrivals.old ≤ 512 }
    requires pads { All (λ a. IsSome a.pad) arrivals.old }
    requires workers { 0 < workers }
    ensures handled { (w : World) → TableStandsFor table.old w → IsBatched w arrivals.old arrivals.new table.new }
{
    let middle = arrivals.len().min(BATCH_MOST);
    let (first, second) = arrivals.split_at_mut(middle);
    table.batch(rt, first, workers, gate);
    table.batch(rt, second, workers, gate);
}
