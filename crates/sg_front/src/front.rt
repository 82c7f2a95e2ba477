//! The table, and before it the legs that share their ports.

ghost use Rattle.std.specs.Prelude.{◌≡◌, ◌≢◌, ◌⊎◌, ◌≤◌, ◌<◌, [], All, IfOk, OnOk, OnErr, IsSome, true, false, length};
ghost use Rattle.sg_front.specs.States.{FrontStandsFor, IsBatched, IsHandled, IsTakenUntold, IsTold, State, start, told_from};
ghost use Rattle.sg_gateway.specs.Early.{MayWant};
ghost use Rattle.sg_gateway.specs.Events.{events_of_signal, signal_lacks_noise, signal_of};
ghost use Rattle.sg_lines.specs.declared.lines.Signal.TheVariants as signals;
ghost use Rattle.sg_table.specs.Telling.{IsTimely};

use crate::shared;
use sg_base::{Address, NoMemory, Pad};
use sg_lanes::Gate;
use sg_lines::Signal;
use sg_mux::Mux;
use sg_table::{Arrival, Handled, Outcomes, Table};
use std::alloc::Global;
use std::marker::Model;
use std::thread::Threads;

/// A table whose legs may share their ports. Where they may not, each call is the table's.
#[derive(Drop)]
pub struct Front {
    table: Table,
    mux: Option<Mux>,
}

impl Model for Front {
    ghost use Rattle.std.specs.Prelude.{is_some, unwrap_or};
    ghost use Rattle.sg_front.specs.States.{FrontValue};
    ghost use Rattle.sg_mux.specs.Muxed.{nobody};

    ghost Value = { FrontValue };

    ghost view = { λ f. record { table = f.table; muxes = is_some f.mux; calls = unwrap_or f.mux nobody } };
}

impl Front {
    /// A table without calls, whose legs may share their ports or may not. `NoMemory` where there is none for it.
    pub fn make(alloc: Global, muxes: bool) -> Result<Front, NoMemory>
        ensures { IfOk result (λ front. FrontStandsFor front (start muxes)) }
    {
        let table = Table::make(alloc)?;
        let mux = if muxes { Some(Mux::make()) } else { None };
        Ok(Front { table, mux })
    }

    /// The last moment, in milliseconds since 1970; 0 before the first tick.
    pub fn moment(&self) -> u64
        ensures shown { result ≡ self.now.table.moment }
        ensures stands { (s : State) → FrontStandsFor self.now s → result ≡ s.world.moment }
    {
        self.table.moment()
    }

    /// Takes a signal, whose noise is there, and tells its outcomes in a list that the caller keeps, in the place of
    /// what it held. `NoMemory` comes to no tick, no rejection and no bye, nor where the calls and the pre-shared keys
    /// that are there tell the refusal. Nothing is told then, and all is what it was; but where legs may share their
    /// ports and a text would be told, the table may have taken the signal, which ends a run. A tick is at most
    /// 2,085,978,495,999 ms since 1970.
    pub fn take(
        &mut self,
        alloc: Global,
        signal: &Signal,
        told: &mut Outcomes,
    ) -> Result<(), NoMemory>
        requires noise { signal_lacks_noise signal.now ≡ false }
        requires timely { IsTimely signal.now }
        ensures told { OnOk result ((s : State) → FrontStandsFor self.old s → IsTold told.new.items self.new s (events_of_signal signal.now)) }
        ensures none { OnErr result (told.new.items ≡ []) }
        ensures same { OnErr result ((self.new ≡ self.old) ⊎ IsTakenUntold self.old self.new (events_of_signal signal.now)) }
        ensures needs { OnErr result ((s : State) → FrontStandsFor self.old s → MayWant s.world (signal_of signal.now)) }
    {
        match &mut self.mux {
            None => self.table.take(alloc, signal, told),
            Some(mux) => shared::step(&mut self.table, mux, alloc, signal, told),
        }
    }

    /// Takes a tick that tells nothing, as `take` does; where it tells something, nothing is done, and it is false.
    /// It doesn't allocate. A tick is at most 2,085,978,495,999 ms since 1970.
    pub fn tick_quietly(&mut self, now: u64) -> bool
        requires timely { now ≤ 2085978495999 }
        ensures told { result ≡ true → (s : State) → FrontStandsFor self.old s → IsTold [] self.new s (events_of_signal (signals.Tick now)) }
        ensures tells { result ≡ false → (s : State) → FrontStandsFor self.old s → told_from s (events_of_signal (signals.Tick now)) ≢ [] }
        ensures same { result ≡ false → self.new ≡ self.old }
    {
        self.table.tick_quietly(now)
    }

    /// Handles a datagram that comes to a port. It doesn't allocate.
    pub fn datagram(&mut self, port: u16, from: Address, pad: Pad) -> Handled
        ensures { (s : State) → FrontStandsFor self.old s → IsHandled s port from pad result self.new }
    {
        match &self.mux {
            None => self.table.datagram(port, from, pad),
            Some(mux) => shared::datagram(&mut self.table, mux, port, from, pad),
        }
    }

    /// Handles up to 256 datagrams, as many calls at a time as there are workers, at least one: they tell, in order,
    /// what they tell when they come one at a time, whatever the number of workers. It doesn't allocate but for its
    /// threads.
    pub fn batch<R: Threads + Sync, G: Gate + Sync>(
        &mut self,
        rt: &R,
        arrivals: &mut [Arrival],
        workers: usize,
        gate: &G,
    )
        requires few { length arrivals.old ≤ 256 }
        requires pads { All (λ a. IsSome a.pad) arrivals.old }
        requires workers { 0 < workers }
        ensures { (s : State) → FrontStandsFor self.old s → IsBatched s arrivals.old arrivals.new self.new }
    {
        match &self.mux {
            None => self.table.batch(rt, arrivals, workers, gate),
            Some(mux) => shared::batch(&mut self.table, mux, rt, arrivals, workers, gate),
        }
    }
}
