//! The table.

ghost use Rattle.std.specs.Prelude.{◌≡◌, ◌≢◌, ◌≤◌, [], IfOk, OnOk, OnErr, true, false};
ghost use Rattle.sg_gateway.specs.Early.{MayWant};
ghost use Rattle.sg_gateway.specs.Events.{events_of_signal, outcomes_from, signal_lacks_noise, signal_of};
ghost use Rattle.sg_gateway.specs.World.{World, empty};
ghost use Rattle.sg_lines.specs.declared.lines.Signal.TheVariants as signals;
ghost use Rattle.sg_table.specs.Standing.{TableStandsFor};
ghost use Rattle.sg_table.specs.Telling.{IsTimely, IsTold};

use crate::calls::Calls;
use crate::outcomes::Outcomes;
use sg_base::{CALLS_MOST, NoMemory};
use sg_gateway::calls_in_order;
use sg_keys::Ring;
use sg_leg::Books;
use sg_lines::Signal;
use sg_psk::{PskBook, ReplayBook};
use std::alloc::Global;
use std::marker::Model;

/// Up to 256 calls, with the position of each slot's call.
#[derive(Drop)]
pub struct Table {
    pub(crate) calls: Calls,
    pub(crate) places: [Option<u8>; CALLS_MOST],
    /// Until when a tick changes the moment alone; 0 where that isn't known.
    calm: u64,
}

impl Model for Table {
    ghost use Rattle.sg_table.specs.Calm.{IsCalm};
    ghost use Rattle.sg_table.specs.Standing.{Stands};
    ghost use Rattle.sg_table.specs.Values.{TableValue, AreIndexed, shapes_of};

    ghost Value = { TableValue };

    ghost view = { λ t. t.calls };

    ghost invariant = { λ t. (AreIndexed t.places (shapes_of t.calls.calls) × IsCalm t.calm t.calls) × Stands t.calls };
}

impl Table {
    /// A table without calls. `NoMemory` where there is none for it.
    pub fn make(alloc: Global) -> Result<Table, NoMemory>
        ensures { IfOk result (λ table. TableStandsFor table empty) }
    {
        let by_slot = Vec::with_capacity(alloc, CALLS_MOST)?;
        let seen = ReplayBook::make(alloc)?;
        let books = Books {
            psks: PskBook::make(alloc),
            seen,
            ring: Ring::make(alloc),
        };
        let calls = Calls {
            by_slot,
            books,
            moment: 0,
        };
        Ok(Table {
            calls,
            places: [None; CALLS_MOST],
            calm: 0,
        })
    }

    /// The last moment, in milliseconds since 1970; 0 before the first tick.
    pub fn moment(&self) -> u64
        ensures shown { result ≡ self.now.moment }
        ensures stands { (w : World) → TableStandsFor self.now w → result ≡ w.moment }
    {
        self.calls.moment
    }

    /// Takes a signal, whose noise is there, and tells its outcomes: at most one `Ended` for each call, and at
    /// most two outcomes of another kind. Out of memory, the table is what it was; that comes to no tick, no
    /// rejection and no bye, nor where the calls and the pre-shared keys that are there tell the refusal. A tick is
    /// at most 2,085,978,495,999 ms since 1970.
    pub fn step(&mut self, alloc: Global, signal: &Signal) -> Result<Outcomes, NoMemory>
        requires noise { signal_lacks_noise signal.now ≡ false }
        requires timely { IsTimely signal.now }
        ensures told { IfOk result (λ told. (w : World) → TableStandsFor self.old w → IsTold told.items self.new w (events_of_signal signal.now)) }
        ensures same { OnErr result (self.new ≡ self.old) }
        ensures needs { OnErr result ((w : World) → TableStandsFor self.old w → MayWant w (signal_of signal.now)) }
    {
        let mut told = Outcomes::new();
        match self.take(alloc, signal, &mut told) {
            Err(NoMemory) => Err(NoMemory),
            Ok(()) => Ok(told),
        }
    }

    /// Takes a signal as `step` does, and tells its outcomes in a list that the caller keeps, in the place of what it
    /// held: a list of 256 places is dear to move. Out of memory, nothing is told.
    pub fn take(
        &mut self,
        alloc: Global,
        signal: &Signal,
        told: &mut Outcomes,
    ) -> Result<(), NoMemory>
        requires noise { signal_lacks_noise signal.now ≡ false }
        requires timely { IsTimely signal.now }
        ensures told { OnOk result ((w : World) → TableStandsFor self.old w → IsTold told.new.items self.new w (events_of_signal signal.now)) }
        ensures none { OnErr result (told.new.items ≡ []) }
        ensures same { OnErr result (self.new ≡ self.old) }
        ensures needs { OnErr result ((w : World) → TableStandsFor self.old w → MayWant w (signal_of signal.now)) }
    {
        calls_in_order();
        told.clear();
        let before = self.calls.count();
        match self.calls.take(alloc, signal, told) {
            Err(NoMemory) => {
                told.clear();
                return Err(NoMemory);
            }
            Ok(()) => {}
        }
        self.calm = 0;
        // A signal makes a call or ends some, never both.
        if self.calls.count() != before {
            self.calls.index(&mut self.places);
        }
        Ok(())
    }

    /// Takes a tick that tells nothing, as `step` does; where it tells something, nothing is done, and it is false.
    /// It doesn't allocate, and looks at the calls only where one may end or drop something since it looked at them last.
    /// A tick is at most 2,085,978,495,999 ms since 1970.
    pub fn tick_quietly(&mut self, now: u64) -> bool
        requires timely { now ≤ 2085978495999 }
        ensures told { result ≡ true → (w : World) → TableStandsFor self.old w → IsTold [] self.new w (events_of_signal (signals.Tick now)) }
        ensures tells { result ≡ false → (w : World) → TableStandsFor self.old w → outcomes_from w (events_of_signal (signals.Tick now)) ≢ [] }
        ensures same { result ≡ false → self.new ≡ self.old }
    {
        calls_in_order();
        if self.calls.pass(now, self.calm) {
            return true;
        }
        if !self.calls.tick_quietly(now) {
            return false;
        }
        self.calm = self.calls.calm();
        true
    }
}
