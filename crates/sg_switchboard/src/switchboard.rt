//! A table, and which of its calls are joined.

ghost use Rattle.std.specs.Prelude.{◌≡◌, ◌∷◌, ◌≢◌, ◌≤◌, [], List, IfOk, OnErr, OnOk, false, true};
ghost use Rattle.sg_gateway.specs.Early.{MayWant};
ghost use Rattle.sg_gateway.specs.Events.{events_of_signal, outcomes_from, signal_lacks_noise, signal_of};
ghost use Rattle.sg_gateway.specs.Octets.{as_octets};
ghost use Rattle.sg_gateway.specs.PlainOf.{plain_at};
ghost use Rattle.sg_gateway.specs.Step.{Datagram, Event};
ghost use Rattle.sg_gateway.specs.World.{World};
ghost use Rattle.sg_lines.specs.declared.lines.Signal.TheVariants as signals;
ghost use Rattle.sg_pairs.specs.Bridged.{Joins, Parts, bridging, handed_on, passed};
ghost use Rattle.sg_pairs.specs.Pairs.{after_outcome};
ghost use Rattle.sg_switchboard.specs.Switching.{HasBecome, IsSwitched, StandsFor, State, Tells, start};
ghost use Rattle.sg_table.specs.Handling.{outcome_of as table_outcome_of};
ghost use Rattle.sg_table.specs.Standing.{TableStandsFor};
ghost use Rattle.sg_table.specs.Telling.{IsTimely, IsTold};

use crate::switched::{Switched, SwitchedEnd};
use sg_base::{Address, CallId, DropCause, NoMemory, Pad};
use sg_lines::Signal;
use sg_outcome::Outcome;
use sg_pairs::{Bridge, BridgeOutcome};
use sg_table::{End, Handled, Outcomes, Table};
use std::alloc::Global;
use std::marker::Model;

/// A table, and which of its calls are joined. It is seen as its table and what is known of the calls.
#[derive(Drop)]
pub struct Switchboard {
    table: Table,
    bridge: Bridge,
}

impl Model for Switchboard {
    ghost use Rattle.sg_switchboard.specs.Switching.{SwitchboardValue};

    ghost Value = { SwitchboardValue };

    ghost view = { λ s. record { table = s.table; calls = s.bridge } };
}

impl Switchboard {
    /// An empty table, and no call is joined. `NoMemory` where there is none for it.
    pub fn make(alloc: Global) -> Result<Switchboard, NoMemory>
        ensures { IfOk result (λ switchboard. StandsFor switchboard start) }
    {
        let table = Table::make(alloc)?;
        Ok(Switchboard {
            table,
            bridge: Bridge::make(),
        })
    }

    /// Has the table take a signal, whose noise is there, and tell its outcomes in a list that the caller keeps, in the place of
    /// what it held. Which calls are known and joined stays until each of them is noted. `NoMemory` comes as the table tells it, and
    /// then nothing is told and all is what it was. A tick is at most 2,085,978,495,999 ms since 1970.
    pub fn take(
        &mut self,
        alloc: Global,
        signal: &Signal,
        told: &mut Outcomes,
    ) -> Result<(), NoMemory>
        requires noise { signal_lacks_noise signal.now ≡ false }
        requires timely { IsTimely signal.now }
        ensures told { OnOk result ((w : World) → TableStandsFor self.old.table w → IsTold told.new.items self.new.table w (events_of_signal signal.now)) }
        ensures calls { self.new.calls ≡ self.old.calls }
        ensures none { OnErr result (told.new.items ≡ []) }
        ensures same { OnErr result (self.new ≡ self.old) }
        ensures needs { OnErr result ((w : World) → TableStandsFor self.old.table w → MayWant w (signal_of signal.now)) }
    {
        self.table.take(alloc, signal, told)
    }

    /// Follows an outcome that the table has told, and answers which pair it has parted. It doesn't allocate.
    pub fn note(&mut self, outcome: &Outcome) -> Option<BridgeOutcome>
        ensures noted { self.new ≡ record self.old { calls = (after_outcome self.old.calls outcome.now).calls } }
        ensures parted { result ≡ (after_outcome self.old.calls outcome.now).parted }
    {
        self.bridge.note(outcome)
    }

    /// Takes a tick that tells nothing; where it tells something, nothing is done, and it is false. It doesn't allocate. A tick
    /// is at most 2,085,978,495,999 ms since 1970.
    pub fn tick_quietly(&mut self, now: u64) -> bool
        requires timely { now ≤ 2085978495999 }
        ensures told { result ≡ true → (w : World) → TableStandsFor self.old.table w → IsTold [] self.new.table w (events_of_signal (signals.Tick now)) }
        ensures tells { result ≡ false → (w : World) → TableStandsFor self.old.table w → outcomes_from w (events_of_signal (signals.Tick now)) ≢ [] }
        ensures calls { self.new.calls ≡ self.old.calls }
        ensures same { result ≡ false → self.new ≡ self.old }
    {
        self.table.tick_quietly(now)
    }

    /// Handles a datagram that comes to a port from outside. A plain port of a joined call is unused. What is opened for a joined
    /// call goes on to the other at once, and is sealed there or lost. It doesn't allocate.
    pub fn datagram(&mut self, port: u16, from: Address, pad: Pad) -> Switched
        ensures { (s : State) → StandsFor self.old s → IsSwitched s (Datagram port from (as_octets pad)) result self.new }
    {
        if self.bridge.onward(port).is_some() {
            return Switched {
                pad,
                end: SwitchedEnd::Dropped {
                    port,
                    cause: DropCause::PortUnused,
                },
            };
        }
        let handled = self.table.datagram(port, from, pad);
        self.pass(port, handled)
    }

    /// What becomes of a datagram that came to this port: what was opened for a joined call goes on.
    fn pass(&mut self, port: u16, handled: Handled) -> Switched
        ensures { (s : State) (e : Event) (w : World) → TableStandsFor self.old.table w → self.old.calls ≡ s.calls
            → HasBecome (passed s.world s.calls e w (table_outcome_of port handled ∷ [])) result self.new }
    {
        let Handled { pad, end } = handled;
        match end {
            End::Dropped(cause) => Switched {
                pad,
                end: SwitchedEnd::Dropped { port, cause },
            },
            End::Out { port, to } => match self.bridge.onward(port) {
                Some(onward) => self.hand_on(onward, pad),
                None => Switched {
                    pad,
                    end: SwitchedEnd::Out { port, to },
                },
            },
        }
    }

    /// Hands what was opened in a joined call to this plain port of the other.
    fn hand_on(&mut self, port: u16, pad: Pad) -> Switched
        ensures { (s : State) (e : Event) (w : World) → TableStandsFor self.old.table w → self.old.calls ≡ s.calls
            → HasBecome (handed_on s.world s.calls e w port pad (plain_at w port)) result self.new }
    {
        let Some(from) = self.table.plain_of(port) else {
            return Switched {
                pad,
                end: SwitchedEnd::Lost {
                    port,
                    cause: DropCause::PortUnused,
                },
            };
        };
        let Handled { pad, end } = self.table.datagram(port, from, pad);
        match end {
            End::Dropped(cause) => Switched {
                pad,
                end: SwitchedEnd::Lost { port, cause },
            },
            End::Out { port, to } => Switched {
                pad,
                end: SwitchedEnd::Out { port, to },
            },
        }
    }

    /// Joins two calls, and tells that they are, or why not. It doesn't allocate.
    pub fn join(&mut self, first: CallId, second: CallId) -> BridgeOutcome
        ensures { (s : State) → StandsFor self.old s → Tells (bridging s.world s.calls (Joins first second)) result self.new }
    {
        match self.bridge.join(first, second) {
            Ok(()) => BridgeOutcome::Joined { first, second },
            Err((call, cause)) => BridgeOutcome::Unjoined { call, cause },
        }
    }

    /// Parts a call from the one with which it is joined, and tells that they are parted, or why not. It doesn't allocate.
    pub fn part(&mut self, call: CallId) -> BridgeOutcome
        ensures { (s : State) → StandsFor self.old s → Tells (bridging s.world s.calls (Parts call)) result self.new }
    {
        match self.bridge.part(call) {
            Ok((first, second)) => BridgeOutcome::Parted { first, second },
            Err(cause) => BridgeOutcome::Unjoined { call, cause },
        }
    }
}
