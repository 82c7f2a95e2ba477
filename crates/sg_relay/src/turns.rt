//! The turns of a relay: a reading of the clock, then a receive.

ghost use Rattle.std.specs.Prelude.{◌≡◌, ◌≤◌, ◌+◌, ℕ, List, IfErr, max};
ghost use Rattle.sg_trace.specs.Trace.{last_moment};
ghost use Rattle.sg_edge.specs.Links.{Added, Called, LinkCall, Received};
ghost use Rattle.sg_edge.specs.Told.{Wrote};
ghost use Rattle.sg_relay.specs.Causes.{IsDueTo, IsDueToLink, IsOfOutcomes, IsOfTurns, IsOfWaits};
ghost use Rattle.sg_relay.specs.Parts.{AreHandled, IsReceived, IsReceivedFirst, IsTurn, IsTurnInOrder, IsWaitInOrder, IsWaited};
ghost use Rattle.sg_relay.specs.Weaving.{ticks_at, weaves_of};

use crate::exchange::Exchange;
use sg_base::{Failed, Pad, TICK_MOST};
use sg_edge::{Clock, Link, Receipt, Sink};
use sg_trace::Status;
use std::alloc::Global;

/// A relay under way: what handles its lines, and how far it has come.
#[derive(Drop)]
pub(crate) struct Relaying<E> {
    pub(crate) alloc: Global,
    pub(crate) exchange: E,
    /// The moment of its first reading, and the greatest so far; 0 before it.
    pub(crate) began: u64,
    pub(crate) top: u64,
    /// How many turns are left.
    pub(crate) left: u64,
}

/// Hands a moment on as a tick, where it is greater than all before.
fn tick<E: Exchange, K: Sink, L: Link>(
    alloc: Global,
    exchange: &mut E,
    moment: u64,
    top: &mut u64,
    sink: &mut K,
    link: &mut L,
) -> Result<(), Status>
    requires timely { moment ≤ last_moment }
    ensures handled { (state : E.State) → E.stands exchange.old state
        → (calls : List LinkCall) × (out : List ℕ) × Called (L.told link.old) (L.told link.new) calls × Wrote (K.written sink.old) (K.written sink.new) out
        × AreHandled result E.acting state (ticks_at (weaves_of E.Line.spelled E.Line.followed E.waits E.gives E.ticks E.arrives) top.old moment) (E.stands exchange.new) calls out }
    ensures top { top.new ≡ max top.old moment }
    ensures only { IfErr result IsOfOutcomes }
    ensures write { IsDueTo Status.Write result (K.faults sink.old) (K.faults sink.new) (K.failed sink.new) }
    ensures link { IsDueToLink result (L.faults link.old) (L.faults link.new) }
{
    E::are_in_order();
    if moment <= *top {
        return Ok(());
    }
    *top = moment;
    exchange.tick(alloc, moment, sink, link)
}

/// Receives once into the pad, has the datagram that came handled, and hands the pad back.
fn receive<E: Exchange, K: Sink, L: Link>(
    alloc: Global,
    exchange: &mut E,
    pad: Pad,
    sink: &mut K,
    link: &mut L,
) -> Result<Pad, Status>
    ensures received { (state : E.State) → E.stands exchange.old state
        → (x : Received) × (calls : List LinkCall) × (out : List ℕ) × Called (L.told link.old) (L.told link.new) calls × Wrote (K.written sink.old) (K.written sink.new) out
        × IsReceived result (weaves_of E.Line.spelled E.Line.followed E.waits E.gives E.ticks E.arrives) E.acting state (E.stands exchange.new) x calls out × IsReceivedFirst x calls }
    ensures only { IfErr result IsOfOutcomes }
    ensures write { IsDueTo Status.Write result (K.faults sink.old) (K.faults sink.new) (K.failed sink.new) }
    ensures link { IsDueToLink result (L.faults link.old) (L.faults link.new) }
{
    E::are_in_order();
    let mut pad = pad;
    match link.receive(&mut pad) {
        Err(Failed) => Err(Status::Link),
        Ok(Receipt::Nothing) => Ok(pad),
        Ok(Receipt::Got { port, from }) => exchange.arrive(alloc, port, from, pad, sink, link),
    }
}

/// One turn: a reading, which is a tick where it is greater than all before, and then a receive. Answers the
/// moment that was read, and hands the pad back.
fn turn<E: Exchange, K: Sink, L: Link, C: Clock>(
    alloc: Global,
    exchange: &mut E,
    top: &mut u64,
    pad: Pad,
    sink: &mut K,
    link: &mut L,
    clock: &mut C,
) -> Result<(u64, Pad), Status>
    ensures turned { (state : E.State) → E.stands exchange.old state
        → (readings : List ℕ) × (calls : List LinkCall) × (out : List ℕ)
        × Added (C.given clock.old) (C.given clock.new) readings × Called (L.told link.old) (L.told link.new) calls × Wrote (K.written sink.old) (K.written sink.new) out
        × IsTurn result (weaves_of E.Line.spelled E.Line.followed E.waits E.gives E.ticks E.arrives) E.acting state top.old top.new (E.stands exchange.new) readings calls out
        × IsTurnInOrder (weaves_of E.Line.spelled E.Line.followed E.waits E.gives E.ticks E.arrives) E.acting state top.old readings calls }
    ensures only { IfErr result IsOfTurns }
    ensures write { IsDueTo Status.Write result (K.faults sink.old) (K.faults sink.new) (K.failed sink.new) }
    ensures link { IsDueToLink result (L.faults link.old) (L.faults link.new) }
    ensures clock { IsDueTo Status.Clock result (C.faults clock.old) (C.faults clock.new) (C.failed clock.new) }
    ensures count { (C.given clock.new).count ≤ (C.given clock.old).count + 1 }
{
    E::are_in_order();
    let moment = match clock.now() {
        Err(Failed) => return Err(Status::Clock),
        Ok(reading) => reading.min(TICK_MOST),
    };
    match tick(alloc, exchange, moment, top, sink, link) {
        Err(status) => return Err(status),
        Ok(()) => {}
    }
    match receive(alloc, exchange, pad, sink, link) {
        Err(status) => Err(status),
        Ok(pad) => Ok((moment, pad)),
    }
}

impl<E: Exchange> Relaying<E> {
    /// Takes turns until a reading is at least this moment, and hands the pad back. `TurnsSpent` where no turn is
    /// left and one more is asked for.
    pub(crate) fn wait<K: Sink, L: Link, C: Clock>(
        &mut self,
        until: u64,
        pad: Pad,
        sink: &mut K,
        link: &mut L,
        clock: &mut C,
    ) -> Result<Pad, Status>
        ensures waited { (state : E.State) → E.stands self.old.exchange state
            → (readings : List ℕ) × (calls : List LinkCall) × (out : List ℕ)
            × Added (C.given clock.old) (C.given clock.new) readings × Called (L.told link.old) (L.told link.new) calls × Wrote (K.written sink.old) (K.written sink.new) out
            × IsWaited result (weaves_of E.Line.spelled E.Line.followed E.waits E.gives E.ticks E.arrives) E.acting until state self.old.top self.new.top self.old.left self.new.left (E.stands self.new.exchange) readings calls out
            × IsWaitInOrder (weaves_of E.Line.spelled E.Line.followed E.waits E.gives E.ticks E.arrives) E.acting until state self.old.top readings calls }
        ensures began { self.new.began ≡ self.old.began }
        ensures only { IfErr result IsOfWaits }
        ensures write { IsDueTo Status.Write result (K.faults sink.old) (K.faults sink.new) (K.failed sink.new) }
        ensures link { IsDueToLink result (L.faults link.old) (L.faults link.new) }
        ensures clock { IsDueTo Status.Clock result (C.faults clock.old) (C.faults clock.new) (C.failed clock.new) }
        ensures count { (C.given clock.new).count + self.new.left ≤ (C.given clock.old).count + self.old.left }
    {
        E::are_in_order();
        let mut pad = pad;
        'turns: while self.left > 0 {
            self.left -= 1;
            match turn(
                self.alloc,
                &mut self.exchange,
                &mut self.top,
                pad,
                sink,
                link,
                clock,
            ) {
                Err(status) => return Err(status),
                Ok((moment, back)) => {
                    if until <= moment {
                        return Ok(back);
                    }
                    pad = back;
                }
            }
        }
        Err(Status::TurnsSpent)
    }
}
