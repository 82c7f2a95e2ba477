//! What a relay does at a line of its script.

ghost use Rattle.std.specs.Prelude.{◌≡◌, ◌≤◌, ◌+◌, ℕ, List, IfErr, IfOk};
ghost use Rattle.sg_trace.specs.Trace.{last_moment};
ghost use Rattle.sg_edge.specs.Links.{Added, Called, LinkCall};
ghost use Rattle.sg_edge.specs.Told.{Wrote};
ghost use Rattle.sg_relay.specs.Causes.{IsDueTo, IsDueToLink, IsOfLines, IsOfTurns};
ghost use Rattle.sg_relay.specs.Parts.{IsBegun, IsLineInOrder, IsSaid};
ghost use Rattle.sg_relay.specs.Weaving.{weaves_of};

use crate::exchange::Exchange;
use crate::turns::Relaying;
use sg_base::{Failed, Pad, TICK_MOST};
use sg_edge::{Clock, Link, Noise, Sink};
use sg_trace::Status;
use std::alloc::Global;

impl<E: Exchange> Relaying<E> {
    /// Handles a line of the script, and hands the pad back: at a `tick` line turns are taken.
    pub(crate) fn say<K: Sink, L: Link, C: Clock, N: Noise>(
        &mut self,
        line: E::Line,
        pad: Pad,
        sink: &mut K,
        link: &mut L,
        clock: &mut C,
        noise: &mut N,
    ) -> Result<Pad, Status>
        requires began { self.old.began ≤ last_moment }
        requires fits { (version number : ℕ) × E.Line.fits version number line }
        ensures said { (state : E.State) → E.stands self.old.exchange state
            → (readings : List ℕ) × (calls : List LinkCall) × (draws : List ℕ) × (out : List ℕ)
            × Added (C.given clock.old) (C.given clock.new) readings × Called (L.told link.old) (L.told link.new) calls × Added (N.given noise.old) (N.given noise.new) draws × Wrote (K.written sink.old) (K.written sink.new) out
            × IsSaid result (weaves_of E.Line.spelled E.Line.followed E.waits E.gives E.ticks E.arrives) E.acting self.old.began line state self.old.top self.new.top self.old.left self.new.left (E.stands self.new.exchange) readings calls draws out
            × IsLineInOrder (weaves_of E.Line.spelled E.Line.followed E.waits E.gives E.ticks E.arrives) E.acting self.old.began line state self.old.top readings calls draws }
        ensures began { self.new.began ≡ self.old.began }
        ensures only { IfErr result IsOfLines }
        ensures write { IsDueTo Status.Write result (K.faults sink.old) (K.faults sink.new) (K.failed sink.new) }
        ensures link { IsDueToLink result (L.faults link.old) (L.faults link.new) }
        ensures clock { IsDueTo Status.Clock result (C.faults clock.old) (C.faults clock.new) (C.failed clock.new) }
        ensures noise { IsDueTo Status.Noise result (N.faults noise.old) (N.faults noise.new) (N.failed noise.new) }
        ensures count { (C.given clock.new).count + self.new.left ≤ (C.given clock.old).count + self.old.left }
    {
        E::are_in_order();
        match E::wait_at(&line) {
            Some(moment) => self.wait(self.began + moment, pad, sink, link, clock),
            None => self
                .exchange
                .handle(self.alloc, line, pad, sink, link, noise),
        }
    }
}

/// Takes the first reading, which is a tick, and answers its moment.
pub(crate) fn begin<E: Exchange, K: Sink, L: Link, C: Clock>(
    alloc: Global,
    exchange: &mut E,
    sink: &mut K,
    link: &mut L,
    clock: &mut C,
) -> Result<u64, Status>
    ensures begun { (state : E.State) → E.stands exchange.old state
        → (readings : List ℕ) × (calls : List LinkCall) × (out : List ℕ)
        × Added (C.given clock.old) (C.given clock.new) readings × Called (L.told link.old) (L.told link.new) calls × Wrote (K.written sink.old) (K.written sink.new) out
        × IsBegun result (weaves_of E.Line.spelled E.Line.followed E.waits E.gives E.ticks E.arrives) E.acting state (E.stands exchange.new) readings calls out }
    ensures timely { IfOk result (λ began. began ≤ last_moment) }
    ensures only { IfErr result IsOfTurns }
    ensures write { IsDueTo Status.Write result (K.faults sink.old) (K.faults sink.new) (K.failed sink.new) }
    ensures link { IsDueToLink result (L.faults link.old) (L.faults link.new) }
    ensures clock { IsDueTo Status.Clock result (C.faults clock.old) (C.faults clock.new) (C.failed clock.new) }
    ensures count { (C.given clock.new).count ≤ (C.given clock.old).count + 1 }
{
    let began = match clock.now() {
        Err(Failed) => return Err(Status::Clock),
        Ok(reading) => reading.min(TICK_MOST),
    };
    match exchange.tick(alloc, began, sink, link) {
        Err(status) => Err(status),
        Ok(()) => Ok(began),
    }
}
