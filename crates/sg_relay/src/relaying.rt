//! The relay.

ghost use Rattle.std.specs.Prelude.{◌≡◌, ◌≤◌, ◌+◌, ◌^◌, ℕ, None};
ghost use Rattle.sg_trace.specs.Causes.{HasFailed};
ghost use Rattle.sg_relay.specs.Completeness.{HasPassed};
ghost use Rattle.sg_relay.specs.Joined as joined;
ghost use Rattle.sg_relay.specs.Plain as plain;
ghost use Rattle.sg_relay.specs.Relay.{IsRelay, Passed};
ghost use Rattle.sg_relay.specs.Weaving.{weaves_of};

use crate::exchange::Exchange;
use crate::laws::{ports_are_of_calls, ports_of_joined_calls_are_of_calls};
use crate::lines::begin;
use crate::turns::Relaying;
use sg_base::{NoMemory, Pad};
use sg_edge::{Clock, Link, Noise, Sink, Source};
use sg_front::Front;
use sg_switchboard::Switchboard;
use sg_trace::{ScriptReader, Status};
use std::alloc::Global;

/// How a relay runs whose calls aren't joined.
#[derive(Clone, Copy)]
pub struct RelayOptions {
    /// How many turns it takes at most.
    pub turns: u64,
    /// Whether RTP and RTCP of a leg share a port where its offer and the answer agree on it (RFC 5761).
    pub muxes: bool,
}

/// Handles the lines of the source in order, and at a `tick` line takes turns, each a reading and then a receive, until a
/// reading of the clock is at least so many milliseconds after the first reading. It ends with `Done` at the source's end;
/// with `Script` at the first line outside the grammar; with `TurnsSpent` where all turns were taken and a `tick` line asks
/// for one more; with `Read`, `Write`, `Link`, `Clock` or `Noise` where that of the outside fails, but for a send, which is
/// told; or with `NoMemory`.
/// It isn't inlined, so no other command has its frame.
#[inline(never)]
pub fn relay<S: Source, K: Sink, L: Link, C: Clock, N: Noise>(
    alloc: Global,
    options: RelayOptions,
    source: &mut S,
    sink: &mut K,
    link: &mut L,
    clock: &mut C,
    noise: &mut N,
) -> Status
    ensures ran { HasPassed plain.weaves (plain.acts options.muxes) (plain.world options.muxes) result options.turns
        (record { left = S.left source.old; written = K.written sink.old; calls = L.told link.old; readings = C.given clock.old; draws = N.given noise.old })
        (record { left = S.left source.new; written = K.written sink.new; calls = L.told link.new; readings = C.given clock.new; draws = N.given noise.new })
        (record { source = S.faults source.old; sink = K.faults sink.old; link = L.faults link.old; clock = C.faults clock.old; noise = N.faults noise.old })
        (record { source = S.faults source.new; sink = K.faults sink.new; link = L.faults link.new; clock = C.faults clock.new; noise = N.faults noise.new }) }
    ensures given { (S.left source.new).count ≤ (S.left source.old).count + (2 ^ 30 + 1) }
    ensures count { (C.given clock.new).count ≤ (C.given clock.old).count + (options.turns + 1) }
    ensures read { HasFailed (result ≡ Status.Read) (S.faults source.old) (S.faults source.new) (S.failed source.new) }
    ensures write { HasFailed (result ≡ Status.Write) (K.faults sink.old) (K.faults sink.new) (K.failed sink.new) }
    ensures link { HasFailed (result ≡ Status.Link) (L.faults link.old) (L.faults link.new) None }
    ensures clock { HasFailed (result ≡ Status.Clock) (C.faults clock.old) (C.faults clock.new) (C.failed clock.new) }
    ensures noise { HasFailed (result ≡ Status.Noise) (N.faults noise.old) (N.faults noise.new) (N.failed noise.new) }
{
    ports_are_of_calls();
    match Front::make(alloc, options.muxes) {
        Err(NoMemory) => Status::NoMemory,
        Ok(front) => {
            let mut relaying = Relaying {
                alloc,
                exchange: front,
                began: 0,
                top: 0,
                left: options.turns,
            };
            relaying.play(source, sink, link, clock, noise)
        }
    }
}

/// The same of calls of which some may be joined: at a line `join` two are, where nothing is told against it, and until they are
/// parted what is opened in the one goes on to the other at once, and is sealed there or told as lost. Their plain ports stay bound,
/// and what comes there from outside is dropped.
#[inline(never)]
pub fn relay_joined<S: Source, K: Sink, L: Link, C: Clock, N: Noise>(
    alloc: Global,
    turns: u64,
    source: &mut S,
    sink: &mut K,
    link: &mut L,
    clock: &mut C,
    noise: &mut N,
) -> Status
    ensures ran { HasPassed joined.weaves joined.acts joined.world result turns
        (record { left = S.left source.old; written = K.written sink.old; calls = L.told link.old; readings = C.given clock.old; draws = N.given noise.old })
        (record { left = S.left source.new; written = K.written sink.new; calls = L.told link.new; readings = C.given clock.new; draws = N.given noise.new })
        (record { source = S.faults source.old; sink = K.faults sink.old; link = L.faults link.old; clock = C.faults clock.old; noise = N.faults noise.old })
        (record { source = S.faults source.new; sink = K.faults sink.new; link = L.faults link.new; clock = C.faults clock.new; noise = N.faults noise.new }) }
    ensures given { (S.left source.new).count ≤ (S.left source.old).count + (2 ^ 30 + 1) }
    ensures count { (C.given clock.new).count ≤ (C.given clock.old).count + (turns + 1) }
    ensures read { HasFailed (result ≡ Status.Read) (S.faults source.old) (S.faults source.new) (S.failed source.new) }
    ensures write { HasFailed (result ≡ Status.Write) (K.faults sink.old) (K.faults sink.new) (K.failed sink.new) }
    ensures link { HasFailed (result ≡ Status.Link) (L.faults link.old) (L.faults link.new) None }
    ensures clock { HasFailed (result ≡ Status.Clock) (C.faults clock.old) (C.faults clock.new) (C.failed clock.new) }
    ensures noise { HasFailed (result ≡ Status.Noise) (N.faults noise.old) (N.faults noise.new) (N.failed noise.new) }
{
    ports_of_joined_calls_are_of_calls();
    match Switchboard::make(alloc) {
        Err(NoMemory) => Status::NoMemory,
        Ok(switchboard) => {
            let mut relaying = Relaying {
                alloc,
                exchange: switchboard,
                began: 0,
                top: 0,
                left: turns,
            };
            relaying.play(source, sink, link, clock, noise)
        }
    }
}

impl<E: Exchange> Relaying<E> {
    /// Handles the lines of the source, whatever handles them.
    fn play<S: Source, K: Sink, L: Link, C: Clock, N: Noise>(
        &mut self,
        source: &mut S,
        sink: &mut K,
        link: &mut L,
        clock: &mut C,
        noise: &mut N,
    ) -> Status
        requires stands { (state : E.State) × E.stands self.old.exchange state }
        ensures ran { (state : E.State) → E.stands self.old.exchange state → (p : Passed)
            × IsRelay (weaves_of E.Line.spelled E.Line.followed E.waits E.gives E.ticks E.arrives) (E.acting.acts state) result self.old.left
            (record { left = S.left source.old; written = K.written sink.old; calls = L.told link.old; readings = C.given clock.old; draws = N.given noise.old })
            (record { left = S.left source.new; written = K.written sink.new; calls = L.told link.new; readings = C.given clock.new; draws = N.given noise.new })
            p }
        ensures given { (S.left source.new).count ≤ (S.left source.old).count + (2 ^ 30 + 1) }
        ensures count { (C.given clock.new).count ≤ (C.given clock.old).count + (self.old.left + 1) }
        ensures read { HasFailed (result ≡ Status.Read) (S.faults source.old) (S.faults source.new) (S.failed source.new) }
        ensures write { HasFailed (result ≡ Status.Write) (K.faults sink.old) (K.faults sink.new) (K.failed sink.new) }
        ensures link { HasFailed (result ≡ Status.Link) (L.faults link.old) (L.faults link.new) None }
        ensures clock { HasFailed (result ≡ Status.Clock) (C.faults clock.old) (C.faults clock.new) (C.failed clock.new) }
        ensures noise { HasFailed (result ≡ Status.Noise) (N.faults noise.old) (N.faults noise.new) (N.failed noise.new) }
    {
        E::are_in_order();
        let mut pad = match Pad::make(self.alloc) {
            Err(NoMemory) => return Status::NoMemory,
            Ok(pad) => pad,
        };
        let began = match begin(self.alloc, &mut self.exchange, sink, link, clock) {
            Err(status) => return status,
            Ok(began) => began,
        };
        self.began = began;
        self.top = began;
        let mut script = ScriptReader::new(self.alloc);
        'lines: loop {
            let line = match script.next::<E::Line, S>(self.alloc, source) {
                Err(status) => return status,
                Ok(None) => return Status::Done,
                Ok(Some(line)) => line,
            };
            pad = match self.say(line, pad, sink, link, clock, noise) {
                Err(status) => return status,
                Ok(pad) => pad,
            };
        }
    }
}
