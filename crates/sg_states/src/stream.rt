//! What is kept of a source.

ghost use Rattle.std.specs.Prelude.{◌≡◌, ℕ, ◌<◌, ◌≤◌, ◌^◌, List, [], ◌∷◌, ◌++◌, IfOk, IfSome, Some, Ok, Err};
ghost use Rattle.sg_replay.specs.Freshness.{highest_of, highest_with};
ghost use Rattle.sg_session.specs.Sealing.{next_after};
ghost use Rattle.sg_session.specs.Session.{nearest_from};
ghost use Rattle.sg_base.specs.declared.addresses.Kind.TheVariants as kind;
ghost use Rattle.sg_states.specs.Faults.{or_spent, place_cause, stale_cause, told_by};
ghost use Rattle.sg_states.specs.Placing.{fresh_in, placed};
ghost use Rattle.sg_states.specs.Streams.{ForIndicesOf, IsOpenPlace, IsStreamOf, StreamStands, TakesIn};

use crate::faults::{PlaceFault, Stale, of_index, of_stale};
use sg_base::{IndexFault, Kind};
use sg_index::Place;
use sg_replay::{Freshness, Seen};
use std::marker::Model;

/// The last index of an RTCP stream.
const LAST: u64 = 2147483647;

/// What is kept of a source (RFC 3711, 3.2.1): its kind, the rollover that it starts at, its highest index and
/// its replay list. Only `decrypt`, `number` and `number_next` change it.
#[derive(Drop)]
pub struct Stream {
    kind: Kind,
    ssrc: u32,
    roc: u32,
    place: Option<Place>,
    seen: Seen,
}

impl Model for Stream {
    ghost use Rattle.sg_states.specs.StreamValues.{StreamValue, StandsForSome};

    ghost Value = { StreamValue };

    ghost view = { λ s. record { kind = s.kind; ssrc = s.ssrc; roc = s.roc; highest = s.place; seen = s.seen } };

    ghost invariant = { λ s. StandsForSome s.place s.seen };
}

impl Stream {
    /// A stream of which nothing is done, with a window of 64 to 1,024 indices. An RTCP stream has no rollover.
    pub fn fresh(kind: Kind, ssrc: u32, roc: u32, window: u16) -> Stream
        requires at_least { 64 ≤ window }
        requires at_most { window ≤ 1024 }
        ensures of { IsStreamOf result kind ssrc }
        ensures stands { StreamStands result ssrc roc window [] }
    {
        Stream {
            kind,
            ssrc,
            roc,
            place: None,
            seen: Seen::make(window),
        }
    }

    /// The kind.
    #[inline(always)]
    pub fn kind(&self) -> Kind
        ensures { result ≡ self.now.kind }
    {
        self.kind
    }

    /// The source.
    #[inline(always)]
    pub fn ssrc(&self) -> u32
        ensures { result ≡ self.now.ssrc }
    {
        self.ssrc
    }

    /// The highest index that is done: of RTP of 48 bits, of RTCP of 31 (RFC 3711, 3.3.1 and 3.4). None before
    /// the first packet.
    pub fn highest(&self) -> Option<u64>
        ensures { result ≡ self.now.highest }
    {
        self.place.as_ref().map(|place| place.highest())
    }

    /// The index, where it is new.
    #[inline(always)]
    pub(crate) fn new_index(&self, index: u64) -> Result<u64, Stale>
        requires { index < 2 ^ 48 }
        ensures answer { ForIndicesOf self.now (λ roc window indices. told_by stale_cause result ≡ fresh_in window indices index) }
        ensures same { IfOk result (λ i. i ≡ index) }
        ensures open { IfOk result (IsOpenPlace self.now) }
    {
        match self.seen.test(index) {
            Freshness::New => Ok(index),
            Freshness::Repeat => Err(Stale::Repeat),
            Freshness::TooOld => Err(Stale::TooOld),
        }
    }

    // The index of an RTP packet's sequence number (RFC 3711, 3.3.1).
    #[inline(always)]
    fn nearest(&self, seq: u16) -> Result<u64, IndexFault>
        requires { self.now.kind ≡ kind.Rtp }
        ensures answer { ForIndicesOf self.now (λ roc window indices. result ≡ nearest_from roc seq (highest_of indices)) }
        ensures bound { IfOk result (λ index. index < 2 ^ 48) }
    {
        match &self.place {
            None => Ok(u64::from(self.roc) * 65536 + u64::from(seq)),
            Some(place) => match place.guess(seq) {
                Ok(index) => Ok(index),
                Err(fault) => Err(fault),
            },
        }
    }

    /// The index of an RTP packet's sequence number, where it is new.
    #[inline(always)]
    pub(crate) fn place(&self, seq: u16) -> Result<u64, PlaceFault>
        requires { self.now.kind ≡ kind.Rtp }
        ensures answer { ForIndicesOf self.now (λ roc window indices. told_by place_cause result ≡ placed kind.Rtp roc window indices seq) }
        ensures open { IfOk result (IsOpenPlace self.now) }
    {
        match self.nearest(seq) {
            Ok(index) => match self.new_index(index) {
                Ok(index) => Ok(index),
                Err(fault) => Err(of_stale(fault)),
            },
            Err(fault) => Err(of_index(fault)),
        }
    }

    /// The index after the highest, in 31 bits; none where they are spent (RFC 3711, 3.4).
    #[inline(always)]
    pub(crate) fn following(&self) -> Option<u64>
        ensures answer { ForIndicesOf self.now (λ roc window indices. or_spent result ≡ next_after (highest_of indices)) }
        ensures open { IfSome result (IsOpenPlace self.now) }
        ensures bound { IfSome result (λ index. index < 2147483648) }
    {
        match &self.place {
            None => Some(0),
            Some(place) => {
                let highest = place.highest();
                if highest < LAST {
                    Some(highest + 1)
                } else {
                    None
                }
            }
        }
    }

    /// Takes an open index in.
    #[inline(always)]
    pub(crate) fn take(&mut self, index: u64)
        requires { IsOpenPlace self.old index }
        ensures of { (self.new.kind ≡ self.old.kind) × (self.new.ssrc ≡ self.old.ssrc) }
        ensures highest { self.new.highest ≡ Some (highest_with self.old.highest index) }
        ensures stands { TakesIn self.old self.new index }
    {
        self.seen.mark(index);
        match &mut self.place {
            None => self.place = Some(Place::start((index / 65536) as u32, (index % 65536) as u16)),
            Some(place) => place.note(index),
        }
    }
}

impl Default for Stream {
    fn default() -> Stream {
        Stream::fresh(Kind::Rtp, 0, 0, 64)
    }
}
