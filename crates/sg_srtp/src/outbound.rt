//! Sealing a packet, state by state: once it has its number, it must be sealed.
//!
//! Each refusal hands back the pad with the octets that it came with, and the fault.

ghost use Rattle.std.specs.Prelude.{◌≡◌, ◌≤◌, ⊤, length, MatchResult, true, false, Err, Some, slice_get};
ghost use Rattle.sg_base.specs.declared.addresses.Kind.TheVariants as kind;
ghost use Rattle.sg_keys.specs.Live.{Live, spent};
ghost use Rattle.sg_session.specs.Opening.{head_cause};
ghost use Rattle.sg_states.specs.Faults.{number_cause, rtcp_number_cause};
ghost use Rattle.sg_states.specs.Outbound.{CanSeal, IsOutHeaded, IsNumbered, IsNumberedAs, IsSealedOf};
ghost use Rattle.sg_states.specs.Parts.{heading_out, is_tag_len};
ghost use Rattle.sg_states.specs.Placing.{next_index};
ghost use Rattle.sg_states.specs.Streams.{ForIndicesOf, TakesIn};

use crate::kinds::{HasKind, OneKind, Rtcp, Rtp, Typed, of_kind};
use crate::stream::{RtcpStream, Stream};
use sg_base::{HeadFault, Pad, RTCP_TAG};
use sg_keys::KeySet;
pub use sg_states::outbound::Sealed;
use sg_states::{NumberFault, RtcpNumberFault, outbound as states};
use std::marker::{Model, PhantomData};

/// A plain packet of at most 4,096 octets, seen as its octets.
#[derive(Drop)]
pub struct Plain {
    pad: Pad,
}

impl Model for Plain {
    ghost use Rattle.std.specs.Prelude.{ℕ, List, ◌≤◌, length};

    ghost Value = { List ℕ };

    ghost view = { λ p. p.pad };

    ghost invariant = { λ p. length p.pad ≤ 4096 };
}

impl HasKind for Plain {
    ghost is_of = { λ k p. ⊤ };
}

/// A plain packet that arrived.
pub type Arrived = Typed<Plain, Rtp>;

/// A plain packet whose head is read.
pub type Headed = Typed<states::Headed, Rtp>;

/// A packet that has its index and its key, which are spent. It can't be dropped: it must be sealed.
pub type Numbered = Typed<states::Numbered, Rtp>;

impl<K: OneKind> Typed<Plain, K> {
    /// A plain packet in its pad.
    #[inline(always)]
    pub fn make(pad: Pad) -> Typed<Plain, K>
        requires { length pad ≤ 4096 }
        ensures { result ≡ pad }
    {
        Typed {
            state: Plain { pad },
            kind: PhantomData,
        }
    }

    /// Reads the head.
    #[inline(always)]
    pub fn head(self) -> Result<Typed<states::Headed, K>, (Pad, HeadFault)>
        ensures { MatchResult result (IsOutHeaded self K.kind false) (λ e. (e.0 ≡ self) × (heading_out K.kind false self ≡ Err (head_cause e.1))) }
    {
        of_kind(states::Headed::read(K::kind(), false, self.state.pad))
    }
}

impl<K: OneKind> Typed<states::Headed, K> {
    /// The source.
    #[inline(always)]
    pub fn ssrc(&self) -> u32
        ensures { result ≡ self.now.head.ssrc }
    {
        self.state.ssrc()
    }

    /// The pad, as it came.
    #[inline(always)]
    pub fn refuse(self) -> Pad
        ensures { result ≡ self.pad }
    {
        self.state.refuse()
    }
}

impl Typed<states::Headed, Rtp> {
    /// Chooses the first key that may serve and the packet's index, in the stream of its source, and
    /// spends both. A refusal changes nothing.
    #[inline(always)]
    pub fn number(
        self,
        stream: &mut Stream,
        keys: &mut KeySet,
    ) -> Result<Numbered, (Pad, NumberFault)>
        requires { stream.old.ssrc ≡ self.head.ssrc }
        ensures kept { MatchResult result (IsNumbered self keys.old) (λ e. e.0 ≡ self.pad) }
        ensures answer { ForIndicesOf stream.old (λ roc window indices. IsNumberedAs number_cause keys.old (next_index kind.Rtp roc window indices self.head.number) result) }
        ensures of { (stream.new.kind ≡ stream.old.kind) × (stream.new.ssrc ≡ stream.old.ssrc) }
        ensures taken { MatchResult result (λ n. TakesIn stream.old stream.new n.index) (λ _. stream.new ≡ stream.old) }
        ensures spent { MatchResult result (λ n. keys.new ≡ spent n.number keys.old) (λ _. keys.new ≡ keys.old) }
    {
        of_kind(self.state.number(&mut stream.state, keys))
    }
}

impl Typed<states::Headed, Rtcp> {
    /// Chooses the first key that may serve and the index after the stream's highest, that of the packet's
    /// source, and spends both. A refusal changes nothing.
    #[inline(always)]
    pub fn number(
        self,
        stream: &mut RtcpStream,
        keys: &mut KeySet,
    ) -> Result<Typed<states::Numbered, Rtcp>, (Pad, RtcpNumberFault)>
        requires { stream.old.ssrc ≡ self.head.ssrc }
        ensures kept { MatchResult result (IsNumbered self keys.old) (λ e. e.0 ≡ self.pad) }
        ensures answer { ForIndicesOf stream.old (λ roc window indices. IsNumberedAs rtcp_number_cause keys.old (next_index kind.Rtcp roc window indices self.head.number) result) }
        ensures of { (stream.new.kind ≡ stream.old.kind) × (stream.new.ssrc ≡ stream.old.ssrc) }
        ensures taken { MatchResult result (λ n. TakesIn stream.old stream.new n.index) (λ _. stream.new ≡ stream.old) }
        ensures spent { MatchResult result (λ n. keys.new ≡ spent n.number keys.old) (λ _. keys.new ≡ keys.old) }
    {
        of_kind(self.state.number_next(&mut stream.state, keys))
    }
}

impl Typed<states::Numbered, Rtp> {
    /// Seals the packet under its key, encrypted where the session says so, with a tag of ten octets or
    /// four. The keys are those that `number` left, and the key has a cipher's key where `encrypt` is true.
    #[inline(always)]
    pub fn seal(self, keys: &KeySet, encrypt: bool, tag_len: usize) -> Sealed
        requires tag { is_tag_len kind.Rtp tag_len ≡ true }
        requires key { CanSeal keys.now self.key self.number encrypt }
        ensures { (key : Live) → slice_get keys.now self.key ≡ Some key → IsSealedOf self key encrypt tag_len result }
    {
        let Typed { state, kind: _ } = self;
        state.seal(keys, encrypt, tag_len)
    }
}

impl Typed<states::Numbered, Rtcp> {
    /// Seals the packet under its key, encrypted where the session says so, with a tag of ten octets. The
    /// keys are those that `number` left, and the key has a cipher's key where `encrypt` is true.
    #[inline(always)]
    pub fn seal(self, keys: &KeySet, encrypt: bool) -> Sealed
        requires { CanSeal keys.now self.key self.number encrypt }
        ensures { (key : Live) → slice_get keys.now self.key ≡ Some key → IsSealedOf self key encrypt 10 result }
    {
        let Typed { state, kind: _ } = self;
        state.seal(keys, encrypt, RTCP_TAG)
    }
}
