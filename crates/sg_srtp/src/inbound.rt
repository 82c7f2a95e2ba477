//! Opening a datagram, state by state: nothing unverified is decrypted, marked or counted.
//!
//! Each refusal hands back the pad with the octets that it came with, and the fault.

ghost use Rattle.std.specs.Prelude.{◌≡◌, ◌≤◌, MatchResult, true, false, Err, Some, slice_get};
ghost use Rattle.sg_base.specs.declared.addresses.Kind.TheVariants as kind;
ghost use Rattle.sg_keys.specs.Live.{Live, spent};
ghost use Rattle.sg_session.specs.Opening.{head_cause};
ghost use Rattle.sg_states.specs.Choosing.{chosen_for, key_cause};
ghost use Rattle.sg_states.specs.Faults.{place_cause, stale_cause};
ghost use Rattle.sg_states.specs.Inbound.{IsHeaded, IsKeyed, IsKeyOf, IsPlacedAs, IsVerified, IsUnverified, CanServe, IsOpened};
ghost use Rattle.sg_states.specs.Parts.{heading, is_tag_len, mki_of};
ghost use Rattle.sg_states.specs.Placing.{placed};
ghost use Rattle.sg_states.specs.Streams.{ForIndicesOf, IsOpenPlace, TakesIn};

use crate::kinds::{OneKind, Rtcp, Rtp, Typed, of_kind};
use crate::stream::{RtcpStream, Stream};
use sg_base::{HeadFault, Kind, Pad, RTCP_TAG};
use sg_keys::{KeySet, OpenKeyFault};
pub use sg_states::inbound::Opened;
use sg_states::{BadTag, PlaceFault, Stale, inbound as states};
use std::marker::PhantomData;

/// A datagram that arrived, seen as its octets.
pub type Arrived = Typed<Pad, Rtp>;

/// A datagram whose head is read.
pub type Headed = Typed<states::Headed, Rtp>;

/// A datagram whose key is chosen.
pub type Keyed = Typed<states::Keyed, Rtp>;

/// A datagram whose index is found, and is new in its stream.
pub type Placed = Typed<states::Placed, Rtp>;

/// A datagram whose tag fits.
pub type Verified = Typed<states::Verified, Rtp>;

impl<K: OneKind> Typed<Pad, K> {
    /// A datagram in its pad.
    #[inline(always)]
    pub fn make(pad: Pad) -> Typed<Pad, K>
        ensures { result ≡ pad }
    {
        Typed {
            state: pad,
            kind: PhantomData,
        }
    }
}

impl Typed<Pad, Rtp> {
    /// Reads the head of a datagram that ends in an MKI of at most 128 octets and a tag of ten or four.
    #[inline(always)]
    pub fn head(self, mki_len: usize, tag_len: usize) -> Result<Headed, (Pad, HeadFault)>
        requires mki { mki_len ≤ 128 }
        requires tag { is_tag_len kind.Rtp tag_len ≡ true }
        ensures { MatchResult result (IsHeaded self kind.Rtp false mki_len tag_len)
            (λ e. (e.0 ≡ self) × (heading kind.Rtp false mki_len tag_len self ≡ Err (head_cause e.1))) }
    {
        of_kind(states::Headed::read(Kind::Rtp, false, mki_len, tag_len, self.state))
    }
}

impl Typed<Pad, Rtcp> {
    /// Reads the head of a datagram that ends in an index word, an MKI of at most 128 octets and a tag of ten.
    #[inline(always)]
    pub fn head(self, mki_len: usize) -> Result<Typed<states::Headed, Rtcp>, (Pad, HeadFault)>
        requires { mki_len ≤ 128 }
        ensures { MatchResult result (IsHeaded self kind.Rtcp false mki_len 10)
            (λ e. (e.0 ≡ self) × (heading kind.Rtcp false mki_len 10 self ≡ Err (head_cause e.1))) }
    {
        of_kind(states::Headed::read(Kind::Rtcp, false, mki_len, RTCP_TAG, self.state))
    }
}

impl<K: OneKind> Typed<states::Headed, K> {
    /// The source.
    #[inline(always)]
    pub fn ssrc(&self) -> u32
        ensures { result ≡ self.now.head.ssrc }
    {
        self.state.ssrc()
    }

    /// The pad, as it came.
    #[inline(always)]
    pub fn refuse(self) -> Pad
        ensures { result ≡ self.pad }
    {
        self.state.refuse()
    }

    /// Chooses the first key that has the datagram's MKI (RFC 3711, 3.3). Refusals: MkiUnknown, where none has
    /// it; KeySpent, with its number and its count of packets, where it has served all that it may (9.2).
    #[inline(always)]
    pub fn key(self, keys: &KeySet) -> Result<Typed<states::Keyed, K>, (Pad, OpenKeyFault)>
        ensures { MatchResult result (IsKeyed self keys.now)
            (λ e. (e.0 ≡ self.pad) × (chosen_for keys.now (mki_of self.mki_len self.tag_len self.pad) ≡ Err (key_cause e.1))) }
    {
        of_kind(self.state.key(keys))
    }
}

impl<K: OneKind> Typed<states::Keyed, K> {
    /// The source.
    #[inline(always)]
    pub fn ssrc(&self) -> u32
        ensures { result ≡ self.now.headed.head.ssrc }
    {
        self.state.ssrc()
    }
}

impl Typed<states::Keyed, Rtp> {
    /// Finds the index in the stream of the packet's source, which is only read (RFC 3711, 3.3.1, 3.3.2).
    #[inline(always)]
    pub fn place(self, stream: &Stream) -> Result<Placed, (Pad, PlaceFault)>
        requires { stream.now.ssrc ≡ self.headed.head.ssrc }
        ensures open { MatchResult result (λ p. (p.keyed ≡ self) × IsOpenPlace stream.now p.index) (λ e. e.0 ≡ self.headed.pad) }
        ensures answer { ForIndicesOf stream.now (λ roc window indices. IsPlacedAs place_cause (placed kind.Rtp roc window indices self.headed.head.number) result) }
    {
        of_kind(self.state.place(&stream.state))
    }
}

impl Typed<states::Keyed, Rtcp> {
    /// Compares the index that the datagram carries with the stream of its source, which is only read (RFC
    /// 3711, 3.3.2).
    #[inline(always)]
    pub fn place(self, stream: &RtcpStream) -> Result<Typed<states::Placed, Rtcp>, (Pad, Stale)>
        requires { stream.now.ssrc ≡ self.headed.head.ssrc }
        ensures open { MatchResult result (λ p. (p.keyed ≡ self) × IsOpenPlace stream.now p.index) (λ e. e.0 ≡ self.headed.pad) }
        ensures answer { ForIndicesOf stream.now (λ roc window indices. IsPlacedAs stale_cause (placed kind.Rtcp roc window indices self.headed.head.number) result) }
    {
        of_kind(self.state.place_carried(&stream.state))
    }
}

impl<K: OneKind> Typed<states::Placed, K> {
    /// Compares the tag under the chosen key, among the keys that it was chosen among.
    #[inline(always)]
    pub fn verify(self, keys: &KeySet) -> Result<Typed<states::Verified, K>, (Pad, BadTag)>
        requires { IsKeyOf keys.now self.keyed.key self.keyed.number }
        ensures { (key : Live) → slice_get keys.now self.keyed.key ≡ Some key → MatchResult result (IsVerified self key) (λ e. IsUnverified self key e.0) }
    {
        of_kind(self.state.verify(keys))
    }
}

impl<K: OneKind> Typed<states::Verified, K> {
    /// The pad, as it came.
    #[inline(always)]
    pub fn refuse(self) -> Pad
        ensures { result ≡ self.keyed.headed.pad }
    {
        self.state.refuse()
    }
}

impl Typed<states::Verified, Rtp> {
    /// Takes the keystream off where the session encrypts, marks the index and counts the packet under its
    /// key. The stream and the keys are those that the datagram was placed and verified with, and the key
    /// has a cipher's key where `encrypt` is true.
    #[inline(always)]
    pub fn decrypt(self, stream: &mut Stream, keys: &mut KeySet, encrypt: bool) -> Opened
        requires source { stream.old.ssrc ≡ self.keyed.headed.head.ssrc }
        requires open { IsOpenPlace stream.old self.index }
        requires key { CanServe keys.old self.keyed.key self.keyed.number encrypt }
        ensures opened { (key : Live) → slice_get keys.old self.keyed.key ≡ Some key → IsOpened self key encrypt result }
        ensures of { (stream.new.kind ≡ stream.old.kind) × (stream.new.ssrc ≡ stream.old.ssrc) }
        ensures stream { TakesIn stream.old stream.new self.index }
        ensures keys { (key : Live) → slice_get keys.old self.keyed.key ≡ Some key → keys.new ≡ spent key.number keys.old }
    {
        self.state.decrypt(&mut stream.state, keys, encrypt)
    }
}

impl Typed<states::Verified, Rtcp> {
    /// Takes the keystream off where the datagram's own E says so, marks the index and counts the packet
    /// under its key. The stream and the keys are those that the datagram was placed and verified with, and
    /// the key has a cipher's key where E is 1.
    #[inline(always)]
    pub fn decrypt(self, stream: &mut RtcpStream, keys: &mut KeySet) -> Opened
        requires source { stream.old.ssrc ≡ self.keyed.headed.head.ssrc }
        requires open { IsOpenPlace stream.old self.index }
        requires key { CanServe keys.old self.keyed.key self.keyed.number self.keyed.headed.head.encrypted }
        ensures opened { (key : Live) → slice_get keys.old self.keyed.key ≡ Some key → IsOpened self key self.keyed.headed.head.encrypted result }
        ensures of { (stream.new.kind ≡ stream.old.kind) × (stream.new.ssrc ≡ stream.old.ssrc) }
        ensures stream { TakesIn stream.old stream.new self.index }
        ensures keys { (key : Live) → slice_get keys.old self.keyed.key ≡ Some key → keys.new ≡ spent key.number keys.old }
    {
        let encrypted = self.state.encrypted();
        self.state.decrypt(&mut stream.state, keys, encrypted)
    }
}
