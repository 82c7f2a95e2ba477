//! Opening a datagram, state by state: nothing unverified is decrypted, marked or counted.
//!
//! Each refusal hands back the pad with the octets that it came with, and the fault.

ghost use Rattle.std.specs.Prelude.{◌≡◌, ℕ, ◌+◌, ◌<◌, ◌≤◌, ◌^◌, List, [], ◌∷◌, ◌++◌, length, MatchResult, IfOk, IsTrue, IsSome, true, Ok, Err, Some, slice_get, option_copied};
ghost use Rattle.sg_base.specs.declared.keys.HalfKeys.{HalfKeys};
ghost use Rattle.sg_replay.specs.Freshness.{highest_with};
ghost use Rattle.sg_keys.specs.Live.{Live, schedule_key, spent};
ghost use Rattle.sg_session.specs.Opening.{head_cause};
ghost use Rattle.sg_states.specs.Choosing.{chosen_for, key_cause};
ghost use Rattle.sg_states.specs.Faults.{place_cause, stale_cause};
ghost use Rattle.sg_base.specs.declared.addresses.Kind.TheVariants as kind;
ghost use Rattle.sg_states.specs.Parts.{heading, is_tag_len, mki_of, word_len, IsNumber};
ghost use Rattle.sg_states.specs.Placing.{placed};
ghost use Rattle.sg_states.specs.Streams.{ForIndicesOf, IsOpenPlace, IsStreamOf, TakesIn};
ghost use Rattle.sg_states.specs.Inbound.{Heading, Keying, Placing, IsHeaded, IsKeyed, IsVerified, IsUnverified, IsKeyOf, IsPlacedAs, CanServe, IsOpened, packet_at};

use crate::faults::{BadTag, PlaceFault, Stale};
use crate::header::{Header, head_in};
use crate::keystream::apply_keystream;
use crate::mac::mac_over;
use crate::stream::Stream;
use sg_aes::Schedule;
use sg_base::{HeadFault, Kind, Pad};
use sg_hmac::tag_fits;
use sg_keys::{KeySet, OpenKeyFault};
use std::marker::Model;

/// A datagram whose head is read.
#[derive(Drop)]
pub struct Headed {
    pad: Pad,
    kind: Kind,
    mki_len: usize,
    tag_len: usize,
    head: Header,
}

impl Model for Headed {
    ghost use Rattle.std.specs.Prelude.{◌≤◌};
    ghost use Rattle.sg_states.specs.Inbound.{Heading, IsHeading};
    ghost use Rattle.sg_states.specs.Headers.{head_of};

    ghost Value = { Heading };

    ghost view = { λ h. record { pad = h.pad; kind = h.kind; mki_len = h.mki_len; tag_len = h.tag_len; head = head_of h.head } };

    ghost invariant = { λ h. IsHeading h.kind h.mki_len h.tag_len h.pad (head_of h.head) };
}

/// A datagram whose key is chosen: where the key stands among the session's, and its number.
#[derive(Drop)]
pub struct Keyed {
    headed: Headed,
    key: usize,
    number: u32,
}

impl Model for Keyed {
    ghost use Rattle.sg_states.specs.Inbound.{Keying};

    ghost Value = { Keying };

    ghost view = { λ k. record { headed = k.headed; key = k.key; number = k.number } };
}

/// A datagram whose index is found, and is new in its stream.
#[derive(Drop)]
pub struct Placed {
    keyed: Keyed,
    index: u64,
}

impl Model for Placed {
    ghost use Rattle.std.specs.Prelude.{◌<◌, ◌^◌};
    ghost use Rattle.sg_states.specs.Inbound.{Placing};

    ghost Value = { Placing };

    ghost view = { λ p. record { keyed = p.keyed; index = p.index } };

    ghost invariant = { λ p. p.index < 2 ^ 48 };
}

/// A datagram whose tag fits.
#[derive(Drop)]
pub struct Verified {
    placed: Placed,
}

impl Model for Verified {
    ghost use Rattle.sg_states.specs.Inbound.{Placing};

    ghost Value = { Placing };

    ghost view = { λ v. v.placed };
}

/// A packet that was opened: its octets, its source and index, and the number of its key.
#[derive(Drop)]
pub struct Opened {
    pub pad: Pad,
    pub ssrc: u32,
    pub index: u64,
    pub key: u32,
}

impl Headed {
    /// Reads the header of a datagram that ends in an MKI of at most 128 octets and a tag of ten or, for RTP
    /// alone, of four. RTP is encrypted where `encrypts` says so; a datagram of RTCP says it itself (RFC 3711,
    /// 3.4). Refusals: Short, Version, CsrcCut, ExtensionCut.
    #[tactic(auto, using(crate::proofs::Tags::tag_within))]
    #[inline(always)]
    pub fn read(
        kind: Kind,
        encrypts: bool,
        mki_len: usize,
        tag_len: usize,
        pad: Pad,
    ) -> Result<Headed, (Pad, HeadFault)>
        requires mki { mki_len ≤ 128 }
        requires tag { is_tag_len kind tag_len ≡ true }
        ensures { MatchResult result (IsHeaded pad kind encrypts mki_len tag_len) (λ e. (e.0 ≡ pad) × (heading kind encrypts mki_len tag_len pad ≡ Err (head_cause e.1))) }
    {
        match head_in(kind, encrypts, mki_len, tag_len, pad.octets()) {
            Ok(head) => Ok(Headed {
                pad,
                kind,
                mki_len,
                tag_len,
                head,
            }),
            Err(fault) => Err((pad, fault)),
        }
    }

    /// The source.
    #[inline(always)]
    pub fn ssrc(&self) -> u32
        ensures { result ≡ self.now.head.ssrc }
    {
        self.head.ssrc
    }

    // The number, which fits its kind.
    #[inline(always)]
    fn number(&self) -> u32
        ensures value { result ≡ self.now.head.number }
        ensures fits { IsNumber self.now.kind result }
    {
        self.head.number
    }

    /// The pad, as it came.
    #[inline(always)]
    pub fn refuse(self) -> Pad
        ensures { result ≡ self.pad }
    {
        self.pad
    }

    // The octets of the MKI.
    #[inline(always)]
    fn mki(&self) -> &[u8]
        ensures { result.now ≡ mki_of self.now.mki_len self.now.tag_len self.now.pad }
    {
        let octets = self.pad.octets();
        let (_, end) = octets.split_at(octets.len() - (self.mki_len + self.tag_len));
        &end[..self.mki_len]
    }

    /// Chooses the first key that has the datagram's MKI (RFC 3711, 3.3). Refusals: MkiUnknown, where none has
    /// it; KeySpent, with its number and its count of packets, where it has served all that it may (9.2).
    #[inline(always)]
    pub fn key(self, keys: &KeySet) -> Result<Keyed, (Pad, OpenKeyFault)>
        ensures { MatchResult result (IsKeyed self keys.now)
            (λ e. (e.0 ≡ self.pad) × (chosen_for keys.now (mki_of self.mki_len self.tag_len self.pad) ≡ Err (key_cause e.1))) }
    {
        match keys.choose_mki(self.mki()) {
            Ok(key) => Ok(Keyed {
                headed: self,
                key,
                number: keys.key(key).number,
            }),
            Err(fault) => Err((self.refuse(), fault)),
        }
    }
}

impl Keyed {
    /// The kind.
    #[inline(always)]
    pub fn kind(&self) -> Kind
        ensures { result ≡ self.now.headed.kind }
    {
        self.headed.kind
    }

    /// The source.
    #[inline(always)]
    pub fn ssrc(&self) -> u32
        ensures { result ≡ self.now.headed.head.ssrc }
    {
        self.headed.ssrc()
    }

    // The pad, as it came.
    #[inline(always)]
    fn refuse(self) -> Pad
        ensures { result ≡ self.headed.pad }
    {
        self.headed.refuse()
    }

    /// Finds the index of a packet of RTP in the stream of its source, which is only read.
    #[inline(always)]
    pub fn place(self, stream: &Stream) -> Result<Placed, (Pad, PlaceFault)>
        requires rtp { self.headed.kind ≡ kind.Rtp }
        requires of { IsStreamOf stream.now kind.Rtp self.headed.head.ssrc }
        ensures open { MatchResult result (λ p. (p.keyed ≡ self) × IsOpenPlace stream.now p.index) (λ e. e.0 ≡ self.headed.pad) }
        ensures answer { ForIndicesOf stream.now (λ roc window indices. IsPlacedAs place_cause (placed kind.Rtp roc window indices self.headed.head.number) result) }
    {
        match stream.place(self.headed.number() as u16) {
            Ok(index) => Ok(Placed { keyed: self, index }),
            Err(fault) => Err((self.refuse(), fault)),
        }
    }

    /// Compares the index that a datagram of RTCP carries with the stream of its source, which is only read.
    #[inline(always)]
    pub fn place_carried(self, stream: &Stream) -> Result<Placed, (Pad, Stale)>
        requires rtcp { self.headed.kind ≡ kind.Rtcp }
        requires of { IsStreamOf stream.now kind.Rtcp self.headed.head.ssrc }
        ensures open { MatchResult result (λ p. (p.keyed ≡ self) × IsOpenPlace stream.now p.index) (λ e. e.0 ≡ self.headed.pad) }
        ensures bound { IfOk result (λ p. p.index < 2147483648) }
        ensures answer { ForIndicesOf stream.now (λ roc window indices. IsPlacedAs stale_cause (placed kind.Rtcp roc window indices self.headed.head.number) result) }
    {
        match stream.new_index(u64::from(self.headed.number())) {
            Ok(index) => Ok(Placed { keyed: self, index }),
            Err(fault) => Err((self.refuse(), fault)),
        }
    }
}

impl Placed {
    /// Compares the tag under the chosen key, among the keys that it was chosen among.
    #[inline(always)]
    pub fn verify(self, keys: &KeySet) -> Result<Verified, (Pad, BadTag)>
        requires { IsKeyOf keys.now self.keyed.key self.keyed.number }
        ensures { (key : Live) → slice_get keys.now self.keyed.key ≡ Some key → MatchResult result (IsVerified self key) (λ e. IsUnverified self key e.0) }
    {
        let keyed = &self.keyed;
        let headed = &keyed.headed;
        let octets = headed.pad.octets();
        let prefix = &octets[..octets.len() - (headed.mki_len + headed.tag_len)];
        let whole = mac_over(headed.kind, keys.mac(keyed.key), prefix, self.index);
        let (_, tag) = octets.split_at(octets.len() - headed.tag_len);
        if tag_fits(&whole, tag) {
            Ok(Verified { placed: self })
        } else {
            Err((self.keyed.refuse(), BadTag))
        }
    }
}

impl Headed {
    // The packet alone, with the keystream of its index taken off where it is encrypted.
    #[inline(always)]
    fn into_packet(
        self,
        encrypted: bool,
        schedule: Option<&Schedule>,
        salt: &[u8; 14],
        index: u64,
    ) -> Pad
        requires index { index < 2 ^ 48 }
        requires cipher { IsTrue encrypted → IsSome schedule }
        ensures { (half : HalfKeys) → half.salt ≡ salt.now → option_copied schedule.entry ≡ schedule_key half.encrypt → result ≡ packet_at self encrypted half index }
    {
        let Headed {
            mut pad,
            kind,
            mki_len,
            tag_len,
            head,
        } = self;
        let count = pad.octets().len() - (word_len(kind) + (mki_len + tag_len));
        pad.cut_to(count);
        match schedule {
            Some(schedule) if encrypted => {
                apply_keystream(schedule, salt, head.ssrc, index, head.size, &mut pad);
                pad
            }
            _ => pad,
        }
    }
}

// The octets between a packet and the MKI: of RTCP the index word.
#[inline(always)]
fn word_len(kind: Kind) -> usize
    ensures value { result ≡ word_len kind }
    ensures most { result ≤ 4 }
{
    match kind {
        Kind::Rtp => 0,
        Kind::Rtcp => 4,
    }
}

impl Verified {
    /// The pad, as it came.
    #[inline(always)]
    pub fn refuse(self) -> Pad
        ensures { result ≡ self.keyed.headed.pad }
    {
        let Placed { keyed, index: _ } = self.placed;
        keyed.refuse()
    }

    /// Whether the packet is encrypted, as its header was read.
    #[inline(always)]
    pub fn encrypted(&self) -> bool
        ensures { result ≡ self.now.keyed.headed.head.encrypted }
    {
        self.placed.keyed.headed.head.encrypted
    }

    /// Takes the keystream off where the packet is encrypted, marks the index and counts the packet under
    /// its key. The stream and the keys are those that the datagram was placed and verified with.
    #[inline(always)]
    pub fn decrypt(self, stream: &mut Stream, keys: &mut KeySet, encrypted: bool) -> Opened
        requires source { IsStreamOf stream.old self.keyed.headed.kind self.keyed.headed.head.ssrc }
        requires open { IsOpenPlace stream.old self.index }
        requires key { CanServe keys.old self.keyed.key self.keyed.number encrypted }
        ensures opened { (key : Live) → slice_get keys.old self.keyed.key ≡ Some key → IsOpened self key encrypted result }
        ensures of { (stream.new.kind ≡ stream.old.kind) × (stream.new.ssrc ≡ stream.old.ssrc) }
        ensures highest { stream.new.highest ≡ Some (highest_with stream.old.highest self.index) }
        ensures stream { TakesIn stream.old stream.new self.index }
        ensures keys { (key : Live) → slice_get keys.old self.keyed.key ≡ Some key → keys.new ≡ spent key.number keys.old }
    {
        let Verified { placed } = self;
        let Placed { keyed, index } = placed;
        let Keyed {
            headed,
            key: at,
            number,
        } = keyed;
        let ssrc = headed.ssrc();
        let key = keys.key(at);
        let pad = headed.into_packet(encrypted, keys.schedule(at), &key.half.salt, index);
        stream.take(index);
        keys.spend(at);
        Opened {
            pad,
            ssrc,
            index,
            key: number,
        }
    }
}
