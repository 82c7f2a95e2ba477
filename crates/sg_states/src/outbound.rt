//! Sealing a packet, state by state: once it has its number, it must be sealed.
//!
//! Each refusal hands back the pad with the octets that it came with, and the fault.

ghost use Rattle.std.specs.Prelude.{◌≡◌, ℕ, ◌+◌, ◌<◌, ◌≤◌, ◌^◌, List, [], ◌∷◌, ◌++◌, length, take, MatchResult, IfOk, IsTrue, IsSome, true, Ok, Err, Some, slice_get, option_copied};
ghost use Rattle.sg_base.specs.declared.keys.HalfKeys.{HalfKeys};
ghost use Rattle.sg_hmac.specs.States.{IsMacKey};
ghost use Rattle.sg_replay.specs.Freshness.{highest_with};
ghost use Rattle.sg_keys.specs.Live.{Live, schedule_key, spent};
ghost use Rattle.sg_base.specs.declared.addresses.Kind.TheVariants as kind;
ghost use Rattle.sg_session.specs.Opening.{head_cause};
ghost use Rattle.sg_states.specs.Faults.{number_cause, rtcp_number_cause};
ghost use Rattle.sg_states.specs.Parts.{heading_out, is_tag_len};
ghost use Rattle.sg_states.specs.Placing.{next_index, IsIndex};
ghost use Rattle.sg_session.specs.Sealed.{index_word, tagged_rtp, tagged_rtcp};
ghost use Rattle.sg_states.specs.Streams.{ForIndicesOf, IsOpenPlace, IsStreamOf, TakesIn};
ghost use Rattle.sg_states.specs.Outbound.{CanSeal, IsOutHeaded, IsNumbered, IsNumberedAs, IsSealedOf, encrypted_at};

use crate::faults::{NumberFault, RtcpNumberFault, of_place};
use crate::header::{Header, head_out};
use crate::keystream::apply_keystream;
use crate::mac::mac_over;
use crate::stream::Stream;
use sg_aes::Schedule;
use sg_base::{HeadFault, Kind, Pad, RTCP_TAG, octets_of_u32};
use sg_hmac::MacKey;
use sg_keys::{KeySet, Spent};
use std::marker::Model;

/// A plain packet whose head is read.
#[derive(Drop)]
pub struct Headed {
    pad: Pad,
    kind: Kind,
    head: Header,
}

impl Model for Headed {
    ghost use Rattle.sg_states.specs.Outbound.{Outgoing, IsOutgoing};
    ghost use Rattle.sg_states.specs.Headers.{head_of};

    ghost Value = { Outgoing };

    ghost view = { λ h. record { pad = h.pad; kind = h.kind; head = head_of h.head } };

    ghost invariant = { λ h. IsOutgoing h.pad h.kind (head_of h.head) };
}

/// A packet that has its index and its key, which are spent. It can't be dropped: it must be sealed.
pub struct Numbered {
    headed: Headed,
    key: usize,
    number: u32,
    index: u64,
}

impl Model for Numbered {
    ghost use Rattle.std.specs.Prelude.{◌<◌, ◌^◌};
    ghost use Rattle.sg_states.specs.Outbound.{Numbering};

    ghost Value = { Numbering };

    ghost view = { λ n. record { headed = n.headed; key = n.key; number = n.number; index = n.index } };

    ghost use Rattle.sg_states.specs.Placing.{IsIndex};

    ghost invariant = { λ n. (n.index < 2 ^ 48) × IsIndex n.headed.kind n.index };
}

/// A datagram that was sealed: its octets, its source and index, and the number of its key.
#[derive(Drop)]
pub struct Sealed {
    pub pad: Pad,
    pub ssrc: u32,
    pub index: u64,
    pub key: u32,
}

impl Headed {
    /// Reads the header of a plain packet of at most 4,096 octets, which is to be encrypted or not. Refusals:
    /// Short, Version, CsrcCut, ExtensionCut.
    #[inline(always)]
    pub fn read(kind: Kind, encrypts: bool, pad: Pad) -> Result<Headed, (Pad, HeadFault)>
        requires { length pad ≤ 4096 }
        ensures { MatchResult result (IsOutHeaded pad kind encrypts) (λ e. (e.0 ≡ pad) × (heading_out kind encrypts pad ≡ Err (head_cause e.1))) }
    {
        match head_out(kind, encrypts, pad.octets()) {
            Ok(head) => Ok(Headed { pad, kind, head }),
            Err(fault) => Err((pad, fault)),
        }
    }

    /// The kind.
    #[inline(always)]
    pub fn kind(&self) -> Kind
        ensures { result ≡ self.now.kind }
    {
        self.kind
    }

    /// The source.
    #[inline(always)]
    pub fn ssrc(&self) -> u32
        ensures { result ≡ self.now.head.ssrc }
    {
        self.head.ssrc
    }

    /// Whether the packet is to be encrypted, as its header was read.
    #[inline(always)]
    pub fn encrypted(&self) -> bool
        ensures { result ≡ self.now.head.encrypted }
    {
        self.head.encrypted
    }

    /// The pad, as it came.
    #[inline(always)]
    pub fn refuse(self) -> Pad
        ensures { result ≡ self.pad }
    {
        self.pad
    }

    // Spends an index of the stream and a packet of the key at a position.
    #[inline(always)]
    fn spend(self, stream: &mut Stream, keys: &mut KeySet, key: usize, index: u64) -> Numbered
        requires open { IsOpenPlace stream.old index }
        requires bound { IsIndex self.kind index }
        requires alive { (k : Live) × (slice_get keys.old key ≡ Some k) × (k.count < k.life) }
        ensures same { (result.headed ≡ self) × (result.key ≡ key) × (result.index ≡ index) }
        ensures number { (k : Live) → slice_get keys.old key ≡ Some k → result.number ≡ k.number }
        ensures of { (stream.new.kind ≡ stream.old.kind) × (stream.new.ssrc ≡ stream.old.ssrc) }
        ensures highest { stream.new.highest ≡ Some (highest_with stream.old.highest index) }
        ensures taken { TakesIn stream.old stream.new index }
        ensures spent { keys.new ≡ spent result.number keys.old }
    {
        let number = keys.key(key).number;
        stream.take(index);
        keys.spend(key);
        Numbered {
            headed: self,
            key,
            number,
            index,
        }
    }

    /// Chooses the first key that may serve and the index of an RTP packet, in the stream of its source, and
    /// spends both. A refusal changes nothing.
    #[inline(always)]
    pub fn number(
        self,
        stream: &mut Stream,
        keys: &mut KeySet,
    ) -> Result<Numbered, (Pad, NumberFault)>
        requires rtp { self.kind ≡ kind.Rtp }
        requires of { IsStreamOf stream.old kind.Rtp self.head.ssrc }
        ensures kept { MatchResult result (IsNumbered self keys.old) (λ e. e.0 ≡ self.pad) }
        ensures answer { ForIndicesOf stream.old (λ roc window indices. IsNumberedAs number_cause keys.old (next_index kind.Rtp roc window indices self.head.number) result) }
        ensures of { (stream.new.kind ≡ stream.old.kind) × (stream.new.ssrc ≡ stream.old.ssrc) }
        ensures taken { MatchResult result (λ n. TakesIn stream.old stream.new n.index) (λ _. stream.new ≡ stream.old) }
        ensures spent { MatchResult result (λ n. keys.new ≡ spent n.number keys.old) (λ _. keys.new ≡ keys.old) }
    {
        let key = match keys.choose_seal() {
            Ok(key) => key,
            Err(Spent { number, count }) => {
                return Err((self.refuse(), NumberFault::KeySpent { number, count }));
            }
        };
        match stream.place(self.head.number as u16) {
            Ok(index) => Ok(self.spend(stream, keys, key, index)),
            Err(fault) => Err((self.refuse(), of_place(fault))),
        }
    }

    /// Chooses the first key that may serve and the next index of an RTCP stream, that of the packet's
    /// source, and spends both. A refusal changes nothing.
    #[inline(always)]
    pub fn number_next(
        self,
        stream: &mut Stream,
        keys: &mut KeySet,
    ) -> Result<Numbered, (Pad, RtcpNumberFault)>
        requires rtcp { self.kind ≡ kind.Rtcp }
        requires of { IsStreamOf stream.old kind.Rtcp self.head.ssrc }
        ensures kept { MatchResult result (IsNumbered self keys.old) (λ e. e.0 ≡ self.pad) }
        ensures answer { ForIndicesOf stream.old (λ roc window indices. IsNumberedAs rtcp_number_cause keys.old (next_index kind.Rtcp roc window indices self.head.number) result) }
        ensures of { (stream.new.kind ≡ stream.old.kind) × (stream.new.ssrc ≡ stream.old.ssrc) }
        ensures highest { IfOk result (λ n. stream.new.highest ≡ Some (highest_with stream.old.highest n.index)) }
        ensures bound { IfOk result (λ n. n.index < 2147483648) }
        ensures taken { MatchResult result (λ n. TakesIn stream.old stream.new n.index) (λ _. stream.new ≡ stream.old) }
        ensures spent { MatchResult result (λ n. keys.new ≡ spent n.number keys.old) (λ _. keys.new ≡ keys.old) }
    {
        let key = match keys.choose_seal() {
            Ok(key) => key,
            Err(Spent { number, count }) => {
                return Err((self.refuse(), RtcpNumberFault::KeySpent { number, count }));
            }
        };
        match stream.following() {
            Some(index) => Ok(self.spend(stream, keys, key, index)),
            None => Err((self.refuse(), RtcpNumberFault::RtcpIndexSpent)),
        }
    }

    // The packet with the keystream of its index put on, where it is to be encrypted.
    #[inline(always)]
    fn into_encrypted(
        self,
        encrypted: bool,
        schedule: Option<&Schedule>,
        salt: &[u8; 14],
        index: u64,
    ) -> Pad
        requires index { index < 2 ^ 48 }
        requires cipher { IsTrue encrypted → IsSome schedule }
        ensures encrypted { (half : HalfKeys) → half.salt ≡ salt.now → option_copied schedule.entry ≡ schedule_key half.encrypt → result ≡ encrypted_at self encrypted half index }
        ensures most { length result ≤ 4096 }
    {
        let Headed {
            mut pad,
            kind: _,
            head,
        } = self;
        match schedule {
            Some(schedule) if encrypted => {
                apply_keystream(schedule, salt, head.ssrc, index, head.size, &mut pad);
                pad
            }
            _ => pad,
        }
    }
}

// The index word of an RTCP datagram: E as the highest bit, and the 31 bits of the index (RFC 3711, 3.4).
#[inline(always)]
fn word_of(encrypted: bool, index: u64) -> [u8; 4]
    requires { index < 2147483648 }
    ensures { result ≡ index_word encrypted index }
{
    let index = index as u32;
    octets_of_u32(if encrypted { 2147483648 + index } else { index })
}

// Puts the MKI and the first octets of a MAC behind the rest.
#[inline(always)]
fn append_end(pad: &mut Pad, mki: &[u8], whole: &[u8; 20], tag_len: usize)
    requires room { length pad.old ≤ 4100 }
    requires mki { length mki.now ≤ 128 }
    requires tag { tag_len ≤ 20 }
    ensures { pad.new ≡ pad.old ++ (mki.now ++ take tag_len whole.now) }
{
    pad.append(mki);
    pad.append(&whole[..tag_len]);
}

// Puts MKI and tag behind an RTP packet.
#[inline(always)]
fn close_rtp(pad: &mut Pad, mac: &MacKey, mki: &[u8], tag_len: usize, index: u64)
    requires index { index < 2 ^ 48 }
    requires room { length pad.old ≤ 4096 }
    requires mki { length mki.now ≤ 128 }
    requires tag { tag_len ≤ 20 }
    ensures { (half : HalfKeys) → IsMacKey half.auth mac.now → pad.new ≡ tagged_rtp half tag_len index mki.now pad.old }
{
    let whole = mac_over(Kind::Rtp, mac, pad.octets(), index);
    append_end(pad, mki, &whole, tag_len);
}

// Puts index word, MKI and tag behind an RTCP packet.
#[inline(always)]
fn close_rtcp(pad: &mut Pad, mac: &MacKey, mki: &[u8], encrypted: bool, index: u64)
    requires index { index < 2147483648 }
    requires room { length pad.old ≤ 4096 }
    requires mki { length mki.now ≤ 128 }
    ensures { (half : HalfKeys) → IsMacKey half.auth mac.now → pad.new ≡ tagged_rtcp half mki.now (pad.old ++ index_word encrypted index) }
{
    pad.append(&word_of(encrypted, index));
    let whole = mac_over(Kind::Rtcp, mac, pad.octets(), index);
    append_end(pad, mki, &whole, RTCP_TAG);
}

impl Numbered {
    /// Seals the packet under its key, encrypted or not. The keys are those that `number` left; a tag of
    /// RTCP has ten octets.
    #[inline(always)]
    pub fn seal(self, keys: &KeySet, encrypted: bool, tag_len: usize) -> Sealed
        requires tag { is_tag_len self.headed.kind tag_len ≡ true }
        requires key { CanSeal keys.now self.key self.number encrypted }
        ensures { (key : Live) → slice_get keys.now self.key ≡ Some key → IsSealedOf self key encrypted tag_len result }
    {
        let Numbered {
            headed,
            key: at,
            number,
            index,
        } = self;
        let kind = headed.kind;
        let ssrc = headed.ssrc();
        let key = keys.key(at);
        let mki = keys.mki(at);
        let mac = keys.mac(at);
        let schedule = keys.schedule(at);
        let mut pad = headed.into_encrypted(encrypted, schedule, &key.half.salt, index);
        match kind {
            Kind::Rtp => close_rtp(&mut pad, mac, mki, tag_len, index),
            Kind::Rtcp => close_rtcp(&mut pad, mac, mki, encrypted, index),
        }
        Sealed {
            pad,
            ssrc,
            index,
            key: number,
        }
    }
}
