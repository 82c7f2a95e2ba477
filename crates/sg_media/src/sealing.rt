//! Sealing a packet in one stream, and among the streams of a side.

ghost use Rattle.std.specs.Prelude.{◌≡◌, ℕ, ◌≤◌, List, map, IfOk, IfErr, MatchResult, OnErr, true};
ghost use Rattle.sg_keys.specs.Live.{spent};
ghost use Rattle.sg_session.specs.Session.{Done};
ghost use Rattle.sg_states.specs.Outbound.{IsNumbered, IsNumberedAs};
ghost use Rattle.sg_states.specs.Parts.{is_tag_len};
ghost use Rattle.sg_states.specs.Placing.{next_index};
ghost use Rattle.sg_states.specs.Streams.{ForIndicesOf, IsStreamOf, StreamStands, TakesIn};
ghost use Rattle.sg_media.specs.Answers.{closed_among, entry_out, roomed, sealed_at, told_of};
ghost use Rattle.sg_media.specs.Ciphers.{EachEncrypts};
ghost use Rattle.sg_media.specs.Standing.{source_of, AreOfKind, StreamsStand, StreamsTake, room_in};

use crate::faults::{of_number, of_rtcp_number};
use crate::outbound::Sealed;
use crate::streams::Streams;
use sg_base::{DropCause, Kind, Pad};
use sg_keys::KeySet;
use sg_states::Stream;
use sg_states::outbound::{Headed, Numbered};

// Chooses the first key that may serve and the packet's index, in the stream of its source, and spends both.
// Of RTP it is the index of its number, of RTCP the one after the highest (RFC 3711, 3.3.1 and 3.4).
#[inline(always)]
fn number(
    headed: Headed,
    stream: &mut Stream,
    keys: &mut KeySet,
) -> Result<Numbered, (Pad, DropCause)>
    requires { IsStreamOf stream.old headed.kind headed.head.ssrc }
    ensures kept { MatchResult result (IsNumbered headed keys.old) (λ e. e.0 ≡ headed.pad) }
    ensures answer { ForIndicesOf stream.old (λ roc window indices. IsNumberedAs (λ cause. cause) keys.old (next_index headed.kind roc window indices headed.head.number) result) }
    ensures of { (stream.new.kind ≡ stream.old.kind) × (stream.new.ssrc ≡ stream.old.ssrc) }
    ensures taken { MatchResult result (λ n. TakesIn stream.old stream.new n.index) (λ _. stream.new ≡ stream.old) }
    ensures spent { MatchResult result (λ n. keys.new ≡ spent n.number keys.old) (λ _. keys.new ≡ keys.old) }
{
    match headed.kind() {
        Kind::Rtp => match headed.number(stream, keys) {
            Ok(numbered) => Ok(numbered),
            Err((pad, fault)) => Err((pad, of_number(fault))),
        },
        Kind::Rtcp => match headed.number_next(stream, keys) {
            Ok(numbered) => Ok(numbered),
            Err((pad, fault)) => Err((pad, of_rtcp_number(fault))),
        },
    }
}

// Seals a packet in the stream of its source.
#[inline(always)]
fn seal_in(
    headed: Headed,
    stream: &mut Stream,
    keys: &mut KeySet,
    tag_len: usize,
) -> Result<Sealed, (Pad, DropCause)>
    requires source { IsStreamOf stream.old headed.kind headed.head.ssrc }
    requires tag { is_tag_len headed.kind tag_len ≡ true }
    requires ciphers { EachEncrypts keys.old headed.head.encrypted }
    ensures answer { (ssrc roc window : ℕ) (indices : List ℕ) → StreamStands stream.old ssrc roc window indices
        → result ≡ told_of headed.kind headed.pad (sealed_at headed keys.old tag_len (next_index headed.kind roc window indices headed.head.number)) }
    ensures of { (stream.new.kind ≡ stream.old.kind) × (stream.new.ssrc ≡ stream.old.ssrc) }
    ensures stream { IfOk result (λ o. TakesIn stream.old stream.new o.index) }
    ensures keys { IfOk result (λ o. keys.new ≡ spent o.key keys.old) }
    ensures source { IfOk result (λ o. o.ssrc ≡ headed.head.ssrc) }
    ensures back { IfErr result (λ e. e.0 ≡ headed.pad) }
    ensures stays { OnErr result ((stream.new ≡ stream.old) × (keys.new ≡ keys.old)) }
{
    let kind = headed.kind();
    let encrypted = headed.encrypted();
    match number(headed, stream, keys) {
        Ok(numbered) => {
            let sealed = numbered.seal(keys, encrypted, tag_len);
            Ok(Sealed {
                pad: sealed.pad,
                kind,
                ssrc: sealed.ssrc,
                index: sealed.index,
                key: sealed.key,
            })
        }
        Err(refused) => Err(refused),
    }
}

/// Seals a packet whose source is admitted. A new source's stream takes a place only where the packet is sealed.
pub(crate) fn seal_among(
    headed: Headed,
    streams: &mut Streams,
    keys: &mut KeySet,
    tag_len: usize,
    roc: u32,
    window: u16,
) -> Result<Sealed, (Pad, DropCause)>
    requires at_least { 64 ≤ window }
    requires at_most { window ≤ 1024 }
    requires tag { is_tag_len headed.kind tag_len ≡ true }
    requires kinds { AreOfKind streams.old.list.items headed.kind }
    requires row { streams.old.row.items ≡ map source_of streams.old.list.items }
    requires ciphers { EachEncrypts keys.old headed.head.encrypted }
    ensures answer { (done : List Done) → StreamsStand streams.old.list.items roc window done
        → result ≡ told_of headed.kind headed.pad (roomed (room_in done headed.head.ssrc) (closed_among headed keys.old tag_len roc window done)) }
    ensures streams { IfOk result (λ o. StreamsTake streams.old.list.items streams.new.list.items roc window (entry_out headed.pad o)) }
    ensures keys { IfOk result (λ o. keys.new ≡ spent o.key keys.old) }
    ensures kinds { AreOfKind streams.new.list.items headed.kind }
    ensures row { streams.new.row.items ≡ map source_of streams.new.list.items }
    ensures back { IfErr result (λ e. e.0 ≡ headed.pad) }
    ensures stays { OnErr result ((streams.new.list.items ≡ streams.old.list.items) × (keys.new ≡ keys.old)) }
{
    match streams.find(headed.ssrc()) {
        Some(at) => {
            let known = streams.list.as_mut_slice();
            match seal_in(headed, &mut known[at], keys, tag_len) {
                Ok(sealed) => Ok(sealed),
                Err(refused) => Err(refused),
            }
        }
        None => {
            if streams.list.is_full() {
                return Err((headed.refuse(), DropCause::StreamsFull));
            }
            let mut stream = Stream::fresh(headed.kind(), headed.ssrc(), roc, window);
            match seal_in(headed, &mut stream, keys, tag_len) {
                Ok(sealed) => {
                    streams.push(stream);
                    Ok(sealed)
                }
                Err(refused) => Err(refused),
            }
        }
    }
}
