//! Opening a datagram in one stream, and among the streams of a side.

ghost use Rattle.std.specs.Prelude.{◌≡◌, ℕ, ◌≤◌, List, map, IfOk, IfErr, MatchResult, OnOk, OnErr, true, slice_get, Some};
ghost use Rattle.sg_keys.specs.Live.{Live, spent};
ghost use Rattle.sg_session.specs.Session.{Done};
ghost use Rattle.sg_states.specs.Inbound.{CanServe, IsPlacedAs};
ghost use Rattle.sg_states.specs.Placing.{placed};
ghost use Rattle.sg_states.specs.Streams.{ForIndicesOf, IsOpenPlace, IsStreamOf, StreamStands, TakesIn};
ghost use Rattle.sg_media.specs.Answers.{answer_at, entry_of, opened_among, opened_at};
ghost use Rattle.sg_media.specs.Standing.{source_of, AreOfKind, StreamsStand, StreamsTake};

use crate::faults::{of_place, of_stale};
use crate::inbound::Opened;
use crate::streams::Streams;
use sg_base::{DropCause, Kind, Pad};
use sg_keys::KeySet;
use sg_states::Stream;
use sg_states::inbound::{Keyed, Placed};

// Finds the datagram's index in the stream of its source, which is only read (RFC 3711, 3.3.1 and 3.3.2). Of
// RTCP the datagram carries it (3.4).
#[inline(always)]
fn place(keyed: Keyed, stream: &Stream) -> Result<Placed, (Pad, DropCause)>
    requires { IsStreamOf stream.now keyed.headed.kind keyed.headed.head.ssrc }
    ensures open { MatchResult result (λ p. (p.keyed ≡ keyed) × IsOpenPlace stream.now p.index) (λ e. e.0 ≡ keyed.headed.pad) }
    ensures answer { ForIndicesOf stream.now (λ roc window indices. IsPlacedAs (λ cause. cause) (placed keyed.headed.kind roc window indices keyed.headed.head.number) result) }
{
    match keyed.kind() {
        Kind::Rtp => match keyed.place(stream) {
            Ok(placed) => Ok(placed),
            Err((pad, fault)) => Err((pad, of_place(fault))),
        },
        Kind::Rtcp => match keyed.place_carried(stream) {
            Ok(placed) => Ok(placed),
            Err((pad, fault)) => Err((pad, of_stale(fault))),
        },
    }
}

// Opens a datagram in the stream of its source. The stream may be a new one, for which there may be no
// room.
#[inline(always)]
fn open_in(
    keyed: Keyed,
    stream: &mut Stream,
    keys: &mut KeySet,
    room: bool,
) -> Result<Opened, (Pad, DropCause)>
    requires source { IsStreamOf stream.old keyed.headed.kind keyed.headed.head.ssrc }
    requires key { CanServe keys.old keyed.key keyed.number keyed.headed.head.encrypted }
    ensures answer { (ssrc roc window : ℕ) (indices : List ℕ) (key : Live) → StreamStands stream.old ssrc roc window indices
        → slice_get keys.old keyed.key ≡ Some key
        → result ≡ answer_at keyed.headed.kind keyed.headed.pad (opened_at keyed.headed key room (placed keyed.headed.kind roc window indices keyed.headed.head.number)) }
    ensures of { (stream.new.kind ≡ stream.old.kind) × (stream.new.ssrc ≡ stream.old.ssrc) }
    ensures stream { IfOk result (λ o. TakesIn stream.old stream.new o.index) }
    ensures keys { IfOk result (λ o. keys.new ≡ spent o.key keys.old) }
    ensures source { IfOk result (λ o. o.ssrc ≡ keyed.headed.head.ssrc) }
    ensures room { OnOk result (room ≡ true) }
    ensures back { IfErr result (λ e. e.0 ≡ keyed.headed.pad) }
    ensures stays { OnErr result ((stream.new ≡ stream.old) × (keys.new ≡ keys.old)) }
{
    let kind = keyed.kind();
    let placed = match place(keyed, stream) {
        Ok(placed) => placed,
        Err(refused) => return Err(refused),
    };
    let verified = match placed.verify(keys) {
        Ok(verified) => verified,
        Err((pad, _)) => return Err((pad, DropCause::BadTag)),
    };
    if !room {
        return Err((verified.refuse(), DropCause::StreamsFull));
    }
    let encrypted = verified.encrypted();
    let opened = verified.decrypt(stream, keys, encrypted);
    Ok(Opened {
        pad: opened.pad,
        kind,
        ssrc: opened.ssrc,
        index: opened.index,
        key: opened.key,
    })
}

/// Opens a datagram whose key is chosen. A new source's stream takes a place only where the datagram is
/// opened.
pub(crate) fn open_among(
    keyed: Keyed,
    streams: &mut Streams,
    keys: &mut KeySet,
    roc: u32,
    window: u16,
) -> Result<Opened, (Pad, DropCause)>
    requires at_least { 64 ≤ window }
    requires at_most { window ≤ 1024 }
    requires kinds { AreOfKind streams.old.list.items keyed.headed.kind }
    requires row { streams.old.row.items ≡ map source_of streams.old.list.items }
    requires key { CanServe keys.old keyed.key keyed.number keyed.headed.head.encrypted }
    ensures answer { (done : List Done) (key : Live) → StreamsStand streams.old.list.items roc window done
        → slice_get keys.old keyed.key ≡ Some key → result ≡ answer_at keyed.headed.kind keyed.headed.pad (opened_among keyed.headed key roc window done) }
    ensures streams { IfOk result (λ o. StreamsTake streams.old.list.items streams.new.list.items roc window (entry_of o)) }
    ensures keys { IfOk result (λ o. keys.new ≡ spent o.key keys.old) }
    ensures kinds { AreOfKind streams.new.list.items keyed.headed.kind }
    ensures row { streams.new.row.items ≡ map source_of streams.new.list.items }
    ensures back { IfErr result (λ e. e.0 ≡ keyed.headed.pad) }
    ensures stays { OnErr result ((streams.new.list.items ≡ streams.old.list.items) × (keys.new ≡ keys.old)) }
{
    match streams.find(keyed.ssrc()) {
        Some(at) => {
            let known = streams.list.as_mut_slice();
            match open_in(keyed, &mut known[at], keys, true) {
                Ok(opened) => Ok(opened),
                Err(refused) => Err(refused),
            }
        }
        None => {
            let mut stream = Stream::fresh(keyed.kind(), keyed.ssrc(), roc, window);
            let room = !streams.list.is_full();
            match open_in(keyed, &mut stream, keys, room) {
                Ok(opened) => {
                    streams.push(stream);
                    Ok(opened)
                }
                Err(refused) => Err(refused),
            }
        }
    }
}
