//! How the media of an answer are keyed by MIKEY messages (RFC 3830, 3.1 and 6.1.1).

ghost use Rattle.std.specs.Prelude.{◌≡◌, true, Some, ◌≤◌, ◌<◌, ◌++◌, ◌∷◌, [], ℕ, List, Option, Ok, length, map, option_map, IfOk, IfSome};
ghost use Rattle.std.specs.List.{AllByRecursion};
ghost use Rattle.sg_agreement.specs.Answers.{answered};
ghost use Rattle.sg_agreement.specs.Attributes.{mikey_value, own_ssrc};
ghost use Rattle.sg_agreement.specs.CarriedTexts.{mikey_attribute};
ghost use Rattle.sg_agreement.specs.EachMedium.{each_kept, if_kept};
ghost use Rattle.sg_agreement.specs.MessageAnswers.{keyed_as_initiator, keyed_as_responder, keyed_by_message, next_if, over_active, own_streams, responded, response_line, ssrcs_answered, streams_answered};
ghost use Rattle.sg_agreement.specs.Messages as messages;
ghost use Rattle.sg_agreement.specs.Sides.{active_count, is_active};
ghost use Rattle.sg_agreement.specs.Streams.{admit_of, line_key, session_key, stream_of_session, with_source};
ghost use Rattle.sg_csmap.specs.declared.sessions.StreamKeys as sessions;
ghost use Rattle.sg_psk.specs.Sending.{Sent, response_octets};
ghost use Rattle.sg_psk.specs.Accepting as accepting;
ghost use Rattle.sg_psk.specs.StandsFor.{IsAccepted, IsSent};
ghost use Rattle.sg_session.specs.Stages.{after_ok};
ghost use Rattle.sg_leg.specs.Answering.{Tells};
ghost use Rattle.sg_leg.specs.Messages.{HasFewKeys};
ghost use Rattle.sg_leg.specs.Open.{IsBundleIf, IsBundleOf};
ghost use Rattle.sg_leg.specs.Pairs.{EachPair};
ghost use Rattle.sg_leg.specs.Replying.{HaveFewKeys, WillHaveFewKeys, keyed_as};

use crate::answering::Answered;
use crate::attributes::own_ssrc;
use crate::keyed::KeyedMedium;
use crate::keying::Bundle;
use crate::media::SideKeys;
use crate::messages::{active_count, cs_fault, message_in, mikey_lines, psk_fault};
use arrayvec::ArrayVec;
use sg_agreement::is_active;
use sg_base::{Fault, MasterKey, Mki, NoMemory, Octets, RTP_LIFE, Side, WINDOW_LEAST};
use sg_csmap::{StreamKeys, streams};
use sg_keys::Admit;
use sg_mikey::{CsEntry, Items};
use sg_psk::{Initial, PskBook, Waiting, default_policy, read_response, respond};
use sg_sdes::{InlineKey, InlineKeys};
use sg_sdp::{Lines, Medium, Sdp};
use std::alloc::Global;

/// The gateway's part in an exchange of messages.
#[derive(Clone, Copy)]
pub enum Role {
    Initiator,
    Responder,
}

/// The keys of a crypto session, each of which serves 2^48 packets.
fn session_keys(keys: &[(Option<Mki>, MasterKey)]) -> InlineKeys
    requires { length keys.now ≤ 8 }
    ensures { map line_key result ≡ map session_key keys.now }
{
    let mut list = ArrayVec::new();
    for key in keys {
        list.push(InlineKey {
            key: key.1.clone(),
            lifetime: RTP_LIFE,
            mki: key.0,
        });
    }
    InlineKeys::of(list)
}

/// The source that is known, or the first that comes.
fn admit_of(ssrc: u32) -> Admit
    ensures { result ≡ admit_of ssrc }
{
    if ssrc == 0 {
        return Admit::FirstSeen;
    }
    Admit::One(ssrc)
}

/// What is sent in a crypto session by this source, from this rollover on.
fn stream_of_session(keys: &StreamKeys, ssrc: u32, roc: u32) -> SideKeys
    requires { length keys.now.keys ≤ 8 }
    ensures { result ≡ stream_of_session (with_source ssrc roc keys.now) }
{
    SideKeys {
        suite: keys.suite,
        keys: session_keys(keys.keys.as_slice()),
        roc,
        admit: admit_of(ssrc),
        encrypts_rtp: !keys.plain_rtp,
        encrypts_rtcp: !keys.plain_rtcp,
    }
}

/// The peer is the initiator.
fn keyed_as_responder(
    lines: Lines,
    streams: &(StreamKeys, StreamKeys),
    answer: &Medium,
) -> KeyedMedium
    requires { HasFewKeys streams.now }
    ensures { result ≡ keyed_as_responder lines streams.now answer.now }
{
    let (peer, own) = streams;
    KeyedMedium {
        from_peer: stream_of_session(peer, peer.ssrc, peer.roc),
        to_peer: stream_of_session(own, own_ssrc(answer.lines.as_slice()), 0),
        window: WINDOW_LEAST,
        lines,
    }
}

/// The gateway is the initiator.
fn keyed_as_initiator(lines: Lines, streams: &(StreamKeys, StreamKeys)) -> KeyedMedium
    requires few { HasFewKeys streams.now }
    requires none { lines ≡ [] }
    ensures { result ≡ keyed_as_initiator streams.now }
{
    let (own, peer) = streams;
    KeyedMedium {
        from_peer: stream_of_session(peer, peer.ssrc, peer.roc),
        to_peer: stream_of_session(own, own.ssrc, own.roc),
        window: WINDOW_LEAST,
        lines,
    }
}

fn keyed_as(
    alloc: Global,
    role: Role,
    streams: &(StreamKeys, StreamKeys),
    answer: &Medium,
) -> KeyedMedium
    requires { HasFewKeys streams.now }
    ensures { result ≡ keyed_as role streams.now answer.now }
{
    let lines = Lines::new(alloc);
    match role {
        Role::Initiator => keyed_as_initiator(lines, streams),
        Role::Responder => keyed_as_responder(lines, streams, answer),
    }
}

/// The gateway's SSRCs of the answer's media that were active in the offer.
fn ssrcs_answered(side: Side, offered: &[Medium], answered: &[Medium]) -> ArrayVec<u32, 4>
    requires few { length offered.now ≤ 4 }
    requires count { length answered.now ≡ length offered.now }
    ensures { result.items ≡ ssrcs_answered side offered.now answered.now }
{
    let mut ssrcs = ArrayVec::new();
    for (m, medium) in offered.iter().enumerate() {
        if is_active(side, medium) {
            ssrcs.push(own_ssrc(answered[m].lines.as_slice()));
        }
    }
    ssrcs
}

/// What is sent in a medium, if it is active, and what is sent in the active media behind it.
#[derive(Drop)]
struct Share<'a> {
    own: Option<&'a (StreamKeys, StreamKeys)>,
    others: &'a [(StreamKeys, StreamKeys)],
}

fn share_of<'a>(side: Side, medium: &Medium, streams: &'a [(StreamKeys, StreamKeys)]) -> Share<'a>
    requires few { AllByRecursion HasFewKeys streams.now }
    ensures share { (rest : List (sessions.StreamKeys × sessions.StreamKeys) → List (Option (sessions.StreamKeys × sessions.StreamKeys)))
        → next_if (is_active side medium.now) streams.now rest ≡ option_map (λ s. s.now) result.own ∷ rest result.others.now }
    ensures own { IfSome result.own (λ s. HasFewKeys s.now) }
    ensures others { AllByRecursion HasFewKeys result.others.now }
{
    if !is_active(side, medium) {
        return Share {
            own: None,
            others: streams,
        };
    }
    match streams {
        [] => Share {
            own: None,
            others: streams,
        },
        [first, others @ ..] => Share {
            own: Some(first),
            others,
        },
    }
}

fn by_streams_if(
    alloc: Global,
    role: Role,
    active: bool,
    streams: Option<&(StreamKeys, StreamKeys)>,
    answer: &Medium,
) -> Option<KeyedMedium>
    requires { IfSome streams (λ s. HasFewKeys s.now) }
    ensures { if_kept active (option_map (λ s. s.now) streams.entry) (λ x. Ok (keyed_as role x answer.now)) ≡ Ok result }
{
    if !active {
        return None;
    }
    match streams {
        None => None,
        Some(streams) => Some(keyed_as(alloc, role, streams, answer)),
    }
}

/// The media of an answer where one exchange keys them all.
fn by_streams(
    alloc: Global,
    role: Role,
    side: Side,
    offered: &[Medium],
    answer: &[Medium],
    streams: &[(StreamKeys, StreamKeys)],
    active: &[bool],
) -> Result<Items<Option<KeyedMedium>>, NoMemory>
    requires few { length offered.now ≤ 4 }
    requires keys { AllByRecursion HasFewKeys streams.now }
    requires answers { length answer.now ≡ length offered.now }
    requires actives { length active.now ≡ length offered.now }
    ensures { IfOk result (λ keyed. each_kept (λ k x n. Ok (keyed_as role x n)) 0 active.now (over_active side offered.now streams.now) answer.now ≡ Ok keyed) }
{
    let mut keyed = Vec::new(alloc);
    let mut left = streams;
    for (m, medium) in answer.iter().enumerate() {
        let share = share_of(side, &offered[m], left);
        let next = by_streams_if(alloc, role, active[m], share.own, medium);
        keyed.push(next)?;
        left = share.others;
    }
    Ok(Items::from_vec(keyed))
}

/// The response to the peer's message, as a line.
fn response_line(
    alloc: Global,
    psks: &PskBook,
    initial: &Initial,
    ssrcs: &[u32],
) -> Result<Lines, NoMemory>
    requires { (a : accepting.Accepted) × IsAccepted psks.now initial.now a }
    ensures { (a : accepting.Accepted) → IsAccepted psks.now initial.now a
        → IfOk result (λ lines. lines ≡ mikey_attribute (response_octets a ssrcs.now) ∷ []) }
{
    let octets = respond(alloc, initial, psks, ssrcs)?;
    mikey_lines(alloc, octets.as_slice())
}

/// The answer to an offer with a message in its session part, to which the response is added.
pub(crate) fn by_session_message(
    alloc: Global,
    psks: &PskBook,
    side: Side,
    offered: &[Medium],
    answer: &[Medium],
    bundle: &Bundle,
    active: &[bool],
) -> Result<Answered, NoMemory>
    requires known { (c : messages.Bundle) × IsBundleOf psks.now bundle.now c }
    requires few { length offered.now ≤ 4 }
    requires keys { AllByRecursion HasFewKeys bundle.now.streams }
    requires answers { length answer.now ≡ length offered.now }
    requires actives { length active.now ≡ length offered.now }
    ensures { (c : messages.Bundle) → IsBundleOf psks.now bundle.now c
        → IfOk result (λ a. answered (response_line side offered.now answer.now c.initial ∷ [])
        (each_kept (λ k x n. Ok (keyed_as_responder [] x n)) 0 active.now (over_active side offered.now c.streams) answer.now) ≡ Ok a) }
{
    let ssrcs = ssrcs_answered(side, offered, answer);
    let session = response_line(alloc, psks, &bundle.initial, ssrcs.as_slice())?;
    let streams = bundle.streams.as_slice();
    let media = by_streams(
        alloc,
        Role::Responder,
        side,
        offered,
        answer,
        streams,
        active,
    )?;
    Ok(Answered { session, media })
}

fn by_message(
    alloc: Global,
    psks: &PskBook,
    bundle: &Bundle,
    answer: &Medium,
) -> Result<Option<KeyedMedium>, NoMemory>
    requires known { (c : messages.Bundle) × IsBundleOf psks.now bundle.now c }
    requires keys { AllByRecursion HasFewKeys bundle.now.streams }
    ensures { (c : messages.Bundle) → IsBundleOf psks.now bundle.now c
        → IfOk result (λ o. if_kept true (own_streams (Some c)) (λ x. Ok (keyed_by_message x answer.now)) ≡ Ok o) }
{
    match bundle.streams.as_slice() {
        [] => Ok(None),
        [streams, ..] => {
            let ssrc = own_ssrc(answer.lines.as_slice());
            let lines = response_line(alloc, psks, &bundle.initial, &[ssrc])?;
            Ok(Some(keyed_as_responder(lines, streams, answer)))
        }
    }
}

fn by_message_if(
    alloc: Global,
    psks: &PskBook,
    bundle: &Option<Bundle>,
    answer: &Medium,
    active: bool,
) -> Result<Option<KeyedMedium>, NoMemory>
    requires known { (c : Option messages.Bundle) × IsBundleIf psks.now bundle.now c }
    requires keys { HaveFewKeys bundle.now }
    ensures { (c : Option messages.Bundle) → IsBundleIf psks.now bundle.now c
        → IfOk result (λ o. if_kept active (own_streams c) (λ x. Ok (keyed_by_message x answer.now)) ≡ Ok o) }
{
    if !active {
        return Ok(None);
    }
    match bundle {
        None => Ok(None),
        Some(bundle) => by_message(alloc, psks, bundle, answer),
    }
}

/// The media of an answer to an offer with messages of its media, to each of which the response is added.
pub(crate) fn by_media_messages(
    alloc: Global,
    psks: &PskBook,
    bundles: &[Option<Bundle>],
    answer: &[Medium],
    active: &[bool],
) -> Result<Items<Option<KeyedMedium>>, NoMemory>
    requires known { (cs : List (Option messages.Bundle)) × EachPair (IsBundleIf psks.now) bundles.now cs }
    requires keys { AllByRecursion HaveFewKeys bundles.now }
    requires bundles { length bundles.now ≡ length answer.now }
    requires actives { length active.now ≡ length answer.now }
    ensures { (cs : List (Option messages.Bundle)) → EachPair (IsBundleIf psks.now) bundles.now cs
        → IfOk result (λ keyed. each_kept (λ k x n. Ok (keyed_by_message x n)) 0 active.now (map own_streams cs) answer.now ≡ Ok keyed) }
{
    let mut keyed = Vec::new(alloc);
    for (m, medium) in answer.iter().enumerate() {
        let next = by_message_if(alloc, psks, &bundles[m], medium, active[m])?;
        keyed.push(next)?;
    }
    Ok(Items::from_vec(keyed))
}

/// What is sent in crypto sessions, the responder's with the SSRC and the rollover of the response.
fn responded(
    alloc: Global,
    streams: Vec<(StreamKeys, StreamKeys)>,
    map: &[CsEntry],
) -> Result<Items<(StreamKeys, StreamKeys)>, NoMemory>
    ensures { IfOk result (λ all. all ≡ responded streams.items map.now) }
{
    let mut all = Vec::new(alloc);
    let mut left = map;
    for pair in streams {
        let (initiator, responder) = pair;
        let [_, entry, others @ ..] = left else {
            break;
        };
        let answered = StreamKeys {
            ssrc: entry.ssrc,
            roc: entry.roc,
            ..responder
        };
        all.push((initiator, answered))?;
        left = others;
    }
    Ok(Items::from_vec(all))
}

/// What both sides send in each of so many media, by the gateway's message and the response to it.
fn streams_answered(
    alloc: Global,
    psks: &PskBook,
    waiting: &Waiting,
    count: usize,
    lines: &[Octets],
) -> Result<Items<(StreamKeys, StreamKeys)>, Fault>
    requires known { (s : Sent) × IsSent psks.now waiting.now s }
    requires few { count ≤ 4 }
    ensures { (s : Sent) → IsSent psks.now waiting.now s → Tells result (streams_answered s count (mikey_value lines.now)) }
{
    let (octets, message) = match message_in(alloc, 255, 1, lines) {
        Ok(read) => read,
        Err(fault) => return Err(fault),
    };
    let map = match read_response(alloc, octets.as_slice(), &message, waiting, psks) {
        Ok(map) => map,
        Err(fault) => {
            drop(message);
            drop(octets);
            return Err(psk_fault(255, fault));
        }
    };
    drop(message);
    drop(octets);
    let Ok(policy) = default_policy(alloc) else {
        drop(map);
        return Err(Fault::NoMemory);
    };
    let random = &waiting.random;
    let sent = waiting.map.as_slice();
    let streams = match streams(
        alloc,
        waiting.csb,
        random,
        sent,
        &[policy],
        &waiting.tgks,
        count,
    ) {
        Ok(streams) => streams,
        Err(fault) => {
            drop(map);
            return Err(cs_fault(255, fault));
        }
    };
    match responded(alloc, streams, map.as_slice()) {
        Ok(streams) => Ok(streams),
        Err(NoMemory) => Err(Fault::NoMemory),
    }
}

/// The answer to an offer with the gateway's own message, which has the response in its session part.
pub(crate) fn by_response(
    alloc: Global,
    psks: &PskBook,
    side: Side,
    offered: &[Medium],
    answer: &Sdp,
    waiting: &Waiting,
    active: &[bool],
) -> Result<Answered, Fault>
    requires known { (s : Sent) × IsSent psks.now waiting.now s × WillHaveFewKeys s }
    requires few { length offered.now ≤ 4 }
    requires answers { length answer.now.media ≡ length offered.now }
    requires actives { length active.now ≡ length offered.now }
    ensures { (s : Sent) → IsSent psks.now waiting.now s
        → Tells result (after_ok (streams_answered s (active_count side offered.now) (mikey_value answer.now.session)) (λ streams.
        answered [] (each_kept (λ k streams n. Ok (keyed_as_initiator streams)) 0 active.now (over_active side offered.now streams) answer.now.media))) }
{
    let count = active_count(side, offered);
    let streams = match streams_answered(alloc, psks, waiting, count, answer.session.as_slice()) {
        Ok(streams) => streams,
        Err(fault) => return Err(fault),
    };
    let media = answer.media.as_slice();
    let streams = streams.as_slice();
    let Ok(media) = by_streams(
        alloc,
        Role::Initiator,
        side,
        offered,
        media,
        streams,
        active,
    ) else {
        return Err(Fault::NoMemory);
    };
    Ok(Answered {
        session: Lines::new(alloc),
        media,
    })
}
