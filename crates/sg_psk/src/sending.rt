//! The messages that the gateway sends, and reading a response as the initiator (RFC 3830, 3.1 and 5.1 to 5.3).

ghost use Rattle.std.specs.Prelude.{◌≡◌, ◌≤◌, ◌<◌, ◌==◌, ◌&&◌, ◌∷◌, ◌++◌, [], List, Ok, Some, length, replicate, slice_get, IfOk, IfSome, IfNone, IsOk, IsSome};
ghost use Rattle.sg_mikey.specs.Spelling.{message_octets};
ghost use Rattle.sg_mikey.specs.declared.payload.Payload.TheVariants.{Time, Id, Verify};
ghost use Rattle.sg_psk.specs.Envelope.{before_mac};
ghost use Rattle.sg_psk.specs.KeyData.{key_text};
ghost use Rattle.sg_psk.specs.Pairs.{pair_with};
ghost use Rattle.sg_psk.specs.Sending.{answered_map, covered_key, entry_of, initial_octets, key_of, one_key, own_map, payloads_of, response_fits, response_octets, response_of, sealed, sealed_response, sent_of, sent_under};
ghost use Rattle.sg_psk.specs.StandsFor.{AreSent, Gives, OnNoMemory, accepted_as, sent_as};
ghost use Rattle.sg_psk.specs.declared.pairs.Pair.{Pair};

use crate::accepting::entries_of;
use crate::envelope::{before_mac, encipher, is_mac, mac_of, response_mac};
use crate::own_policy::default_policy;
use crate::parts::closing_in;
use crate::stamps::stamp_of;
use crate::{Initial, Pair, PskBook, PskError};
use sg_base::{Identity, NoMemory, Octets, PskFault, read_u32};
use sg_hmac::MAC_LEN;
use sg_mikey::{CsEntry, Items, Message, Payload, Tgk, Tgks, print};
use std::alloc::Global;

/// What is kept of a message that the gateway sent, until the response comes: its bundle's number, its
/// random octets, its stamp, the position of its pair in the book, its key and its crypto sessions. It has
/// no `Debug`, so that no text shows the key.
#[derive(Drop)]
pub struct Waiting {
    pub csb: u32,
    pub random: [u8; 16],
    pub stamp: [u8; 8],
    pub pair: u8,
    pub tgks: Tgks,
    pub map: Items<CsEntry>,
}

fn entry_of(policy: u8, ssrc: u32) -> CsEntry
    ensures { result ≡ entry_of policy ssrc }
{
    CsEntry {
        policy,
        ssrc,
        roc: 0,
    }
}

// For each medium a crypto session of the gateway, and one of the peer.
#[tactic(auto, unfolding(crate::specs::Sending::own_map))]
fn own_map(alloc: Global, ssrcs: &[u32]) -> Result<Items<CsEntry>, NoMemory>
    ensures { IfOk result (λ map. map ≡ own_map ssrcs.now) }
{
    let mut map = Vec::new(alloc);
    let mut rest = ssrcs;
    while let [ssrc, others @ ..] = rest {
        map.extend_from_slice(&[entry_of(0, *ssrc), entry_of(0, 0)])?;
        rest = others;
    }
    Ok(Items::from_vec(map))
}

// The first two crypto sessions and the first SSRC, and the others of both.
#[tactic(auto, unfolding(crate::specs::Sending::answered_map))]
fn next_of<'a>(map: &'a [CsEntry], ssrcs: &'a [u32]) -> Option<Next<'a>>
    ensures some { IfSome result (λ n. (map.now ≡ n.initiator ∷ n.responder ∷ n.entries.now) × (ssrcs.now ≡ n.ssrc ∷ n.ssrcs.now)) }
    ensures none { IfNone result (answered_map map.now ssrcs.now ≡ []) }
{
    let [initiator, responder, entries @ ..] = map else {
        return None;
    };
    let [ssrc, others @ ..] = ssrcs else {
        return None;
    };
    Some(Next {
        initiator: *initiator,
        responder: *responder,
        entries,
        ssrc: *ssrc,
        ssrcs: others,
    })
}

#[derive(Drop)]
struct Next<'a> {
    initiator: CsEntry,
    responder: CsEntry,
    entries: &'a [CsEntry],
    ssrc: u32,
    ssrcs: &'a [u32],
}

// The initiator's crypto sessions, and the gateway's own with its SSRCs.
#[tactic(auto, unfolding(crate::specs::Sending::answered_map))]
fn answered_map(alloc: Global, map: &[CsEntry], ssrcs: &[u32]) -> Result<Items<CsEntry>, NoMemory>
    ensures { IfOk result (λ entries. entries ≡ answered_map map.now ssrcs.now) }
{
    let mut entries = Vec::new(alloc);
    let mut rest = map;
    let mut left = ssrcs;
    'media: while let Some(next) = next_of(rest, left) {
        let own = entry_of(next.responder.policy, next.ssrc);
        entries.extend_from_slice(&[next.initiator, own])?;
        rest = next.entries;
        left = next.ssrcs;
    }
    Ok(Items::from_vec(entries))
}

// The octets of the first key.
fn key_of(tgks: &Tgks) -> &[u8]
    ensures { result.now ≡ key_of tgks.now.keys }
{
    match tgks.keys.as_slice() {
        [first, ..] => first.key.as_slice(),
        [] => &[],
    }
}

// The one key's data payload.
fn key_text(alloc: Global, key: &[u8]) -> Result<Vec<u8>, NoMemory>
    ensures { IfOk result (λ text. text.items ≡ key_text key.now) }
{
    let size = [0, 0, (key.len() / 256 % 256) as u8, (key.len() % 256) as u8];
    let mut text = Vec::from_slice(alloc, &size)?;
    text.extend_from_slice(key)?;
    Ok(text)
}

// A message's octets with this MAC in the place of the last twenty.
fn with_mac(octets: Vec<u8>, mac: &[u8; MAC_LEN]) -> Result<Octets, NoMemory>
    ensures { IfOk result (λ o. o ≡ before_mac octets.items ++ mac.now) }
{
    let mut octets = octets;
    octets.truncate(octets.len().saturating_sub(MAC_LEN));
    octets.extend_from_slice(mac)?;
    Ok(Octets::from_vec(octets))
}

// T, RAND, the two names, the policy, and the key under the cipher, with this MAC.
fn initial_payloads(
    alloc: Global,
    pair: &Pair,
    random: &[u8; 16],
    stamp: &[u8; 8],
    text: &[u8],
) -> Result<Items<Payload>, NoMemory>
    ensures { IfOk result (λ ps. ps ≡ payloads_of pair.now random.now stamp.now text.now (replicate 20 0)) }
{
    let mut payloads = Vec::new(alloc);
    payloads.push(Payload::Time {
        form: 0,
        stamp: *stamp,
    })?;
    payloads.push(Payload::Random {
        octets: Octets::copy_of(alloc, random)?,
    })?;
    payloads.push(named(alloc, &pair.own)?)?;
    payloads.push(named(alloc, &pair.peer)?)?;
    payloads.push(Payload::Sp(default_policy(alloc)?))?;
    payloads.push(Payload::Kemac {
        cipher: 1,
        octets: Octets::copy_of(alloc, text)?,
        mac: 1,
        tag: Octets::copy_of(alloc, &[0; MAC_LEN])?,
    })?;
    Ok(Items::from_vec(payloads))
}

// An ID of a URI's type.
fn named(alloc: Global, name: &Identity) -> Result<Payload, NoMemory>
    ensures { IfOk result (λ p. p ≡ Id 1 name.now) }
{
    Ok(Payload::Id {
        form: 1,
        name: Octets::copy_of(alloc, name.as_slice())?,
    })
}

// A printed message with its MAC.
fn sealed(
    alloc: Global,
    pair: &Pair,
    message: &Message,
    random: &[u8; 16],
) -> Result<Octets, NoMemory>
    ensures { IfOk result (λ o. o ≡ sealed pair.now.key message.now.csb random.now (message_octets message.now)) }
{
    let octets = print(alloc, message)?.into_vec();
    let mac = mac_of(
        pair.key.as_slice(),
        message.csb,
        random,
        before_mac(&octets),
    );
    with_mac(octets, &mac)
}

// The octets of the one key, encrypted.
fn covered_key(alloc: Global, pair: &Pair, waiting: &Waiting) -> Result<Vec<u8>, NoMemory>
    requires { length (key_of waiting.now.tgks.keys) ≤ 64 }
    ensures { IfOk result (λ text. text.items ≡ covered_key (sent_as waiting.now pair.now)) }
{
    let mut text = key_text(alloc, key_of(&waiting.tgks))?;
    encipher(
        pair.key.as_slice(),
        waiting.csb,
        &waiting.random,
        &waiting.stamp,
        text.as_mut_slice(),
    );
    Ok(text)
}

// The octets of the gateway's own message.
#[tactic(auto, unfolding(crate::specs::Sending::initial_octets))]
fn initial_octets(alloc: Global, pair: &Pair, waiting: &Waiting) -> Result<Octets, NoMemory>
    requires { length (key_of waiting.now.tgks.keys) ≤ 64 }
    ensures { IfOk result (λ o. o ≡ initial_octets (sent_as waiting.now pair.now)) }
{
    let text = covered_key(alloc, pair, waiting)?;
    let message = Message {
        kind: 0,
        verify: true,
        csb: waiting.csb,
        map: entries_of(alloc, waiting.map.as_slice())?,
        payloads: initial_payloads(alloc, pair, &waiting.random, &waiting.stamp, &text)?,
    };
    sealed(alloc, pair, &message, &waiting.random)
}

/// The gateway's own message to a peer, under the first pair with it, and what is kept until the response.
/// Its random octets, its bundle's number and its key are the first octets of the noise, in this order; each
/// SSRC is that of one medium. `IdUnknown` exactly where there is no such pair, which needs no memory.
pub fn initiate(
    alloc: Global,
    book: &PskBook,
    peer: &Identity,
    now: u64,
    noise: &[u8; 304],
    ssrcs: &[u32],
) -> Result<(Octets, Waiting), PskError>
    requires { now ≤ 2085978495999 }
    ensures value { Gives (AreSent book.now) result (sent_under now noise.now ssrcs.now (pair_with book.now peer.now)) }
    ensures needs { OnNoMemory result (IsSome (pair_with book.now peer.now)) }
{
    match book.place_with(peer.as_slice()) {
        Some(place) => sent_under(alloc, book.pair(place), place, now, noise, ssrcs),
        None => Err(PskError::Psk(PskFault::IdUnknown)),
    }
}

// What is kept of a message under the pair at a position.
fn waiting_of(
    alloc: Global,
    place: u8,
    now: u64,
    noise: &[u8; 304],
    ssrcs: &[u32],
) -> Result<Waiting, NoMemory>
    requires { now ≤ 2085978495999 }
    ensures place { IfOk result (λ w. w.pair ≡ place) }
    ensures sized { IfOk result (λ w. length (key_of w.tgks.keys) ≤ 64) }
    ensures sent { (pair : Pair) → IfOk result (λ w. sent_as w pair ≡ sent_of pair now noise.now ssrcs.now) }
{
    let mut random = [0; 16];
    random.copy_from_slice(&noise[..16]);
    Ok(Waiting {
        csb: read_u32(noise, 16),
        random,
        stamp: stamp_of(now),
        pair: place,
        tgks: one_key(alloc, &noise[20..36])?,
        map: own_map(alloc, ssrcs)?,
    })
}

// The message under the pair at a position, and what is kept of it.
fn sent_under(
    alloc: Global,
    pair: &Pair,
    place: u8,
    now: u64,
    noise: &[u8; 304],
    ssrcs: &[u32],
) -> Result<(Octets, Waiting), PskError>
    requires { now ≤ 2085978495999 }
    ensures { (pairs : List Pair) → slice_get pairs place ≡ Some pair.now
        → Gives (AreSent pairs) result (Ok (sent_of pair.now now noise.now ssrcs.now)) }
{
    let waiting = waiting_of(alloc, place, now, noise, ssrcs)?;
    let octets = initial_octets(alloc, pair, &waiting)?;
    Ok((octets, waiting))
}

fn one_key(alloc: Global, key: &[u8]) -> Result<Tgks, NoMemory>
    ensures { IfOk result (λ tgks. tgks.keys ≡ one_key key.now) }
{
    let key = Octets::copy_of(alloc, key)?;
    let keys = Vec::from_array(alloc, [Tgk { key, spi: None }])?;
    Ok(Tgks {
        keys: Items::from_vec(keys),
    })
}

// The initiator's stamp, the gateway's own name, and a MAC of zeros.
fn response_payloads(
    alloc: Global,
    stamp: &[u8; 8],
    own: &Identity,
) -> Result<Items<Payload>, NoMemory>
    ensures { IfOk result (λ ps. ps ≡ Time 0 stamp.now ∷ Id 1 own.now ∷ Verify 1 (replicate 20 0) ∷ []) }
{
    let mut payloads = Vec::new(alloc);
    payloads.push(Payload::Time {
        form: 0,
        stamp: *stamp,
    })?;
    payloads.push(named(alloc, own)?)?;
    payloads.push(Payload::Verify {
        mac: 1,
        tag: Octets::copy_of(alloc, &[0; MAC_LEN])?,
    })?;
    Ok(Items::from_vec(payloads))
}

// A printed response with its MAC.
fn sealed_response(
    alloc: Global,
    initial: &Initial,
    pair: &Pair,
    message: &Message,
) -> Result<Octets, NoMemory>
    ensures { IfOk result (λ o. o ≡ sealed_response pair.now initial.now.csb initial.now.random initial.now.stamp (message_octets message.now)) }
{
    let octets = print(alloc, message)?.into_vec();
    let mac = response_mac(
        pair.key.as_slice(),
        initial.csb,
        initial.random.as_slice(),
        before_mac(&octets),
        pair.peer.as_slice(),
        pair.own.as_slice(),
        &initial.stamp,
    );
    with_mac(octets, &mac)
}

// The response under a pair.
#[tactic(auto, unfolding(crate::specs::Sending::response_octets))]
fn response_under(
    alloc: Global,
    initial: &Initial,
    pair: &Pair,
    ssrcs: &[u32],
) -> Result<Octets, NoMemory>
    ensures { IfOk result (λ o. o ≡ response_octets (accepted_as initial.now pair.now) ssrcs.now) }
{
    let message = Message {
        kind: 1,
        verify: false,
        csb: initial.csb,
        map: answered_map(alloc, initial.map.as_slice(), ssrcs)?,
        payloads: response_payloads(alloc, &initial.stamp, &pair.own)?,
    };
    sealed_response(alloc, initial, pair, &message)
}

/// The response to an accepted message under the pair that it names, with the gateway's own SSRC of each
/// medium.
pub fn respond(
    alloc: Global,
    initial: &Initial,
    book: &PskBook,
    ssrcs: &[u32],
) -> Result<Octets, NoMemory>
    requires { initial.now.pair < length book.now }
    ensures { (pair : Pair) → slice_get book.now initial.now.pair ≡ Some pair
        → IfOk result (λ o. o ≡ response_octets (accepted_as initial.now pair) ssrcs.now) }
{
    response_under(alloc, initial, book.pair(initial.pair), ssrcs)
}

// Whether the MAC of a response is that of all before it, the two names and the stamp.
#[tactic(auto, unfolding(crate::specs::Sending::response_fits))]
fn response_fits(octets: &[u8], message: &Message, waiting: &Waiting, pair: &Pair) -> bool
    ensures { result ≡ response_fits octets.now message.now (sent_as waiting.now pair.now) }
{
    let mac = response_mac(
        pair.key.as_slice(),
        waiting.csb,
        &waiting.random,
        before_mac(octets),
        pair.own.as_slice(),
        pair.peer.as_slice(),
        &waiting.stamp,
    );
    is_mac(&mac, closing_in(message.payloads.as_slice()).tag)
}

// Whether a response has the bundle's number and as many crypto sessions.
fn is_ours(message: &Message, waiting: &Waiting) -> bool
    ensures { result ≡ ((message.now.csb == waiting.now.csb) && (length message.now.map == length waiting.now.map)) }
{
    message.csb == waiting.csb && message.map.as_slice().len() == waiting.map.as_slice().len()
}

// The crypto sessions of a response under a pair.
#[tactic(auto, unfolding(crate::specs::Sending::response_of))]
fn answer_under(
    alloc: Global,
    octets: &[u8],
    message: &Message,
    waiting: &Waiting,
    pair: &Pair,
) -> Result<Vec<CsEntry>, PskError>
    ensures value { Gives (λ map entries. map.items ≡ entries) result (response_of octets.now message.now (sent_as waiting.now pair.now)) }
    ensures needs { OnNoMemory result (IsOk (response_of octets.now message.now (sent_as waiting.now pair.now))) }
{
    if closing_in(message.payloads.as_slice()).mac != 1 {
        return Err(PskError::Psk(PskFault::Algorithm));
    }
    if !response_fits(octets, message, waiting, pair) {
        return Err(PskError::Psk(PskFault::BadMac));
    }
    if !is_ours(message, waiting) {
        return Err(PskError::Psk(PskFault::OtherSession));
    }
    match Vec::from_slice(alloc, message.map.as_slice()) {
        Ok(map) => Ok(map),
        Err(_) => Err(PskError::NoMemory),
    }
}

/// The crypto sessions of the response to the gateway's own message, under the pair that it names.
///
/// Refused, in this order: `Algorithm` for another MAC than HMAC-SHA-1; `BadMac`; `OtherSession` for another
/// bundle's number or another number of crypto sessions. None of these needs memory.
pub fn read_response(
    alloc: Global,
    octets: &[u8],
    message: &Message,
    waiting: &Waiting,
    book: &PskBook,
) -> Result<Vec<CsEntry>, PskError>
    requires { waiting.now.pair < length book.now }
    ensures value { (pair : Pair) → slice_get book.now waiting.now.pair ≡ Some pair
        → Gives (λ map entries. map.items ≡ entries) result (response_of octets.now message.now (sent_as waiting.now pair)) }
    ensures needs { (pair : Pair) → slice_get book.now waiting.now.pair ≡ Some pair
        → OnNoMemory result (IsOk (response_of octets.now message.now (sent_as waiting.now pair))) }
{
    answer_under(alloc, octets, message, waiting, book.pair(waiting.pair))
}
