//! Reading the initiator's message as the responder (RFC 3830, 3.1 and 5.2 to 5.4).

ghost use Rattle.std.specs.Prelude.{◌≡◌, ◌≤◌, ◌^◌, ◌==◌, ◌&&◌, List, Ok, Some, None, length, slice_get, IfOk};
ghost use Rattle.sg_base.specs.declared.faults.PskFault.TheVariants.{KeyType};
ghost use Rattle.sg_mikey.specs.Reading.{message_of};
ghost use Rattle.sg_psk.specs.Accepting.{accepted_with, early_of, fault_of, initial_fits, initial_of, initial_under, keys_in, with_keys};
ghost use Rattle.sg_psk.specs.Pairs.{IsAt, pair_named};
ghost use Rattle.sg_psk.specs.Parts.{closing_in, names_in};
ghost use Rattle.sg_psk.specs.StandsFor.{Gives, IsAccepted, OnNoMemory, or_fault};
ghost use Rattle.sg_psk.specs.declared.pairs.Pair.{Pair};

use crate::envelope::{before_mac, encipher, is_mac, mac_of};
use crate::key_data::read_tgks;
use crate::pairs::copy_of;
use crate::parts::{closing_in, next_name, policies_in, random_in, stamp_in};
use crate::stamps::{is_skewed, moment_of};
use crate::{Pair, PskBook, PskError, ReplayBook};
use sg_base::{Identity, NoMemory, Octets, PskFault};
use sg_mikey::{CsEntry, Items, Message, Payload, Policy, Tgks, message_law};
use std::alloc::Global;

/// How many messages may be kept where one more is accepted, so that each of four media has room.
const KEPT_MOST: usize = 1020;

/// An initiator's message that was accepted: its bundle's number, its random octets, its stamp, the position
/// of its pair in the book, the initiator's name, and the keys, crypto sessions and policies that it carries.
/// It has no `Debug`, so that no text shows a key.
#[derive(Drop)]
pub struct Initial {
    pub csb: u32,
    pub random: Octets,
    pub stamp: [u8; 8],
    pub pair: u8,
    pub peer: Identity,
    pub tgks: Tgks,
    pub map: Items<CsEntry>,
    pub policies: Items<Policy>,
}

// The position of the pair that a message's names name.
fn place_named(book: &PskBook, payloads: &[Payload]) -> Option<u8>
    ensures { IsAt book.now result (pair_named book.now (names_in payloads.now)) }
{
    let (peer, rest) = next_name(payloads)?;
    match next_name(rest) {
        None => book.place_with(peer),
        Some((own, _)) => book.place_of(own, peer),
    }
}

// Whether the MAC at the end is that of all before it, under the pair's key.
#[tactic(auto, unfolding(crate::specs::Accepting::initial_fits))]
fn fits(octets: &[u8], message: &Message, pair: &Pair) -> bool
    ensures { result ≡ initial_fits octets.now message.now pair.now }
{
    let payloads = message.payloads.as_slice();
    let random = random_in(payloads);
    let mac = mac_of(pair.key.as_slice(), message.csb, random, before_mac(octets));
    is_mac(&mac, closing_in(payloads).tag)
}

// Whether these are AES in counter mode and HMAC-SHA-1.
fn is_served(cipher: u8, mac: u8) -> bool
    ensures { result ≡ ((cipher == 1) && (mac == 1)) }
{
    cipher == 1 && mac == 1
}

// The first cause why a message isn't accepted, of those that its octets show before its keys are read.
#[tactic(auto, unfolding(crate::specs::Accepting::fault_of))]
fn fault_of(
    octets: &[u8],
    message: &Message,
    pair: &Pair,
    seen: &ReplayBook,
    now: u64,
) -> Option<PskFault>
    requires { now ≤ 2085978495999 }
    ensures { result ≡ fault_of octets.now message.now pair.now seen.now now }
{
    let payloads = message.payloads.as_slice();
    let closing = closing_in(payloads);
    let stamp = stamp_in(payloads);
    if !is_served(closing.cipher, closing.mac) {
        return Some(PskFault::Algorithm);
    }
    if !fits(octets, message, pair) {
        return Some(PskFault::BadMac);
    }
    if is_skewed(&stamp, now) {
        return Some(PskFault::Skew {
            stamp: moment_of(&stamp),
            now,
        });
    }
    if seen.has(pair.peer.as_slice(), message.csb, &stamp) {
        return Some(PskFault::Repeated);
    }
    None
}

// The keys under the cipher.
#[tactic(auto, unfolding(crate::specs::Accepting::keys_in))]
fn keys_in(alloc: Global, message: &Message, pair: &Pair) -> Result<Tgks, PskError>
    requires { length (closing_in message.now.payloads).octets ≤ 2 ^ 20 }
    ensures { Gives (λ keys tgks. keys.keys ≡ tgks) result (or_fault KeyType (keys_in message.now pair.now)) }
{
    let payloads = message.payloads.as_slice();
    let mut octets = closing_in(payloads).octets.to_vec(alloc)?;
    encipher(
        pair.key.as_slice(),
        message.csb,
        random_in(payloads),
        &stamp_in(payloads),
        octets.as_mut_slice(),
    );
    read_tgks(alloc, octets.as_slice())
}

// A copy of crypto sessions.
pub(crate) fn entries_of(alloc: Global, entries: &[CsEntry]) -> Result<Items<CsEntry>, NoMemory>
    ensures { IfOk result (λ map. map ≡ entries.now) }
{
    Ok(Items::from_vec(Vec::from_slice(alloc, entries)?))
}

// The message under the pair at a position, with these keys.
fn accepted(
    alloc: Global,
    message: &Message,
    place: u8,
    pair: &Pair,
    tgks: Tgks,
) -> Result<Initial, NoMemory>
    ensures { (pairs : List Pair) → slice_get pairs place ≡ Some pair.now
        → IfOk result (λ i. IsAccepted pairs i (accepted_with message.now pair.now tgks.keys)) }
{
    let payloads = message.payloads.as_slice();
    Ok(Initial {
        csb: message.csb,
        random: Octets::copy_of(alloc, random_in(payloads))?,
        stamp: stamp_in(payloads),
        pair: place,
        peer: copy_of(&pair.peer),
        tgks,
        map: entries_of(alloc, message.map.as_slice())?,
        policies: policies_in(alloc, payloads)?,
    })
}

// The message of the keys under its cipher, with so many messages kept.
fn with_keys(
    alloc: Global,
    message: &Message,
    place: u8,
    pair: &Pair,
    kept: usize,
) -> Result<Initial, PskError>
    requires { length (closing_in message.now.payloads).octets ≤ 2 ^ 20 }
    ensures { (pairs : List Pair) → slice_get pairs place ≡ Some pair.now
        → Gives (IsAccepted pairs) result (with_keys message.now pair.now kept (keys_in message.now pair.now)) }
{
    let tgks = match keys_in(alloc, message, pair) {
        Ok(tgks) => tgks,
        Err(error) => return Err(error),
    };
    if kept > KEPT_MOST {
        return Err(PskError::Psk(PskFault::CacheFull));
    }
    Ok(accepted(alloc, message, place, pair, tgks)?)
}

// The message under the pair at a position.
#[tactic(auto, unfolding(crate::specs::Accepting::initial_under))]
fn initial_under(
    alloc: Global,
    octets: &[u8],
    message: &Message,
    place: u8,
    pair: &Pair,
    seen: &ReplayBook,
    now: u64,
) -> Result<Initial, PskError>
    requires small { length (closing_in message.now.payloads).octets ≤ 2 ^ 20 }
    requires moment { now ≤ 2085978495999 }
    ensures value { (pairs : List Pair) → slice_get pairs place ≡ Some pair.now
        → Gives (IsAccepted pairs) result (initial_under octets.now message.now seen.now now (Some pair.now)) }
    ensures needs { OnNoMemory result (fault_of octets.now message.now pair.now seen.now now ≡ None) }
{
    match fault_of(octets, message, pair, seen, now) {
        Some(fault) => Err(PskError::Psk(fault)),
        None => with_keys(alloc, message, place, pair, seen.count()),
    }
}

/// The initiator's message that the octets spell, under the first pair whose peer is its first name and,
/// where it has a second one, whose own name is that.
///
/// Refused, in this order: `IdUnknown` without such a pair; `Algorithm` for another cipher than AES in
/// counter mode or another MAC than HMAC-SHA-1; `BadMac`; `Skew` for a stamp more than 300,000 ms from the
/// moment; `Repeated` for a message that was noted; `KeyType` for keys that aren't served; `CacheFull` where
/// fewer than four more messages have room. Nothing is noted here. The causes up to `Repeated` need no memory.
pub fn read_initial(
    alloc: Global,
    octets: &[u8],
    message: &Message,
    book: &PskBook,
    seen: &ReplayBook,
    now: u64,
) -> Result<Initial, PskError>
    requires read { message_of octets.now ≡ Ok message.now }
    requires moment { now ≤ 2085978495999 }
    ensures value { Gives (IsAccepted book.now) result (initial_of octets.now message.now book.now seen.now now) }
    ensures needs { OnNoMemory result (early_of octets.now message.now book.now seen.now now ≡ None) }
{
    message_law();
    match place_named(book, message.payloads.as_slice()) {
        Some(place) => initial_under(alloc, octets, message, place, book.pair(place), seen, now),
        None => Err(PskError::Psk(PskFault::IdUnknown)),
    }
}
