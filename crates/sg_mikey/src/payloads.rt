//! Payloads of a message (RFC 3830, 6): each reader answers the payload, the next one's number, and
//! the octets behind it.

ghost use Rattle.std.specs.Prelude.{◌≡◌};
ghost use Rattle.sg_mikey.specs.Spelling.{tag_length};
ghost use Rattle.sg_mikey.specs.Reading.{Gives, kemac_at, time_at, id_at, verify_at, random_at, extension_at, item_at, items_at, policy_at, payload_at};

use crate::faults::Halt;
use crate::fields::{
    read_item_type, read_next, read_octet, read_octets, read_sized, read_two, read_up_to,
};
use crate::{Items, Payload, Policy};
use sg_base::{MikeyFault, Octets};
use std::alloc::Global;

// What a reader of a payload answers.
type Chained<'a> = (Payload, u8, &'a [u8]);

// How many octets a MAC has.
fn tag_size(mac: u8) -> usize
    ensures { result ≡ tag_length mac }
{
    if mac == 1 { 20 } else { 0 }
}

// Key data transport (6.2):
//
//   | next payload: 8 | cipher: 8 | length: 16 | key data, encrypted | MAC: 8 | MAC: 0 or 160 |
#[tactic(auto, unfolding(crate::specs::Reading::kemac_at))]
fn read_kemac(alloc: Global, octets: &[u8]) -> Result<Chained<'_>, Halt>
    ensures { Gives (λ x. (x.0, x.1, x.2.now)) result (kemac_at octets.now) }
{
    let (next, rest) = read_next(octets)?;
    let (cipher, rest) = read_up_to(rest, 2, MikeyFault::Value)?;
    let (inner, rest) = read_sized(rest)?;
    let (mac, rest) = read_up_to(rest, 1, MikeyFault::Value)?;
    let (tag, rest) = read_octets(rest, tag_size(mac))?;
    let octets = Octets::copy_of(alloc, inner)?;
    let tag = Octets::copy_of(alloc, tag)?;
    let kemac = Payload::Kemac {
        cipher,
        octets,
        mac,
        tag,
    };
    Ok((kemac, next, rest))
}

// Time stamp (6.6):
//
//   | next payload: 8 | type: 8 | stamp: 64 |
#[tactic(auto, unfolding(crate::specs::Reading::time_at))]
fn read_time(octets: &[u8]) -> Result<Chained<'_>, Halt>
    ensures { Gives (λ x. (x.0, x.1, x.2.now)) result (time_at octets.now) }
{
    let (next, rest) = read_next(octets)?;
    let (form, rest) = read_up_to(rest, 1, MikeyFault::Value)?;
    let (prefix, rest) = read_octets(rest, 8)?;
    let mut stamp = [0; 8];
    stamp.copy_from_slice(prefix);
    Ok((Payload::Time { form, stamp }, next, rest))
}

// Identity (6.7):
//
//   | next payload: 8 | type: 8 | length: 16 | name |
#[tactic(auto, unfolding(crate::specs::Reading::id_at))]
fn read_id(alloc: Global, octets: &[u8]) -> Result<Chained<'_>, Halt>
    ensures { Gives (λ x. (x.0, x.1, x.2.now)) result (id_at octets.now) }
{
    let (next, rest) = read_next(octets)?;
    let (form, rest) = read_up_to(rest, 1, MikeyFault::Value)?;
    let (name, rest) = read_sized(rest)?;
    let name = Octets::copy_of(alloc, name)?;
    Ok((Payload::Id { form, name }, next, rest))
}

// Verification (6.9):
//
//   | next payload: 8 | MAC: 8 | MAC: 0 or 160 |
#[tactic(auto, unfolding(crate::specs::Reading::verify_at))]
fn read_verify(alloc: Global, octets: &[u8]) -> Result<Chained<'_>, Halt>
    ensures { Gives (λ x. (x.0, x.1, x.2.now)) result (verify_at octets.now) }
{
    let (next, rest) = read_next(octets)?;
    let (mac, rest) = read_up_to(rest, 1, MikeyFault::Value)?;
    let (tag, rest) = read_octets(rest, tag_size(mac))?;
    let tag = Octets::copy_of(alloc, tag)?;
    Ok((Payload::Verify { mac, tag }, next, rest))
}

// Random octets (6.11):
//
//   | next payload: 8 | length: 8 | octets |
#[tactic(auto, unfolding(crate::specs::Reading::random_at))]
fn read_random(alloc: Global, octets: &[u8]) -> Result<Chained<'_>, Halt>
    ensures { Gives (λ x. (x.0, x.1, x.2.now)) result (random_at octets.now) }
{
    let (next, rest) = read_next(octets)?;
    let (size, rest) = read_octet(rest)?;
    let (inner, rest) = read_octets(rest, usize::from(size))?;
    let octets = Octets::copy_of(alloc, inner)?;
    Ok((Payload::Random { octets }, next, rest))
}

// General extension (6.15):
//
//   | next payload: 8 | type: 8 | length: 16 | octets |
#[tactic(auto, unfolding(crate::specs::Reading::extension_at))]
fn read_extension(alloc: Global, octets: &[u8]) -> Result<Chained<'_>, Halt>
    ensures { Gives (λ x. (x.0, x.1, x.2.now)) result (extension_at octets.now) }
{
    let (next, rest) = read_next(octets)?;
    let (form, rest) = read_octet(rest)?;
    let (inner, rest) = read_sized(rest)?;
    let octets = Octets::copy_of(alloc, inner)?;
    Ok((Payload::Extension { form, octets }, next, rest))
}

// An item of a policy that has room for so many octets:
//
//   | type: 8 | length: 8 | value |
#[tactic(auto, unfolding(crate::specs::Reading::item_at))]
fn read_item(alloc: Global, octets: &[u8], room: usize) -> Result<((u8, Octets), &[u8]), Halt>
    ensures { Gives (λ x. (x.0, x.1.now)) result (item_at room octets.now) }
{
    let (kind, rest) = read_item_type(octets, room)?;
    let (size, rest) = read_up_to(rest, room.saturating_sub(2), MikeyFault::Value)?;
    let (value, rest) = read_octets(rest, usize::from(size))?;
    Ok(((kind, Octets::copy_of(alloc, value)?), rest))
}

// Items that fill so many octets.
fn read_items(alloc: Global, octets: &[u8], size: u16) -> Result<(Items<(u8, Octets)>, &[u8]), Halt>
    ensures { Gives (λ x. (x.0, x.1.now)) result (items_at size size octets.now) }
{
    let mut items = Vec::new(alloc);
    let mut rest = octets;
    let mut room = usize::from(size);
    for _ in 0..size {
        if room == 0 {
            return Ok((Items::from_vec(items), rest));
        }
        let (item, behind) = read_item(alloc, rest, room)?;
        room = room.saturating_sub(2 + item.1.as_slice().len());
        items.push(item)?;
        rest = behind;
    }
    Ok((Items::from_vec(items), rest))
}

// Security policy (6.10), of SRTP alone:
//
//   | next payload: 8 | policy number: 8 | protocol: 8 | length: 16 | items |
#[tactic(auto, unfolding(crate::specs::Reading::policy_at))]
fn read_policy(alloc: Global, octets: &[u8]) -> Result<Chained<'_>, Halt>
    ensures { Gives (λ x. (x.0, x.1, x.2.now)) result (policy_at octets.now) }
{
    let (next, rest) = read_next(octets)?;
    let (number, rest) = read_octet(rest)?;
    let (_, rest) = read_up_to(rest, 0, MikeyFault::Value)?;
    let (size, rest) = read_two(rest)?;
    let (items, rest) = read_items(alloc, rest, size)?;
    Ok((Payload::Sp(Policy { number, items }), next, rest))
}

// The payload of this number.
#[tactic(auto, unfolding(crate::specs::Reading::payload_at))]
pub fn read_payload(alloc: Global, octets: &[u8], number: u8) -> Result<Chained<'_>, Halt>
    ensures { Gives (λ x. (x.0, x.1, x.2.now)) result (payload_at number octets.now) }
{
    match number {
        1 => read_kemac(alloc, octets),
        5 => read_time(octets),
        6 => read_id(alloc, octets),
        9 => read_verify(alloc, octets),
        10 => read_policy(alloc, octets),
        11 => read_random(alloc, octets),
        _ => read_extension(alloc, octets),
    }
}
