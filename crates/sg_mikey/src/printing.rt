//! A message's one spelling.

ghost use Rattle.std.specs.Prelude.{◌≡◌, ◌∷◌, ◌++◌, OnOk, IfOk};
ghost use Rattle.std.specs.List.{flat_map};
ghost use Rattle.sg_mikey.specs.Spelling.{short, sized, item_octets, body_octets, chain_octets, entry_octets, message_octets, next_number};

use crate::{CsEntry, Message, Payload, Policy};
use sg_base::{NoMemory, Octets, octets_of_u32};
use std::alloc::Global;

// Octets behind another.
fn put_behind(out: &mut Vec<u8>, first: u8, octets: &[u8]) -> Result<(), NoMemory>
    ensures { OnOk result (out.new.items ≡ out.old.items ++ first ∷ octets.now) }
{
    out.push(first)?;
    out.extend_from_slice(octets)?;
    Ok(())
}

// Octets behind their number in one octet.
fn put_short(out: &mut Vec<u8>, octets: &[u8]) -> Result<(), NoMemory>
    ensures { OnOk result (out.new.items ≡ out.old.items ++ short octets.now) }
{
    put_behind(out, (octets.len() % 256) as u8, octets)
}

// Octets behind another and their number in two octets.
fn put_sized(out: &mut Vec<u8>, first: u8, octets: &[u8]) -> Result<(), NoMemory>
    ensures { OnOk result (out.new.items ≡ out.old.items ++ first ∷ sized octets.now) }
{
    out.extend_from_slice(&[first, (octets.len() / 256 % 256) as u8])?;
    put_short(out, octets)
}

// Items of a policy.
fn put_items(out: &mut Vec<u8>, items: &[(u8, Octets)]) -> Result<(), NoMemory>
    ensures { OnOk result (out.new.items ≡ out.old.items ++ flat_map item_octets items.now) }
{
    let mut rest = items;
    while let [item, others @ ..] = rest {
        out.push(item.0)?;
        put_short(out, item.1.as_slice())?;
        rest = others;
    }
    Ok(())
}

// A policy behind its next payload's number.
fn put_policy(alloc: Global, out: &mut Vec<u8>, policy: &Policy) -> Result<(), NoMemory>
    ensures { OnOk result (out.new.items ≡ out.old.items ++ body_octets (Payload.Sp policy.now)) }
{
    let mut items = Vec::new(alloc);
    put_items(&mut items, policy.items.as_slice())?;
    out.push(policy.number)?;
    put_sized(out, 0, &items)
}

// A payload behind its next payload's number.
fn put_payload(alloc: Global, out: &mut Vec<u8>, payload: &Payload) -> Result<(), NoMemory>
    ensures { OnOk result (out.new.items ≡ out.old.items ++ body_octets payload.now) }
{
    match payload {
        Payload::Time { form, stamp } => put_behind(out, *form, stamp),
        Payload::Random { octets } => put_short(out, octets.as_slice()),
        Payload::Id { form, name } => put_sized(out, *form, name.as_slice()),
        Payload::Sp(policy) => put_policy(alloc, out, policy),
        Payload::Extension { form, octets } => put_sized(out, *form, octets.as_slice()),
        Payload::Kemac {
            cipher,
            octets,
            mac,
            tag,
        } => {
            put_sized(out, *cipher, octets.as_slice())?;
            put_behind(out, *mac, tag.as_slice())
        }
        Payload::Verify { mac, tag } => put_behind(out, *mac, tag.as_slice()),
    }
}

// The number of the first payload, 0 where there is none.
fn first_number(payloads: &[Payload]) -> u8
    ensures { result ≡ next_number payloads.now }
{
    match payloads {
        [] => 0,
        [first, ..] => first.number(),
    }
}

// The payloads, each behind the number of the next one.
fn put_chain(alloc: Global, out: &mut Vec<u8>, payloads: &[Payload]) -> Result<(), NoMemory>
    ensures { OnOk result (out.new.items ≡ out.old.items ++ chain_octets payloads.now) }
{
    let mut rest = payloads;
    while let [payload, others @ ..] = rest {
        out.push(first_number(others))?;
        put_payload(alloc, out, payload)?;
        rest = others;
    }
    Ok(())
}

// The map of the crypto sessions.
fn put_entries(out: &mut Vec<u8>, entries: &[CsEntry]) -> Result<(), NoMemory>
    ensures { OnOk result (out.new.items ≡ out.old.items ++ flat_map entry_octets entries.now) }
{
    let mut rest = entries;
    while let [entry, others @ ..] = rest {
        put_behind(out, entry.policy, &octets_of_u32(entry.ssrc))?;
        out.extend_from_slice(&octets_of_u32(entry.roc))?;
        rest = others;
    }
    Ok(())
}

/// The one spelling of a message. Of a value that is no message, a length that is greater than its field
/// counts modulo the field's room. Whether there is memory is left open.
pub fn print(alloc: Global, message: &Message) -> Result<Octets, NoMemory>
    ensures { IfOk result (λ o. o ≡ message_octets message.now) }
{
    let payloads = message.payloads.as_slice();
    let entries = message.map.as_slice();
    let verify = if message.verify { 128 } else { 0 };
    let start = [1, message.kind, first_number(payloads), verify];
    let mut out = Vec::from_slice(alloc, &start)?;
    out.extend_from_slice(&octets_of_u32(message.csb))?;
    out.extend_from_slice(&[(entries.len() % 256) as u8, 0])?;
    put_entries(&mut out, entries)?;
    put_chain(alloc, &mut out, payloads)?;
    Ok(Octets::from_vec(out))
}
