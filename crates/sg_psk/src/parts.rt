//! The parts of a message's chain (RFC 3830, 6).

ghost use Rattle.std.specs.Prelude.{◌≡◌, option_map, IfOk};
ghost use Rattle.sg_psk.specs.Parts.{NextName, closing_in, policies_in, random_in, stamp_in};

use sg_base::{NoMemory, Octets};
use sg_mikey::{Items, Payload, Policy};
use std::alloc::Global;

/// The stamp of the T.
#[tactic(auto, unfolding(crate::specs::Parts::stamp_in))]
pub(crate) fn stamp_in(payloads: &[Payload]) -> [u8; 8]
    ensures { result ≡ stamp_in payloads.now }
{
    let mut rest = payloads;
    while let [payload, others @ ..] = rest {
        if let Payload::Time { stamp, .. } = payload {
            return *stamp;
        }
        rest = others;
    }
    [0; 8]
}

/// The octets of the RAND.
#[tactic(auto, unfolding(crate::specs::Parts::random_in))]
pub(crate) fn random_in(payloads: &[Payload]) -> &[u8]
    ensures { result.now ≡ random_in payloads.now }
{
    let mut rest = payloads;
    while let [payload, others @ ..] = rest {
        if let Payload::Random { octets } = payload {
            return octets.as_slice();
        }
        rest = others;
    }
    &[]
}

/// The first name of an ID, and the payloads behind it.
#[tactic(auto, unfolding(crate::specs::Parts::names_in))]
pub(crate) fn next_name(payloads: &[Payload]) -> Option<(&[u8], &[Payload])>
    ensures { NextName payloads.now (option_map (λ n. (n.0.now, n.1.now)) result) }
{
    let mut rest = payloads;
    while let [payload, others @ ..] = rest {
        if let Payload::Id { name, .. } = payload {
            return Some((name.as_slice(), others));
        }
        rest = others;
    }
    None
}

/// What closes a chain: a cipher and the octets under it, which a V hasn't, and a MAC.
#[derive(Drop)]
pub(crate) struct Closing<'a> {
    pub cipher: u8,
    pub octets: &'a [u8],
    pub mac: u8,
    pub tag: &'a [u8],
}

/// The KEMAC or the V.
#[tactic(auto, unfolding(crate::specs::Parts::closing_in))]
pub(crate) fn closing_in(payloads: &[Payload]) -> Closing<'_>
    ensures cipher { result.cipher ≡ (closing_in payloads.now).cipher }
    ensures octets { result.octets.now ≡ (closing_in payloads.now).octets }
    ensures mac { result.mac ≡ (closing_in payloads.now).mac }
    ensures tag { result.tag.now ≡ (closing_in payloads.now).tag }
{
    let mut rest = payloads;
    while let [payload, others @ ..] = rest {
        match payload {
            Payload::Kemac {
                cipher,
                octets,
                mac,
                tag,
            } => {
                return Closing {
                    cipher: *cipher,
                    octets: octets.as_slice(),
                    mac: *mac,
                    tag: tag.as_slice(),
                };
            }
            Payload::Verify { mac, tag } => {
                return Closing {
                    cipher: 0,
                    octets: &[],
                    mac: *mac,
                    tag: tag.as_slice(),
                };
            }
            _ => {}
        }
        rest = others;
    }
    Closing {
        cipher: 0,
        octets: &[],
        mac: 0,
        tag: &[],
    }
}

// A copy of a policy.
fn copy_of(alloc: Global, policy: &Policy) -> Result<Policy, NoMemory>
    ensures { IfOk result (λ p. p ≡ policy.now) }
{
    let mut items = Items::new(alloc);
    let mut rest = policy.items.as_slice();
    while let [item, others @ ..] = rest {
        items.push((item.0, Octets::copy_of(alloc, item.1.as_slice())?))?;
        rest = others;
    }
    Ok(Policy {
        number: policy.number,
        items,
    })
}

/// Copies of the policies in order.
#[tactic(auto, unfolding(crate::specs::Parts::policies_in))]
pub(crate) fn policies_in(alloc: Global, payloads: &[Payload]) -> Result<Items<Policy>, NoMemory>
    ensures { IfOk result (λ policies. policies ≡ policies_in payloads.now) }
{
    let mut policies = Items::new(alloc);
    let mut rest = payloads;
    while let [payload, others @ ..] = rest {
        if let Payload::Sp(policy) = payload {
            policies.push(copy_of(alloc, policy)?)?;
        }
        rest = others;
    }
    Ok(policies)
}
