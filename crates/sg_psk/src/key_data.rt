//! The keys inside a KEMAC (RFC 3830, 6.13 and 6.14).

ghost use Rattle.std.specs.Prelude.{◌≡◌, ◌==◌, ◌&&◌, ◌||◌, ◌≤◌, ◌<◌, ◌^◌, ◌*◌, ℕ, List, Option, Some, None, option_map, length, nat_le, nat_lt, if◌then◌else◌, IfSome};
ghost use Rattle.std.specs.List.{list_all};
ghost use Rattle.sg_base.specs.Octets.{number_of};
ghost use Rattle.sg_base.specs.declared.faults.PskFault.TheVariants.{KeyType};
ghost use Rattle.sg_psk.specs.KeyData.{all_differ, differs, is_key_length, is_next, key_part, key_part_at, keys_at, octet_at, octets_at, spi_at, spi_of, tgks_of, validity_at};
ghost use Rattle.sg_psk.specs.StandsFor.{Gives, or_fault};

use crate::PskError;
use sg_base::{Mki, Octets, PskFault, mkis_differ};
use sg_mikey::{Items, Tgk, Tgks};
use std::alloc::Global;

/// How many keys a message carries at most.
const KEYS_MOST: usize = 8;

#[tactic(auto, unfolding(crate::specs::KeyData::octet_at))]
fn octet_at(octets: &[u8]) -> Option<(u8, &[u8])>
    ensures { option_map (λ p. (p.0, p.1.now)) result ≡ octet_at octets.now }
{
    match octets {
        [first, rest @ ..] => Some((*first, rest)),
        [] => None,
    }
}

#[tactic(auto, unfolding(crate::specs::KeyData::octets_at))]
fn octets_at(octets: &[u8], count: usize) -> Option<(&[u8], &[u8])>
    ensures value { option_map (λ p. (p.0.now, p.1.now)) result ≡ octets_at count octets.now }
    ensures sized { IfSome result (λ p. length p.0.now ≡ count) }
{
    if octets.len() < count {
        return None;
    }
    Some(octets.split_at(count))
}

// The number of these octets; none where it is 2^128 or more.
#[tactic(auto, using(crate::proofs::KeyLemmas::too_great))]
fn wide_number(octets: &[u8]) -> Option<u128>
    ensures { result ≡ (if nat_lt (number_of octets.now) (2 ^ 128) then Some (number_of octets.now) else None) }
{
    let mut number = 0u128;
    let mut rest = octets;
    while let [octet, others @ ..] = rest {
        let Some(scaled) = number.checked_mul(256) else {
            return None;
        };
        number = scaled + u128::from(*octet);
        rest = others;
    }
    Some(number)
}

// The SPI of these octets.
#[tactic(auto, using(crate::proofs::KeyLemmas::spi_short, crate::proofs::KeyLemmas::spi_long))]
fn spi_of(octets: &[u8]) -> Option<Mki>
    ensures { result ≡ spi_of octets.now }
{
    if octets.len() < 1 {
        return None;
    }
    if octets.len() > 128 {
        return None;
    }
    match wide_number(octets) {
        Some(value) => Mki::new(value, octets.len() as u8),
        None => None,
    }
}

// An SPI behind its length, and the octets behind it.
#[tactic(auto, unfolding(crate::specs::KeyData::spi_at))]
fn spi_at(octets: &[u8]) -> Option<(Mki, &[u8])>
    ensures { option_map (λ p. (p.0, p.1.now)) result ≡ spi_at octets.now }
{
    let (size, rest) = octet_at(octets)?;
    let (octets, rest) = octets_at(rest, usize::from(size))?;
    let spi = spi_of(octets)?;
    Some((spi, rest))
}

// What stands behind a key, by its validity, and the octets behind that.
#[tactic(auto, unfolding(crate::specs::KeyData::validity_at))]
fn validity_at(form: u8, octets: &[u8]) -> Option<(Option<Mki>, &[u8])>
    ensures { option_map (λ p. (p.0, p.1.now)) result ≡ validity_at form octets.now }
{
    match form {
        0 => Some((None, octets)),
        1 => {
            let Some((spi, rest)) = spi_at(octets) else {
                return None;
            };
            Some((Some(spi), rest))
        }
        _ => None,
    }
}

// A key data payload: the number of the next one, the key, its SPI, and the octets behind.
#[derive(Drop)]
struct KeyPart<'a> {
    next: u8,
    key: &'a [u8],
    spi: Option<Mki>,
    rest: &'a [u8],
}

// The number that two octets stand for.
fn number_of_two(octets: &[u8]) -> usize
    requires { length octets.now ≡ 2 }
    ensures { result ≡ number_of octets.now }
{
    match octets {
        [high, low] => usize::from(*high) * 256 + usize::from(*low),
        _ => 0,
    }
}

fn is_next(number: u8) -> bool
    ensures { result ≡ is_next number }
{
    number == 0 || number == 20
}

fn is_key_length(count: usize) -> bool
    ensures { result ≡ is_key_length count }
{
    16 <= count && count <= 64
}

// A key data payload (RFC 3830, 6.13):
//
//   | next payload: 8 | type: 4 | KV: 4 | length: 16 | key | SPI length: 8 | SPI |
#[tactic(auto, unfolding(crate::specs::KeyData::key_part_at))]
fn key_part_at(octets: &[u8]) -> Option<KeyPart<'_>>
    ensures { option_map (λ p. key_part p.next p.key.now p.spi p.rest.now) result ≡ key_part_at octets.now }
{
    let (next, rest) = octet_at(octets)?;
    let (form, rest) = octet_at(rest)?;
    let (size, rest) = octets_at(rest, 2)?;
    let count = number_of_two(size);
    let (key, rest) = octets_at(rest, count)?;
    let Some((spi, rest)) = validity_at(form, rest) else {
        return None;
    };
    if !is_next(next) {
        return None;
    }
    if !is_key_length(count) {
        return None;
    }
    Some(KeyPart {
        next,
        key,
        spi,
        rest,
    })
}

fn differs(key: &Tgk, other: &Tgk) -> bool
    ensures { result ≡ differs key.now other.now }
{
    mkis_differ(&key.spi, &other.spi)
}

fn differs_from_all(key: &Tgk, others: &[Tgk]) -> bool
    ensures { result ≡ list_all (differs key.now) others.now }
{
    others.iter().all(|other| differs(key, other))
}

// Whether all keys have SPIs of one length with values of their own, or there is one key.
#[tactic(auto, unfolding(crate::specs::KeyData::all_differ))]
fn all_differ(keys: &[Tgk]) -> bool
    ensures { result ≡ all_differ keys.now }
{
    let mut rest = keys;
    while let [first, others @ ..] = rest {
        if !differs_from_all(first, others) {
            return false;
        }
        rest = others;
    }
    true
}

// The keys of at most eight payloads, up to the last, behind which nothing stands.
#[tactic(auto, using(crate::proofs::KeyLemmas::no_part, crate::proofs::KeyLemmas::too_many))]
fn read_keys(alloc: Global, octets: &[u8]) -> Result<Items<Tgk>, PskError>
    ensures { Gives (λ keys tgks. keys ≡ tgks) result (or_fault KeyType (keys_at 8 octets.now)) }
{
    let mut keys = Items::new(alloc);
    let mut rest = octets;
    for _ in 0..KEYS_MOST {
        let Some(part) = key_part_at(rest) else {
            return Err(PskError::Psk(PskFault::KeyType));
        };
        let key = Octets::copy_of(alloc, part.key)?;
        keys.push(Tgk { key, spi: part.spi })?;
        if part.next == 0 {
            if !part.rest.is_empty() {
                return Err(PskError::Psk(PskFault::KeyType));
            }
            return Ok(keys);
        }
        rest = part.rest;
    }
    Err(PskError::Psk(PskFault::KeyType))
}

/// The keys that the octets spell: one to eight, of 16 to 64 octets each, which fill them. One may be without
/// an SPI; several have SPIs of one length with values of their own. `KeyType` else.
#[tactic(auto, unfolding(crate::specs::KeyData::tgks_of))]
pub(crate) fn read_tgks(alloc: Global, octets: &[u8]) -> Result<Tgks, PskError>
    ensures { Gives (λ keys tgks. keys.keys ≡ tgks) result (or_fault KeyType (tgks_of octets.now)) }
{
    let keys = read_keys(alloc, octets)?;
    if !all_differ(keys.as_slice()) {
        return Err(PskError::Psk(PskFault::KeyType));
    }
    Ok(Tgks { keys })
}
