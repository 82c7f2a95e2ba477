//! The attributes of keys (RFC 4568, 9.1; RFC 4567, 3.1) and sources (RFC 5576, 4.1).

ghost use Rattle.std.specs.Prelude.{◌≡◌, IfOk, is_some, option_map};
ghost use Rattle.std.specs.List.{list_any};
ghost use Rattle.sg_sdp.specs.declared.medium.Medium as descriptions;
ghost use Rattle.sg_agreement.specs.Attributes.{behind, crypto_values, ends_word, first_of, first_word, has_message, mikey_rest, mikey_value, own_ssrc, ssrc_at};

use sg_base::{NoMemory, Octets, cut, read_number};
use sg_sdp::{Medium, Sdp};
use std::alloc::Global;

const CRYPTO: &[u8] = b"a=crypto:";

const MIKEY: &[u8] = b"a=key-mgmt:mikey";

const SSRC: &[u8] = b"a=ssrc:";

/// What stands behind a prefix.
fn behind<'a>(prefix: &[u8], line: &'a [u8]) -> Option<&'a [u8]>
    ensures { option_map (λ rest. rest.now) result ≡ behind prefix.now line.now }
{
    line.strip_prefix(prefix)
}

/// The values of crypto attributes, in order.
#[tactic(auto, unfolding(sg_agreement::specs::Attributes::crypto_values))]
pub(crate) fn crypto_values(alloc: Global, lines: &[Octets]) -> Result<Vec<Octets>, NoMemory>
    ensures { IfOk result (λ values. values.items ≡ crypto_values lines.now) }
{
    let mut values = Vec::new(alloc);
    for line in lines {
        if let Some(value) = behind(CRYPTO, line.as_slice()) {
            values.push(Octets::copy_of(alloc, value)?)?;
        }
    }
    Ok(values)
}

/// The value of the first crypto attribute.
#[tactic(auto, unfolding(sg_agreement::specs::Attributes::crypto_values))]
pub(crate) fn first_crypto_value(lines: &[Octets]) -> Option<&[u8]>
    ensures { option_map (λ value. value.now) result ≡ first_of (crypto_values lines.now) }
{
    for line in lines {
        if let Some(value) = behind(CRYPTO, line.as_slice()) {
            return Some(value);
        }
    }
    None
}

/// The SSRC that a line names, from 1.
fn ssrc_at(line: &[u8]) -> Option<u32>
    ensures { result ≡ ssrc_at line.now }
{
    let rest = behind(SSRC, line)?;
    let number = read_number(4_294_967_295, first_word(rest))? as u32;
    if number == 0 {
        return None;
    }
    Some(number)
}

/// What stands before the first space, or all.
fn first_word(text: &[u8]) -> &[u8]
    ensures { result.now ≡ first_word text.now }
{
    match cut(b' ', text) {
        Some((word, _)) => word,
        None => text,
    }
}

/// The SSRC under which the gateway sends: the first that the lines name, or 0.
#[tactic(auto, unfolding(sg_agreement::specs::Attributes::own_ssrc))]
pub(crate) fn own_ssrc(lines: &[Octets]) -> u32
    ensures { result ≡ own_ssrc lines.now }
{
    for line in lines {
        if let Some(ssrc) = ssrc_at(line.as_slice()) {
            return ssrc;
        }
    }
    0
}

/// What stands behind the protocol's name, where that is `mikey`.
fn mikey_rest(line: &[u8]) -> Option<&[u8]>
    ensures { option_map (λ rest. rest.now) result ≡ mikey_rest line.now }
{
    let rest = behind(MIKEY, line)?;
    match rest {
        [] | [b' ', ..] => Some(rest),
        _ => None,
    }
}

/// The value of the first `mikey` attribute, with the space before its text.
#[tactic(auto, unfolding(sg_agreement::specs::Attributes::mikey_value))]
pub(crate) fn mikey_value(lines: &[Octets]) -> Option<&[u8]>
    ensures { option_map (λ value. value.now) result ≡ mikey_value lines.now }
{
    for line in lines {
        if let Some(value) = mikey_rest(line.as_slice()) {
            return Some(value);
        }
    }
    None
}

/// Whether a medium has a message of its own.
fn has_own_message(medium: &Medium) -> bool
    ensures { result ≡ is_some (mikey_value medium.now.lines) }
{
    mikey_value(medium.lines.as_slice()).is_some()
}

fn any_message(media: &[Medium]) -> bool
    ensures { result ≡ list_any (λ (m : descriptions.Medium). is_some (mikey_value m.lines)) media.now }
{
    media.iter().any(|medium| has_own_message(medium))
}

/// Whether a message stands in the session part or in some medium.
pub(crate) fn has_message(sdp: &Sdp) -> bool
    ensures { result ≡ has_message sdp.now }
{
    mikey_value(sdp.session.as_slice()).is_some() || any_message(sdp.media.as_slice())
}
