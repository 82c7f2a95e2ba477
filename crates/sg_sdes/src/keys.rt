//! The keys of a crypto line, read.

ghost use Rattle.std.specs.Prelude.{◌≡◌, ◌^◌, is_some, is_none};
ghost use Rattle.sg_base.specs.Fields.{cut_at};
ghost use Rattle.sg_sdes.specs.Keys.{alone, inline_at, keys_of, with_both, with_one};

use crate::key_texts::{read_key, read_lifetime, read_mki};
use crate::{InlineKey, InlineKeys};
use arrayvec::ArrayVec;
use sg_base::{RTP_LIFE, SdesFault, Suite, cut};

fn alone(suite: Suite, text: &[u8]) -> Result<InlineKey, SdesFault>
    ensures { result ≡ alone suite text.now }
{
    let key = read_key(suite, text).ok_or(SdesFault::Key)?;
    Ok(InlineKey {
        key,
        lifetime: RTP_LIFE,
        mki: None,
    })
}

fn with_one(suite: Suite, text: &[u8], part: &[u8]) -> Result<InlineKey, SdesFault>
    ensures { result ≡ with_one suite text.now part.now }
{
    let key = read_key(suite, text).ok_or(SdesFault::Key)?;
    if cut(b':', part).is_some() {
        let mki = read_mki(part).ok_or(SdesFault::MkiValue)?;
        return Ok(InlineKey {
            key,
            lifetime: RTP_LIFE,
            mki: Some(mki),
        });
    }
    let lifetime = read_lifetime(part).ok_or(SdesFault::Lifetime)?;
    Ok(InlineKey {
        key,
        lifetime,
        mki: None,
    })
}

fn with_both(suite: Suite, text: &[u8], first: &[u8], second: &[u8]) -> Result<InlineKey, SdesFault>
    ensures { result ≡ with_both suite text.now first.now second.now }
{
    if cut(b'|', second).is_some() || cut(b':', first).is_some() || cut(b':', second).is_none() {
        return Err(SdesFault::Key);
    }
    let key = read_key(suite, text).ok_or(SdesFault::Key)?;
    let lifetime = read_lifetime(first).ok_or(SdesFault::Lifetime)?;
    let mki = read_mki(second).ok_or(SdesFault::MkiValue)?;
    Ok(InlineKey {
        key,
        lifetime,
        mki: Some(mki),
    })
}

/// One key with its lifetime and MKI.
#[tactic(auto, unfolding(crate::specs::Keys::inline_at))]
fn inline(suite: Suite, text: &[u8]) -> Result<InlineKey, SdesFault>
    ensures { result ≡ inline_at suite text.now }
{
    let body = text
        .strip_prefix(b"inline:".as_slice())
        .ok_or(SdesFault::Key)?;
    let Some((octets, rest)) = cut(b'|', body) else {
        return alone(suite, body);
    };
    let Some((first, second)) = cut(b'|', rest) else {
        return with_one(suite, octets, rest);
    };
    with_both(suite, octets, first, second)
}

/// The keys of a line, in turn.
pub(crate) fn read_keys(suite: Suite, text: &[u8]) -> Result<InlineKeys, SdesFault>
    ensures { result ≡ keys_of suite text.now }
{
    let mut keys = ArrayVec::new();
    for part in text.split(|octet| *octet == b';') {
        if keys.is_full() {
            return Err(SdesFault::Key);
        }
        keys.push(inline(suite, part)?);
    }
    Ok(InlineKeys::of(keys))
}
