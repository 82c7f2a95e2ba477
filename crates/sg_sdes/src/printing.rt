//! Crypto lines, printed.

ghost use Rattle.std.specs.Prelude.{◌≡◌, ◌++◌, ◌∷◌, ◌^◌, ℕ, List, [], if◌then◌else◌, OnOk, IfOk, codes, decimal};
ghost use Rattle.std.specs.List.{flat_map};
ghost use Rattle.base64.specs.GeneralPurpose.{encode_of};
ghost use Rattle.base64.specs.Engines.{standard};
ghost use Rattle.sg_sdes.specs.CryptoText.{crypto_text, inline_text, keys_text, lifetime_text, mki_text, next_key, next_words, window_words};

use crate::{CryptoLine, InlineKey};
use base64::engine::general_purpose::STANDARD;
use itoa::Buffer;
use sg_base::{MasterKey, Mki, NoMemory, Octets, RTP_LIFE};
use std::alloc::Global;

fn push_number(out: &mut Vec<u8>, number: u128) -> Result<(), NoMemory>
    ensures { OnOk result (out.new.items ≡ out.old.items ++ decimal number) }
{
    out.extend_from_slice(Buffer::new().format(number).as_bytes())?;
    Ok(())
}

fn push_base64(alloc: Global, out: &mut Vec<u8>, key: &MasterKey) -> Result<(), NoMemory>
    ensures { OnOk result (out.new.items ≡ out.old.items ++ encode_of standard (key.now.key ++ key.now.salt)) }
{
    let mut octets = Vec::from_slice(alloc, key.key())?;
    octets.extend_from_slice(key.salt())?;
    let text = STANDARD.encode(alloc, &octets)?;
    out.extend_from_slice(text.as_bytes())?;
    Ok(())
}

fn push_lifetime(out: &mut Vec<u8>, lifetime: u64) -> Result<(), NoMemory>
    ensures { OnOk result (out.new.items ≡ out.old.items ++ lifetime_text lifetime) }
{
    if lifetime == RTP_LIFE {
        return Ok(());
    }
    out.push(b'|')?;
    push_number(out, u128::from(lifetime))
}

fn push_mki(out: &mut Vec<u8>, mki: Option<Mki>) -> Result<(), NoMemory>
    ensures { OnOk result (out.new.items ≡ out.old.items ++ mki_text mki) }
{
    let Some(mki) = mki else {
        return Ok(());
    };
    out.push(b'|')?;
    push_number(out, mki.value())?;
    out.push(b':')?;
    push_number(out, u128::from(mki.len()))
}

fn push_inline(alloc: Global, out: &mut Vec<u8>, key: &InlineKey) -> Result<(), NoMemory>
    ensures { OnOk result (out.new.items ≡ out.old.items ++ inline_text key.now) }
{
    out.extend_from_slice(b"inline:")?;
    push_base64(alloc, out, &key.key)?;
    push_lifetime(out, key.lifetime)?;
    push_mki(out, key.mki)
}

fn push_others(alloc: Global, out: &mut Vec<u8>, keys: &[InlineKey]) -> Result<(), NoMemory>
    ensures { OnOk result (out.new.items ≡ out.old.items ++ flat_map next_key keys.now) }
{
    for key in keys {
        out.push(b';')?;
        push_inline(alloc, out, key)?;
    }
    Ok(())
}

fn push_keys(alloc: Global, out: &mut Vec<u8>, keys: &[InlineKey]) -> Result<(), NoMemory>
    ensures { OnOk result (out.new.items ≡ out.old.items ++ keys_text keys.now) }
{
    match keys {
        [] => Ok(()),
        [first, others @ ..] => {
            push_inline(alloc, out, first)?;
            push_others(alloc, out, others)?;
            Ok(())
        }
    }
}

fn push_word(out: &mut Vec<u8>, said: bool, word: &[u8]) -> Result<(), NoMemory>
    ensures { OnOk result (out.new.items ≡ out.old.items ++ next_words (if said then word.now ∷ [] else [])) }
{
    if said {
        out.push(b' ')?;
        out.extend_from_slice(word)?;
    }
    Ok(())
}

fn push_window(out: &mut Vec<u8>, window: Option<u32>) -> Result<(), NoMemory>
    ensures { OnOk result (out.new.items ≡ out.old.items ++ next_words (window_words window)) }
{
    let Some(window) = window else {
        return Ok(());
    };
    out.extend_from_slice(b" WSH=")?;
    push_number(out, u128::from(window))
}

/// The one spelling of a line: single spaces, no lifetime where it is 2^48, and then the marks and the
/// window.
pub fn print_crypto(alloc: Global, line: &CryptoLine) -> Result<Octets, NoMemory>
    ensures { IfOk result (λ octets. octets ≡ crypto_text line.now) }
{
    let mut out = Vec::new(alloc);
    push_number(&mut out, u128::from(line.tag))?;
    out.push(b' ')?;
    out.extend_from_slice(line.suite.name())?;
    out.push(b' ')?;
    push_keys(alloc, &mut out, line.keys.as_slice())?;
    push_word(&mut out, line.plain_rtp, b"UNENCRYPTED_SRTP")?;
    push_word(&mut out, line.plain_rtcp, b"UNENCRYPTED_SRTCP")?;
    push_window(&mut out, line.window)?;
    Ok(Octets::from_vec(out))
}
