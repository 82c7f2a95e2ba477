//! Crypto lines, read.

ghost use Rattle.std.specs.Prelude.{◌≡◌, IfOk, option_map};
ghost use Rattle.sg_sdes.specs.CryptoOf.{crypto_of, crypto_parts};
ghost use Rattle.sg_sdes.specs.CryptoText.{IsCryptoLine};
ghost use Rattle.sg_sdes.specs.Words.{words_behind};

use crate::CryptoLine;
use crate::distinct::all_differ;
use crate::key_texts::{read_crypto_suite, read_digits};
use crate::keys::read_keys;
use crate::parameters::read_parameters;
use crate::words::{first_word, next_word};
use sg_base::SdesFault;

#[tactic(auto, unfolding(crate::specs::CryptoOf::crypto_parts))]
fn read_parts(
    tag: &[u8],
    suite: &[u8],
    keys: &[u8],
    parameters: Option<&[u8]>,
) -> Result<CryptoLine, SdesFault>
    ensures { result ≡ crypto_parts tag.now suite.now keys.now (words_behind (option_map (λ rest. rest.now) parameters.entry)) }
{
    let tag = read_digits(tag).ok_or(SdesFault::Tag)?;
    let suite = read_crypto_suite(suite).ok_or(SdesFault::Suite)?;
    let keys = read_keys(suite, keys)?;
    if !all_differ(keys.as_slice()) {
        return Err(SdesFault::MkiValue);
    }
    let said = read_parameters(parameters).ok_or(SdesFault::Parameter)?;
    Ok(CryptoLine {
        tag,
        suite,
        keys,
        window: said.window,
        plain_rtp: said.plain_rtp,
        plain_rtcp: said.plain_rtcp,
    })
}

/// The line that a value says, which begins behind `crypto:`; or its first fault, in the order of the text:
/// Tag, Suite, of each key Key, Lifetime and MkiValue, MkiValue of the rule on several keys, and Parameter.
pub fn read_crypto(value: &[u8]) -> Result<CryptoLine, SdesFault>
    ensures exact { result ≡ crypto_of value.now }
    // What is read has a spelling.
    ensures valid { IfOk result IsCryptoLine }
{
    let (tag, rest) = first_word(value);
    let (suite, rest) = next_word(rest);
    let (keys, rest) = next_word(rest);
    read_parts(tag, suite, keys, rest)
}
