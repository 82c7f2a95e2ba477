//! The texts of numbers, suites, keys, lifetimes and MKIs.

ghost use Rattle.std.specs.Prelude.{◌≡◌, ◌≤◌, ◌<◌, ◌^◌, length, take, option_map, IfSome};
ghost use Rattle.std.specs.List.{list_all};
ghost use Rattle.std.specs.Char.{is_ascii_digit};
ghost use Rattle.sg_sdes.specs.KeyTexts.{base64_at, crypto_suite_at, digits_at, key_at, lifetime_at, mki_at};

use base64::engine::general_purpose::{STANDARD, STANDARD_NO_PAD};
use sg_base::{MKI_MOST, MasterKey, Mki, RTP_LIFE, Suite, cut, read_number, read_suite};
use std::str;

/// The most digits of a tag and of a window.
const DIGITS_MOST: usize = 9;

fn are_digits(text: &[u8]) -> bool
    ensures { result ≡ list_all is_ascii_digit text.now }
{
    text.iter().all(|digit| digit.is_ascii_digit())
}

/// A number of one to nine digits, of which the first may be zeros.
#[tactic(auto, unfolding(crate::specs::KeyTexts::digits_at))]
pub(crate) fn read_digits(text: &[u8]) -> Option<u32>
    ensures { result ≡ digits_at text.now }
{
    if text.is_empty() || text.len() > DIGITS_MOST || !are_digits(text) {
        return None;
    }
    let Ok(digits) = str::from_utf8(text) else {
        return None;
    };
    digits.parse::<u32>().ok()
}

/// The suite of that name; the raw form has no crypto lines.
#[tactic(auto, unfolding(crate::specs::KeyTexts::crypto_suite_at))]
pub(crate) fn read_crypto_suite(text: &[u8]) -> Option<Suite>
    ensures { result ≡ crypto_suite_at text.now }
{
    let suite = read_suite(text)?;
    if suite.is_raw() {
        return None;
    }
    Some(suite)
}

/// The number of octets that the text decodes to, which are then the first of `octets`.
#[tactic(auto, unfolding(crate::specs::KeyTexts::base64_at))]
fn decode(text: &[u8], octets: &mut [u8; 48]) -> Option<usize>
    requires { length text.now ≤ 64 }
    ensures value { option_map (λ n. take n octets.new) result ≡ base64_at text.now }
    ensures bound { IfSome result (λ n. n ≤ 48) }
{
    if let Ok(count) = STANDARD.decode_slice_unchecked(text, octets) {
        return Some(count);
    }
    STANDARD_NO_PAD.decode_slice_unchecked(text, octets).ok()
}

/// A key and its salt in base64.
#[tactic(auto, unfolding(crate::specs::KeyTexts::key_at))]
pub(crate) fn read_key(suite: Suite, text: &[u8]) -> Option<MasterKey>
    ensures { result ≡ key_at suite text.now }
{
    // No key needs more.
    if text.len() > 64 {
        return None;
    }
    let mut octets = [0; 48];
    let count = decode(text, &mut octets)?;
    MasterKey::new(suite, &octets[..count])
}

/// How many packets a key lives for.
#[tactic(auto, unfolding(crate::specs::KeyTexts::lifetime_at))]
pub(crate) fn read_lifetime(text: &[u8]) -> Option<u64>
    ensures { result ≡ lifetime_at text.now }
{
    if let Some(exponent) = text.strip_prefix(b"2^".as_slice()) {
        let exponent = read_number(48, exponent)?;
        return Some(1 << exponent);
    }
    let lifetime = read_number(RTP_LIFE as u128, text)?;
    if lifetime == 0 {
        return None;
    }
    Some(lifetime as u64)
}

/// A value and its length.
#[tactic(auto, unfolding(crate::specs::KeyTexts::mki_at))]
pub(crate) fn read_mki(text: &[u8]) -> Option<Mki>
    ensures { result ≡ mki_at text.now }
{
    let (value, length) = cut(b':', text)?;
    let value = read_number(u128::MAX, value)?;
    let length = read_number(MKI_MOST as u128, length)? as u8;
    Mki::new(value, length)
}
