//! The expansion of a key into the words of its round keys (FIPS 197, 5.2).

ghost use Rattle.std.specs.Prelude.{◌≡◌, ◌+◌, ◌*◌, ◌/◌, ◌<◌, ◌≤◌, [], length, slice_index_or};
ghost use Rattle.sg_aes.specs.KeyExpansion.{add_words, added, key_word, power_of_x, round_key};
ghost use Rattle.sg_aes.specs.Schedule.{AreKept, key_of, IsKeyWords, IsKeyLength, IsExpanded};

use crate::vectors::{key_nibbles, sub_word};
use std::simd::prelude::*;

/// The words of the round keys: four for each of up to 15 round keys.
pub(crate) type Words = [[u8; 4]; 60];

// The powers of x from the power 0 on, as many as a key of 4 words asks for.
const POWERS: [u8; 10] = [1, 2, 4, 8, 16, 32, 64, 128, 0x1b, 0x36];

fn power_of_x(n: usize) -> u8
    requires { n < 10 }
    ensures { result ≡ power_of_x n }
{
    POWERS[n]
}

pub(crate) fn add_words(a: [u8; 4], b: [u8; 4]) -> [u8; 4]
    ensures { result ≡ add_words a b }
{
    [a[0] ^ b[0], a[1] ^ b[1], a[2] ^ b[2], a[3] ^ b[3]]
}

// What word i of a key of n words adds to word i - n.
fn added(n: usize, i: usize, before: [u8; 4]) -> [u8; 4]
    requires words { IsKeyWords n }
    requires low { n ≤ i }
    requires high { i < 4 * (n + 7) }
    ensures { result ≡ added n i before }
{
    if i % n == 0 {
        let turned = [before[1], before[2], before[3], before[0]];
        add_words(sub_word(turned), [power_of_x(i / n - 1), 0, 0, 0])
    } else if n == 8 && i % 8 == 4 {
        sub_word(before)
    } else {
        before
    }
}

// The word at octet i of a key.
pub(crate) fn key_word(key: &[u8], i: usize) -> [u8; 4]
    requires { i + 4 ≤ length key.now }
    ensures { result ≡ key_word key.now i }
{
    [key[i], key[i + 1], key[i + 2], key[i + 3]]
}

/// The words of a key's round keys; those past the last round key are 0.
pub(crate) fn expand(key: &[u8]) -> Words
    requires { IsKeyLength (length key.now) }
    ensures expanded { IsExpanded (length key.now / 4) result }
    ensures key { key_of (length key.now / 4) result ≡ key.now }
{
    let n = key.len() / 4;
    let mut words = [[0u8; 4]; 60];
    'load: for i in 0..n {
        words[i] = key_word(key, 4 * i);
    }
    'expand: for i in n..4 * (n + 7) {
        words[i] = add_words(words[i - n], added(n, i, words[i - 1]));
    }
    words
}

/// Round key r of the words.
#[inline(always)]
pub(crate) fn round_key(words: &Words, r: usize) -> u8x16
    requires { r < 15 }
    ensures { result ≡ round_key words.now r }
{
    let [a0, a1, a2, a3] = words[4 * r];
    let [b0, b1, b2, b3] = words[4 * r + 1];
    let [c0, c1, c2, c3] = words[4 * r + 2];
    let [d0, d1, d2, d3] = words[4 * r + 3];
    u8x16::from_array([
        a0, a1, a2, a3, b0, b1, b2, b3, c0, c1, c2, c3, d0, d1, d2, d3,
    ])
}

/// The nibbles of round keys 1 to `last` - 1, as `round` takes them.
pub(crate) type RoundKeys = [[u8; 16]; 15];

/// The nibbles of the round keys of the words, but for the first and the last.
pub(crate) fn kept_keys(words: &Words, last: usize) -> RoundKeys
    requires { last < 15 }
    ensures { AreKept words.now result last }
{
    let mut kept = [[0u8; 16]; 15];
    'keep: for r in 1..last {
        kept[r] = key_nibbles(round_key(words, r));
    }
    kept
}

/// The nibbles of round key r.
#[inline(always)]
pub(crate) fn kept_key(kept: &RoundKeys, r: usize) -> u8x16
    requires { r < 15 }
    ensures { result ≡ slice_index_or kept.now r [] }
{
    u8x16::from_array(kept[r])
}
