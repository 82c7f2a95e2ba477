//! The steps of a round on the octets of two states at a time, which stand side by side in a vector of 32,
//! with no look-up at a place in memory. An octet is two nibbles i and k, for k + z * i, where z is a root of
//! z^2 = 2 z + 2 over the field of 16 elements; its inverse comes of look-ups of nibbles in vectors of 16
//! octets. Between rounds a state stays in nibbles, since they are linear over GF(2), as the columns' step
//! and the key's addition are. One state alone is taken twice.

ghost use Rattle.std.specs.Prelude.{◌≡◌, ℕ, List, ◌++◌, length, map, take, drop};
ghost use Rattle.std.specs.Simd.Lanes.{Each1};
ghost use Rattle.sg_aes.specs.Field.{sub_byte};
ghost use Rattle.sg_aes.specs.State.{round, last_round, add_round_key};
ghost use Rattle.sg_aes.specs.KeyExpansion.{sub_word};
ghost use Rattle.sg_aes.specs.Lanes.{
  HasBoth,
  IsPlace,
  IsState,
  key_nibbles,
  last_first,
  last_second,
  look,
  nibbles,
  once,
  substituted,
  twice,
};

use std::simd::prelude::*;

// The nibbles of an octet, i in the high 4 bits and k in the low ones, from its low and its high 4 bits.
const FROM_LOW: [u8; 16] = [
    0x00, 0x01, 0x27, 0x26, 0xc0, 0xc1, 0xe7, 0xe6, 0xc3, 0xc2, 0xe4, 0xe5, 0x03, 0x02, 0x24, 0x25,
];

const FROM_HIGH: [u8; 16] = [
    0x00, 0xaa, 0x7a, 0xd0, 0xaf, 0x05, 0xd5, 0x7f, 0xd8, 0x72, 0xa2, 0x08, 0x77, 0xdd, 0x0d, 0xa7,
];

// The inverse of a nibble, and a fixed nibble over it; 128 stands for 1 over 0.
const INVERSE: [u8; 16] = [
    0x80, 0x01, 0x0c, 0x08, 0x06, 0x0f, 0x04, 0x0e, 0x03, 0x0d, 0x0b, 0x0a, 0x02, 0x09, 0x07, 0x05,
];

const QUOTIENT: [u8; 16] = [
    0x80, 0x03, 0x0d, 0x01, 0x0a, 0x08, 0x0c, 0x0b, 0x05, 0x0e, 0x04, 0x07, 0x06, 0x02, 0x09, 0x0f,
];

// What the two nibbles at the end add to the substituted octet.
const FIRST: [u8; 16] = [
    0x00, 0xfa, 0x35, 0x6a, 0x2b, 0xbb, 0x5f, 0x41, 0x8e, 0xcf, 0xe4, 0x1e, 0x74, 0x90, 0xd1, 0xa5,
];

const SECOND: [u8; 16] = [
    0x00, 0x81, 0x99, 0x76, 0x0a, 0xfd, 0xef, 0x7c, 0x64, 0x18, 0x12, 0x93, 0xe5, 0xf7, 0x8b, 0x6e,
];

// The nibbles of what those two add, and of twice that.
const ONCE_FIRST: [u8; 16] = [
    0x00, 0x43, 0x11, 0x31, 0x9f, 0xed, 0x20, 0xae, 0xfc, 0x52, 0xcd, 0x8e, 0xbf, 0x72, 0xdc, 0x63,
];

const ONCE_SECOND: [u8; 16] = [
    0x00, 0xd9, 0xb0, 0x98, 0xe4, 0xa5, 0x28, 0x7c, 0x15, 0x69, 0x8d, 0x54, 0xcc, 0x41, 0x3d, 0xf1,
];

const TWICE_FIRST: [u8; 16] = [
    0x00, 0x28, 0x31, 0x1d, 0xe2, 0xd7, 0x2c, 0xff, 0xe6, 0x19, 0xfb, 0xd3, 0xce, 0x35, 0xca, 0x04,
];

const TWICE_SECOND: [u8; 16] = [
    0x00, 0x68, 0xb8, 0x0e, 0x6a, 0x0c, 0xb6, 0x64, 0xb4, 0xd0, 0xba, 0xd2, 0xdc, 0x66, 0x02, 0xde,
];

// Two vectors side by side.
#[inline(always)]
fn joined(x: u8x16, y: u8x16) -> u8x32
    ensures { result ≡ x ++ y }
{
    x.shuffle(
        y,
        [
            0, 1, 2, 3, 4, 5, 6, 7, 8, 9, 10, 11, 12, 13, 14, 15, 16, 17, 18, 19, 20, 21, 22, 23,
            24, 25, 26, 27, 28, 29, 30, 31,
        ],
    )
}

/// A vector twice.
#[inline(always)]
pub(crate) fn doubled(x: u8x16) -> u8x32
    ensures value { result ≡ x ++ x }
    ensures sixteen { length x ≡ 16 }
{
    joined(x, x)
}

/// Two blocks side by side.
#[inline(always)]
pub(crate) fn beside(one: &[u8; 16], other: &[u8; 16]) -> u8x32
    ensures first { take 16 result ≡ one.now }
    ensures second { drop 16 result ≡ other.now }
{
    joined(u8x16::from_array(*one), u8x16::from_array(*other))
}

/// The two halves of a vector.
#[inline(always)]
pub(crate) fn halves(n: u8x32) -> ([u8; 16], [u8; 16])
    ensures { (x y : List ℕ) → length x ≡ 16 → length y ≡ 16 → n ≡ x ++ y
        → (result.0 ≡ x) × (result.1 ≡ y) }
{
    let low = n.swizzle([0, 1, 2, 3, 4, 5, 6, 7, 8, 9, 10, 11, 12, 13, 14, 15]);
    let high = n.swizzle([
        16, 17, 18, 19, 20, 21, 22, 23, 24, 25, 26, 27, 28, 29, 30, 31,
    ]);
    (low.to_array(), high.to_array())
}

// Looks each place up in a table of 16 octets; 128 and more give 0. Each half of the vector reads a table
// of its own, which is the same one twice.
#[inline(always)]
fn look(table: [u8; 16], at: u8x32) -> u8x32
    requires { Each1 IsPlace at }
    ensures { result ≡ map (look table) at }
{
    doubled(u8x16::from_array(table)).swizzle_dyn_within::<16>(at)
}

// The nibbles of an octet.
#[inline(always)]
fn nibbles(x: u8x32) -> u8x32
    ensures { result ≡ map nibbles x }
{
    let low = look(FROM_LOW, x & u8x32::splat(15));
    let high = look(FROM_HIGH, x >> u8x32::splat(4));
    low ^ high
}

// The two nibbles whose inverses make the inverse.
#[inline(always)]
fn last_nibbles(n: u8x32) -> (u8x32, u8x32)
    ensures first { result.0 ≡ map last_first n }
    ensures second { result.1 ≡ map last_second n }
{
    let i = n >> u8x32::splat(4);
    let k = n & u8x32::splat(15);
    let j = i ^ k;
    let quotient = look(QUOTIENT, k);
    let over_i = look(INVERSE, i);
    let over_j = look(INVERSE, j);
    let over_p = look(INVERSE, over_i ^ quotient);
    let over_q = look(INVERSE, over_j ^ quotient);
    (over_p ^ j, over_q ^ i)
}

// Each octet substituted, from its nibbles.
#[inline(always)]
fn substituted(n: u8x32) -> u8x32
    ensures { result ≡ map substituted n }
{
    let (s, t) = last_nibbles(n);
    let first = look(FIRST, s);
    let second = look(SECOND, t);
    first ^ second ^ u8x32::splat(0x63)
}

// Of each octet the nibbles of what it is substituted by and of twice that, but for the constants that the
// affine map adds: in a column they come to one constant at each octet, which the round key's nibbles have.
#[inline(always)]
fn next_nibbles(n: u8x32) -> (u8x32, u8x32)
    ensures once { result.0 ≡ map once n }
    ensures twice { result.1 ≡ map twice n }
{
    let (s, t) = last_nibbles(n);
    let first = look(ONCE_FIRST, s);
    let second = look(ONCE_SECOND, t);
    let twice_first = look(TWICE_FIRST, s);
    let twice_second = look(TWICE_SECOND, t);
    (first ^ second, twice_first ^ twice_second)
}

/// The nibbles of a round key, as `round` takes them twice.
pub(crate) fn key_nibbles(key: u8x16) -> [u8; 16]
    ensures { result ≡ map key_nibbles key }
{
    let (kept, _) = halves(nibbles(doubled(key) ^ u8x32::splat(0x63)));
    kept
}

/// One round on the nibbles of two states. In a column a, b, c, d, whose octets stand at four turns of the
/// rows, each new octet is 2 a + 3 b + c + d.
#[inline(always)]
pub(crate) fn round(n: u8x32, key: u8x32) -> u8x32
    ensures { (s t round_key : List ℕ) → HasBoth n s t → IsState round_key
        → key ≡ map key_nibbles round_key ++ map key_nibbles round_key
        → HasBoth result (round s round_key) (round t round_key) }
{
    let (once, twice) = next_nibbles(n);
    let thrice = once ^ twice;
    let a = twice.swizzle([
        0, 5, 10, 15, 4, 9, 14, 3, 8, 13, 2, 7, 12, 1, 6, 11, 16, 21, 26, 31, 20, 25, 30, 19, 24,
        29, 18, 23, 28, 17, 22, 27,
    ]);
    let b = thrice.swizzle([
        5, 10, 15, 0, 9, 14, 3, 4, 13, 2, 7, 8, 1, 6, 11, 12, 21, 26, 31, 16, 25, 30, 19, 20, 29,
        18, 23, 24, 17, 22, 27, 28,
    ]);
    let c = once.swizzle([
        10, 15, 0, 5, 14, 3, 4, 9, 2, 7, 8, 13, 6, 11, 12, 1, 26, 31, 16, 21, 30, 19, 20, 25, 18,
        23, 24, 29, 22, 27, 28, 17,
    ]);
    let d = once.swizzle([
        15, 0, 5, 10, 3, 4, 9, 14, 7, 8, 13, 2, 11, 12, 1, 6, 31, 16, 21, 26, 19, 20, 25, 30, 23,
        24, 29, 18, 27, 28, 17, 22,
    ]);
    ((a ^ b) ^ (c ^ d)) ^ key
}

/// The last round on the nibbles of two states, which makes both encryptions, side by side.
#[inline(always)]
pub(crate) fn last_round(n: u8x32, key: u8x16) -> u8x32
    ensures { (s t : List ℕ) → HasBoth n s t → result ≡ last_round s key ++ last_round t key }
{
    let s = substituted(n);
    let turned = s.swizzle([
        0, 5, 10, 15, 4, 9, 14, 3, 8, 13, 2, 7, 12, 1, 6, 11, 16, 21, 26, 31, 20, 25, 30, 19, 24,
        29, 18, 23, 28, 17, 22, 27,
    ]);
    turned ^ doubled(key)
}

/// The nibbles of two blocks that stand side by side, with the first round key added.
#[inline(always)]
pub(crate) fn keyed(blocks: u8x32, key: u8x16) -> u8x32
    ensures { HasBoth result
        (add_round_key (take 16 blocks) key) (add_round_key (drop 16 blocks) key) }
{
    nibbles(blocks ^ doubled(key))
}

// Each octet substituted.
fn sub_bytes(x: u8x16) -> [u8; 16]
    ensures { result ≡ map sub_byte x }
{
    let (bytes, _) = halves(substituted(nibbles(doubled(x))));
    bytes
}

/// Each octet of a word substituted.
pub(crate) fn sub_word(word: [u8; 4]) -> [u8; 4]
    ensures { result ≡ sub_word word }
{
    let [a, b, c, d] = word;
    let x = u8x16::from_array([a, b, c, d, 0, 0, 0, 0, 0, 0, 0, 0, 0, 0, 0, 0]);
    let s = sub_bytes(x);
    [s[0], s[1], s[2], s[3]]
}
