//! The encryption of sixteen blocks at a time that differ in the number in their last octet, by planes of bits.

ghost use Rattle.std.specs.Prelude.{◌≡◌, ℕ, List, [], ◌+◌, ◌-◌, ◌%◌, ◌^◌, ◌<◌, bit_xor, map, slice_index, slice_index_or};
ghost use Rattle.std.specs.List.{range_with_len};
ghost use Rattle.sg_aes.specs.Cipher.{rounds};
ghost use Rattle.sg_aes.specs.KeyExpansion.{round_key};
ghost use Rattle.sg_aes.specs.Lanes.{IsState};
ghost use Rattle.sg_aes.specs.Numbered.{numbered};
ghost use Rattle.sg_aes.specs.Planes.{
  AreBits,
  AreKeyPlanes,
  ArePlanesIn,
  HasPlanes,
  IsBit,
  above,
  below,
  number_at,
  octet_at,
};
ghost use Rattle.sg_aes.specs.State.{last_round};

use crate::keys::{Words, round_key};
use crate::planes::{Planes, added, last_round, round};
use crate::vectors::{doubled, halves};
use std::simd::prelude::*;

// The places where an octet has a bit, as 255.
#[inline(always)]
fn plane(x: u8x32, bit: u8) -> u8x32
    ensures { (b : ℕ) → b < 8 → bit ≡ 2 ^ b → IsBit (λ p j. slice_index x p) result b }
{
    let bits = u8x32::splat(bit);
    (x & bits)
        .simd_eq(bits)
        .select(u8x32::splat(255), u8x32::splat(0))
}

// The planes of eight blocks of which each is the first 16 octets, and of eight that are the last 16.
#[inline(always)]
fn planes_of(x: u8x32) -> Planes
    ensures { HasPlanes (λ p j. slice_index x p) result }
{
    Planes {
        p0: plane(x, 1),
        p1: plane(x, 2),
        p2: plane(x, 4),
        p3: plane(x, 8),
        p4: plane(x, 16),
        p5: plane(x, 32),
        p6: plane(x, 64),
        p7: plane(x, 128),
    }
}

// The planes of the numbers 0 to 15, each as the last octet of a block; the higher planes are empty.
const LOW0: [u8; 32] = [
    0, 0, 0, 0, 0, 0, 0, 0, 0, 0, 0, 0, 0, 0, 0, 170, 0, 0, 0, 0, 0, 0, 0, 0, 0, 0, 0, 0, 0, 0, 0,
    170,
];

const LOW1: [u8; 32] = [
    0, 0, 0, 0, 0, 0, 0, 0, 0, 0, 0, 0, 0, 0, 0, 204, 0, 0, 0, 0, 0, 0, 0, 0, 0, 0, 0, 0, 0, 0, 0,
    204,
];

const LOW2: [u8; 32] = [
    0, 0, 0, 0, 0, 0, 0, 0, 0, 0, 0, 0, 0, 0, 0, 240, 0, 0, 0, 0, 0, 0, 0, 0, 0, 0, 0, 0, 0, 0, 0,
    240,
];

const LOW3: [u8; 32] = [
    0, 0, 0, 0, 0, 0, 0, 0, 0, 0, 0, 0, 0, 0, 0, 0, 0, 0, 0, 0, 0, 0, 0, 0, 0, 0, 0, 0, 0, 0, 0,
    255,
];

// The planes of sixteen blocks that are 0 but for a last octet, the block's number.
#[inline(always)]
fn numbers() -> Planes
    ensures { HasPlanes number_at result }
{
    Planes {
        p0: u8x32::from_array(LOW0),
        p1: u8x32::from_array(LOW1),
        p2: u8x32::from_array(LOW2),
        p3: u8x32::from_array(LOW3),
        p4: u8x32::splat(0),
        p5: u8x32::splat(0),
        p6: u8x32::splat(0),
        p7: u8x32::splat(0),
    }
}

// Exchanges each bit of a first octet at an odd place for the bit of a second one that stands one place lower, lane by
// lane.
#[inline(always)]
fn swapped_1(a: u8x32, b: u8x32) -> (u8x32, u8x32)
    ensures exchanged { (f g : ℕ → ℕ → ℕ) → AreBits f a → AreBits g b
        → AreBits (below 1 f g) result.0 × AreBits (above 1 f g) result.1 }
    ensures octets { (p : ℕ) → p < 32
        → (slice_index result.0 p < 256) × (slice_index result.1 p < 256) }
{
    let t = ((a >> u8x32::splat(1)) ^ b) & u8x32::splat(0x55);
    (a ^ (t << u8x32::splat(1)), b ^ t)
}

// The same with pairs of bits and two places.
#[inline(always)]
fn swapped_2(a: u8x32, b: u8x32) -> (u8x32, u8x32)
    ensures exchanged { (f g : ℕ → ℕ → ℕ) → AreBits f a → AreBits g b
        → AreBits (below 2 f g) result.0 × AreBits (above 2 f g) result.1 }
    ensures octets { (p : ℕ) → p < 32
        → (slice_index result.0 p < 256) × (slice_index result.1 p < 256) }
{
    let t = ((a >> u8x32::splat(2)) ^ b) & u8x32::splat(0x33);
    (a ^ (t << u8x32::splat(2)), b ^ t)
}

// The same with four bits and four places.
#[inline(always)]
fn swapped_4(a: u8x32, b: u8x32) -> (u8x32, u8x32)
    ensures exchanged { (f g : ℕ → ℕ → ℕ) → AreBits f a → AreBits g b
        → AreBits (below 4 f g) result.0 × AreBits (above 4 f g) result.1 }
    ensures octets { (p : ℕ) → p < 32
        → (slice_index result.0 p < 256) × (slice_index result.1 p < 256) }
{
    let t = ((a >> u8x32::splat(4)) ^ b) & u8x32::splat(0xf);
    (a ^ (t << u8x32::splat(4)), b ^ t)
}

// The sixteen states of which these are the planes.
#[inline(always)]
fn blocks_of(x: Planes) -> [[u8; 16]; 16]
    ensures { (s : ℕ → List ℕ) → ((n : ℕ) → IsState (s n)) → HasPlanes (octet_at s) x
        → result ≡ map s (range_with_len 0 16) }
{
    let (a0, a1) = swapped_1(x.p0, x.p1);
    let (a2, a3) = swapped_1(x.p2, x.p3);
    let (a4, a5) = swapped_1(x.p4, x.p5);
    let (a6, a7) = swapped_1(x.p6, x.p7);
    let (b0, b2) = swapped_2(a0, a2);
    let (b1, b3) = swapped_2(a1, a3);
    let (b4, b6) = swapped_2(a4, a6);
    let (b5, b7) = swapped_2(a5, a7);
    let (c0, c4) = swapped_4(b0, b4);
    let (c1, c5) = swapped_4(b1, b5);
    let (c2, c6) = swapped_4(b2, b6);
    let (c3, c7) = swapped_4(b3, b7);
    let (e0, e8) = halves(c0);
    let (e1, e9) = halves(c1);
    let (e2, e10) = halves(c2);
    let (e3, e11) = halves(c3);
    let (e4, e12) = halves(c4);
    let (e5, e13) = halves(c5);
    let (e6, e14) = halves(c6);
    let (e7, e15) = halves(c7);
    [
        e0, e1, e2, e3, e4, e5, e6, e7, e8, e9, e10, e11, e12, e13, e14, e15,
    ]
}

// The planes of a round key with a constant, as they are kept.
#[inline(always)]
fn kept_planes(key: u8x16, constant: u8) -> [[u8; 32]; 8]
    ensures { ArePlanesIn (λ p j. bit_xor (slice_index key (p % 16)) constant) result }
{
    let x = planes_of(doubled(key) ^ u8x32::splat(constant));
    [
        x.p0.to_array(),
        x.p1.to_array(),
        x.p2.to_array(),
        x.p3.to_array(),
        x.p4.to_array(),
        x.p5.to_array(),
        x.p6.to_array(),
        x.p7.to_array(),
    ]
}

/// The planes of up to 15 round keys, those behind the first with the constant that the affine map adds.
pub type KeyPlanes = [[[u8; 32]; 8]; 15];

/// Writes the planes of round keys 0 to `last` of the words.
#[inline(never)]
pub(crate) fn write_key_planes(words: &Words, last: usize, kept: &mut KeyPlanes)
    requires { last < 15 }
    ensures { AreKeyPlanes words.now kept.new (last + 1) }
{
    kept[0] = kept_planes(round_key(words, 0), 0);
    'keep: for r in 1..last + 1 {
        kept[r] = kept_planes(round_key(words, r), 0x63);
    }
}

// The planes of round key r.
#[inline(always)]
fn plane_key(kept: &KeyPlanes, r: usize) -> Planes
    requires { r < 15 }
    ensures { (v : ℕ → ℕ → ℕ) → ArePlanesIn v (slice_index_or kept.now r [])
        → HasPlanes v result }
{
    let [p0, p1, p2, p3, p4, p5, p6, p7] = kept[r];
    Planes {
        p0: u8x32::from_array(p0),
        p1: u8x32::from_array(p1),
        p2: u8x32::from_array(p2),
        p3: u8x32::from_array(p3),
        p4: u8x32::from_array(p4),
        p5: u8x32::from_array(p5),
        p6: u8x32::from_array(p6),
        p7: u8x32::from_array(p7),
    }
}

/// The encryptions of sixteen blocks that are a base with the numbers 0 to 15 on its last octet.
#[inline(never)]
pub(crate) fn sixteen(kept: &KeyPlanes, last: usize, base: &[u8; 16]) -> [[u8; 16]; 16]
    requires low { 0 < last }
    requires high { last < 15 }
    ensures { (w : List (List ℕ)) → AreKeyPlanes w kept.now (last + 1)
        → ((r : ℕ) → IsState (round_key w r))
        → result ≡ map
        (λ n. last_round (rounds w (last - 1) (numbered base.now n)) (round_key w last))
        (range_with_len 0 16) }
{
    let plain = planes_of(doubled(u8x16::from_array(*base)));
    let counted = added(plain, numbers());
    let first = plane_key(kept, 0);
    let mut x = added(counted, first);
    'rounds: for r in 1..last {
        let key = plane_key(kept, r);
        x = round(x, key);
    }
    let last_key = plane_key(kept, last);
    blocks_of(last_round(x, last_key))
}
