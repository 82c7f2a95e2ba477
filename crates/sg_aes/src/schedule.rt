//! A key with its round keys, and the encryption of blocks under it.

ghost use Rattle.std.specs.Prelude.{◌≡◌, ◌+◌, ◌≤◌, ℕ, List, ◌++◌, length, map, take, drop, IsSome, IfSome, ◌↔◌};
ghost use Rattle.std.specs.List.{range_with_len};
ghost use Rattle.sg_aes.specs.Cipher.{aes_encrypt};
ghost use Rattle.sg_aes.specs.Numbered.{numbered};
ghost use Rattle.sg_aes.specs.Planes.{ArePlanesOf};
ghost use Rattle.sg_aes.specs.Schedule.{key_of, IsKeyLength, IsSchedule};

use crate::keys::{RoundKeys, Words, expand, kept_key, kept_keys, round_key};
use crate::sixteen::{KeyPlanes, sixteen, write_key_planes};
use crate::vectors::{beside, doubled, halves, keyed, last_round, round};
use std::marker::Model;
use std::simd::prelude::*;

// The number of rounds under a key of so many words: 10, 12 or 14.
fn round_count(key_words: usize) -> usize
    requires { key_words ≤ 8 }
    ensures { result ≡ key_words + 6 }
{
    key_words + 6
}

/// A key of 16, 24 or 32 octets with its round keys. Contracts see it as the key's octets.
#[derive(Drop)]
pub struct Schedule {
    words: Words,
    key_words: usize,
    // The nibbles of the round keys between the first and the last.
    kept: RoundKeys,
}

impl Model for Schedule {
    ghost Value = { List ℕ };

    ghost view = { λ s. key_of s.key_words s.words };

    ghost invariant = { λ s. IsSchedule s.key_words s.words s.kept };
}

impl Schedule {
    /// The schedule of a key; `None` where the key doesn't have 16, 24 or 32 octets.
    pub fn new(key: &[u8]) -> Option<Schedule>
        ensures some { IsSome result ↔ IsKeyLength (length key.now) }
        ensures key { IfSome result (λ schedule. schedule ≡ key.now) }
    {
        if key.len() != 16 && key.len() != 24 && key.len() != 32 {
            return None;
        }
        let key_words = key.len() / 4;
        let words = expand(key);
        let kept = kept_keys(&words, round_count(key_words));
        Some(Schedule {
            words,
            key_words,
            kept,
        })
    }

    /// Replaces a block by its encryption (FIPS 197, 5.1).
    pub fn block(&self, part: &mut [u8; 16])
        ensures { part.new ≡ aes_encrypt self.now part.old }
    {
        let mut both = [*part; 2];
        self.two(&mut both);
        *part = both[0];
    }

    /// Replaces each of two blocks by its encryption.
    pub fn two(&self, parts: &mut [[u8; 16]; 2])
        ensures { parts.new ≡ map (aes_encrypt self.now) parts.old }
    {
        let (a, b) = halves(self.pair(beside(&parts[0], &parts[1])));
        *parts = [a, b];
    }

    /// Replaces each of four blocks by its encryption.
    pub fn four(&self, parts: &mut [[u8; 16]; 4])
        ensures { parts.new ≡ map (aes_encrypt self.now) parts.old }
    {
        let one = beside(&parts[0], &parts[1]);
        let other = beside(&parts[2], &parts[3]);
        let (left, right) = self.pairs(one, other);
        let (a, b) = halves(left);
        let (c, d) = halves(right);
        *parts = [a, b, c, d];
    }

    /// The encryptions of two blocks that stand side by side, side by side.
    #[inline(always)]
    pub fn pair(&self, blocks: u8x32) -> u8x32
        ensures { result
            ≡ aes_encrypt self.now (take 16 blocks) ++ aes_encrypt self.now (drop 16 blocks) }
    {
        let last = round_count(self.key_words);
        let mut both = keyed(blocks, round_key(&self.words, 0));
        'rounds: for r in 1..last {
            both = round(both, doubled(kept_key(&self.kept, r)));
        }
        last_round(both, round_key(&self.words, last))
    }

    /// The encryptions of two pairs of blocks, each pair side by side.
    #[inline(always)]
    pub fn pairs(&self, one: u8x32, other: u8x32) -> (u8x32, u8x32)
        ensures one { result.0
            ≡ aes_encrypt self.now (take 16 one) ++ aes_encrypt self.now (drop 16 one) }
        ensures other { result.1
            ≡ aes_encrypt self.now (take 16 other) ++ aes_encrypt self.now (drop 16 other) }
    {
        let last = round_count(self.key_words);
        let first = round_key(&self.words, 0);
        let mut left = keyed(one, first);
        let mut right = keyed(other, first);
        'rounds: for r in 1..last {
            let key = doubled(kept_key(&self.kept, r));
            left = round(left, key);
            right = round(right, key);
        }
        let key = round_key(&self.words, last);
        (last_round(left, key), last_round(right, key))
    }

    /// Writes the planes of the round keys, which `sixteen` takes. They are many, so they are made where they stay.
    #[inline(always)]
    pub fn write_planes(&self, planes: &mut KeyPlanes)
        ensures { ArePlanesOf self.now planes.new }
    {
        write_key_planes(&self.words, round_count(self.key_words), planes);
    }

    /// The encryptions of sixteen blocks (FIPS 197, 5.1), which are a base with the numbers 0 to 15 put onto
    /// its last octet by XOR.
    #[inline(always)]
    pub fn sixteen(&self, planes: &KeyPlanes, base: &[u8; 16]) -> [[u8; 16]; 16]
        requires { ArePlanesOf self.now planes.now }
        ensures { result
            ≡ map (λ n. aes_encrypt self.now (numbered base.now n)) (range_with_len 0 16) }
    {
        sixteen(planes, round_count(self.key_words), base)
    }
}
