//! The keys of a session, each with its prepared parts.

ghost use Rattle.std.specs.Prelude.{◌≡◌, ◌<◌, ◌≤◌, length, map, slice_get, find, MatchOption, MatchResult, IfSome, IsTrue, ◌↔◌, Some, None, Ok, Err, [], option_copied};
ghost use Rattle.sg_hmac.specs.States.{IsMacKey};
ghost use Rattle.sg_keys.specs.Live.{Live, has_mki, is_alive, mki_len, schedule_key, spent};
ghost use Rattle.sg_keys.specs.PreparedKey.{live_of};
ghost use Rattle.sg_keys.specs.KeySet.{IsKeySet, IsAt, IsSpent, TellsSpent, chosen, chosen_seal};

use crate::live_key::LiveKey;
use crate::prepared_key::PreparedKey;
use arrayvec::ArrayVec;
use sg_aes::Schedule;
use sg_hmac::MacKey;
use std::marker::Model;

/// Why no key opens a datagram.
#[derive(Clone, Copy, PartialEq, Eq)]
pub enum OpenKeyFault {
    MkiUnknown,
    KeySpent { number: u32, count: u64 },
}

/// The last key of a session whose keys are all spent.
#[derive(Clone, Copy, PartialEq, Eq)]
pub struct Spent {
    pub number: u32,
    pub count: u64,
}

/// The keys of a session, one to eight, seen as the keys as they stand. Round keys and hashed pads are
/// made once for each key.
#[derive(Drop)]
pub struct KeySet {
    keys: ArrayVec<PreparedKey, 8>,
}

impl Model for KeySet {
    ghost use Rattle.std.specs.Prelude.{List};
    ghost use Rattle.sg_keys.specs.Live.{Live};

    ghost Value = { List Live };

    ghost use Rattle.sg_keys.specs.KeySet.{IsKeySet};

    ghost view = { λ s. s.keys.items };

    ghost invariant = { λ s. IsKeySet s.keys.items };
}

// The position of the first key with this MKI.
fn find_mki(keys: &[PreparedKey], mki: &[u8]) -> Option<usize>
    ensures { MatchOption result (find (has_mki mki.now) keys.now ≡ None) (IsAt (find (has_mki mki.now) keys.now) keys.now) }
{
    for (position, key) in keys.iter().enumerate() {
        if key.has_mki(mki) {
            return Some(position);
        }
    }
    None
}

// The position of the first key that is alive.
fn find_alive(keys: &[PreparedKey]) -> Option<usize>
    ensures { MatchOption result (find is_alive keys.now ≡ None) (IsAt (find is_alive keys.now) keys.now) }
{
    for (position, key) in keys.iter().enumerate() {
        if key.is_alive() {
            return Some(position);
        }
    }
    None
}

// Counts a packet more under the key at a position.
fn serve_at(keys: &mut [PreparedKey], position: usize)
    requires set { IsKeySet keys.old }
    requires alive { (k : Live) × (slice_get keys.old position ≡ Some k) × (k.count < k.life) }
    ensures set { IsKeySet keys.new }
    ensures spent { (k : Live) → slice_get keys.old position ≡ Some k → keys.new ≡ spent k.number keys.old }
{
    keys[position].serve();
}

impl KeySet {
    /// The set of these keys, in their order: one without an MKI, or one to eight with MKIs of one length
    /// that differ. Their numbers differ, no count is above its life, and each encryption key has 16, 24 or
    /// 32 octets or none. The set keeps all of this.
    pub fn make(keys: ArrayVec<LiveKey, 8>) -> KeySet
        requires { IsKeySet (map live_of keys.items) }
        ensures { result ≡ map live_of keys.items }
    {
        prove!(keys.len() <= 8);
        let mut prepared = ArrayVec::new();
        for key in keys {
            prepared.push(PreparedKey::new(key));
        }
        KeySet { keys: prepared }
    }

    /// How many keys there are, one to eight.
    pub fn count(&self) -> usize
        ensures same { result ≡ length self.now }
        ensures some { 0 < length self.now }
        ensures most { result ≤ 8 }
    {
        self.keys.len()
    }

    /// The octets of the first key's MKI, 0 where it has none.
    pub fn mki_len(&self) -> usize
        ensures value { result ≡ mki_len self.now }
        ensures most { result ≤ 128 }
    {
        self.keys.as_slice()[0].mki().len()
    }

    /// The key at a position.
    pub fn key(&self, position: usize) -> &LiveKey
        requires { position < length self.now }
        ensures { slice_get self.now position ≡ Some (live_of result.now) }
    {
        self.keys.as_slice()[position].key()
    }

    /// The octets of the MKI of the key at a position.
    pub fn mki(&self, position: usize) -> &[u8]
        requires { position < length self.now }
        ensures value { IfSome (slice_get self.now position) (λ k. result.now ≡ k.mki) }
        ensures most { length result.now ≤ 128 }
    {
        self.keys.as_slice()[position].mki()
    }

    /// The round keys of the key at a position; none exactly where its encryption key has no octets.
    pub fn schedule(&self, position: usize) -> Option<&Schedule>
        requires { position < length self.now }
        ensures { IfSome (slice_get self.now position) (λ k. option_copied result ≡ schedule_key k.half.encrypt) }
    {
        self.keys.as_slice()[position].schedule()
    }

    /// The authentication key of the key at a position.
    pub fn mac(&self, position: usize) -> &MacKey
        requires { position < length self.now }
        ensures { IfSome (slice_get self.now position) (λ k. IsMacKey k.half.auth result.now) }
    {
        self.keys.as_slice()[position].mac()
    }

    /// The position of the key with this MKI, where it may serve a packet more (RFC 3711, 9.2). Of a spent
    /// key the number is told, and the count, which equals its life.
    pub fn choose_mki(&self, mki: &[u8]) -> Result<usize, OpenKeyFault>
        ensures chosen { MatchResult result
            (λ position. (k : Live) × (slice_get self.now position ≡ Some k) × (chosen self.now mki.now ≡ Ok k))
            (λ fault. chosen self.now mki.now ≡ Err fault) }
        ensures spent { MatchResult result (λ _. Unit {0}) (TellsSpent self.now) }
    {
        let Some(position) = find_mki(self.keys.as_slice(), mki) else {
            return Err(OpenKeyFault::MkiUnknown);
        };
        let key = &self.keys.as_slice()[position];
        if key.is_alive() {
            return Ok(position);
        }
        let key = key.key();
        Err(OpenKeyFault::KeySpent {
            number: key.number,
            count: key.count,
        })
    }

    /// The position of the first key that may serve a packet more. Where none may, the last key's number is
    /// told, and its count, which equals its life.
    pub fn choose_seal(&self) -> Result<usize, Spent>
        ensures chosen { MatchResult result
            (λ position. (k : Live) × (slice_get self.now position ≡ Some k) × (chosen_seal self.now ≡ Ok k))
            (λ spent. chosen_seal self.now ≡ Err spent) }
        ensures spent { MatchResult result (λ _. Unit {0}) (λ last. IsSpent self.now last.number last.count) }
    {
        match find_alive(self.keys.as_slice()) {
            Some(position) => Ok(position),
            None => {
                let last = self.key(self.count() - 1);
                Err(Spent {
                    number: last.number,
                    count: last.count,
                })
            }
        }
    }

    /// Whether a key stands at the position that may serve a packet more.
    pub fn can_serve(&self, position: usize) -> bool
        ensures { IsTrue result ↔ ((k : Live) × (slice_get self.now position ≡ Some k) × (k.count < k.life)) }
    {
        match self.keys.as_slice().get(position) {
            None => false,
            Some(key) => key.is_alive(),
        }
    }

    /// Counts a packet more under the key at a position, which may serve it.
    pub fn spend(&mut self, position: usize)
        requires { (k : Live) × (slice_get self.old position ≡ Some k) × (k.count < k.life) }
        ensures { (k : Live) → slice_get self.old position ≡ Some k → self.new ≡ spent k.number self.old }
    {
        serve_at(self.keys.as_mut_slice(), position);
    }
}
