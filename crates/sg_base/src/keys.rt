//! Master keys and the session keys that are derived from them (RFC 3711, 3.2.1 and 4.3).

ghost use Rattle.std.specs.Prelude.{◌≡◌, ◌≤◌, ◌+◌, ◌↔◌, ◌++◌, length, take, drop, IsSome, IfSome};
ghost use Rattle.sg_base.specs.Suites.{key_len_of, salt_len_of};
ghost use Rattle.sg_base.specs.Keys.{master_of};

use crate::Suite;
use arrayvec::ArrayVec;
use std::marker::Model;

fn bounded_key(octets: &[u8]) -> ArrayVec<u8, 32>
    requires { length octets.now ≤ 32 }
    ensures { result.items ≡ octets.now }
{
    let mut list = ArrayVec::new();
    let _ = list.try_extend_from_slice(octets);
    list
}

fn bounded_salt(octets: &[u8]) -> ArrayVec<u8, 14>
    requires { length octets.now ≤ 14 }
    ensures { result.items ≡ octets.now }
{
    let mut list = ArrayVec::new();
    let _ = list.try_extend_from_slice(octets);
    list
}

/// A master key with its salt, seen as its suite, key octets and salt octets. The lengths are always
/// those of the suite. It has no `Debug`, so that no text shows a key.
#[derive(Drop)]
pub struct MasterKey {
    suite: Suite,
    key: ArrayVec<u8, 32>,
    salt: ArrayVec<u8, 14>,
}

impl Model for MasterKey {
    ghost use Rattle.std.specs.Prelude.{◌≡◌, length};
    ghost use Rattle.sg_base.specs.Keys.{Master};
    ghost use Rattle.sg_base.specs.Suites.{key_len_of, salt_len_of};

    ghost Value = { Master };

    ghost view = { λ m. record { suite = m.suite; key = m.key.items; salt = m.salt.items } };

    ghost invariant = { λ m. (length m.key.items ≡ key_len_of m.suite) × (length m.salt.items ≡ salt_len_of m.suite) };
}

impl MasterKey {
    /// The key and then the salt; none exactly where the length isn't that of the suite's key and salt.
    pub fn new(suite: Suite, octets: &[u8]) -> Option<MasterKey>
        ensures sized { IsSome result ↔ (length octets.now ≡ key_len_of suite + salt_len_of suite) }
        ensures value { IfSome result (λ m. m ≡ master_of suite octets.now) }
    {
        let count = suite.key_len();
        if octets.len() != count + suite.salt_len() {
            return None;
        }
        Some(MasterKey {
            suite,
            key: bounded_key(&octets[..count]),
            salt: bounded_salt(&octets[count..]),
        })
    }

    /// The crypto suite.
    pub fn suite(&self) -> Suite
        ensures { result ≡ self.now.suite }
    {
        self.suite
    }

    /// The key's octets.
    pub fn key(&self) -> &[u8]
        ensures value { result.now ≡ self.now.key }
        ensures sized { length self.now.key ≡ key_len_of self.now.suite }
        ensures most { length self.now.key ≤ 32 }
    {
        self.key.as_slice()
    }

    /// The salt's octets.
    pub fn salt(&self) -> &[u8]
        ensures value { result.now ≡ self.now.salt }
        ensures sized { length self.now.salt ≡ salt_len_of self.now.suite }
        ensures most { length self.now.salt ≤ 14 }
    {
        self.salt.as_slice()
    }

    /// The same key; it doesn't allocate.
    pub fn clone(&self) -> MasterKey
        ensures { result ≡ self.now }
    {
        MasterKey {
            suite: self.suite,
            key: bounded_key(self.key.as_slice()),
            salt: bounded_salt(self.salt.as_slice()),
        }
    }
}

impl Default for MasterKey {
    /// The blank of a bounded list: a raw key of zeros.
    fn default() -> MasterKey {
        MasterKey {
            suite: Suite::Raw80,
            key: bounded_key(&[0; 20]),
            salt: bounded_salt(&[]),
        }
    }
}

/// The key of a cipher, of at most 32 octets, seen as its octets; of no octets where nothing is
/// encrypted.
#[derive(Drop)]
pub struct CipherKey {
    octets: ArrayVec<u8, 32>,
}

impl Model for CipherKey {
    ghost use Rattle.std.specs.Prelude.{ℕ, List};

    ghost Value = { List ℕ };

    ghost view = { λ k. k.octets.items };
}

impl CipherKey {
    /// The key of these octets.
    pub fn new(octets: &[u8]) -> CipherKey
        requires { length octets.now ≤ 32 }
        ensures { result ≡ octets.now }
    {
        CipherKey {
            octets: bounded_key(octets),
        }
    }

    /// The octets as a slice.
    pub fn as_slice(&self) -> &[u8]
        ensures value { result.now ≡ self.now }
        ensures most { length self.now ≤ 32 }
    {
        self.octets.as_slice()
    }
}

/// The session keys of one kind: the cipher's key, the authentication key and the salt.
#[derive(Drop)]
pub struct HalfKeys {
    pub encrypt: CipherKey,
    pub auth: [u8; 20],
    pub salt: [u8; 14],
}

/// The session keys of both kinds.
#[derive(Drop)]
pub struct SessionKeys {
    pub rtp: HalfKeys,
    pub rtcp: HalfKeys,
}
