//! A key of the ring.

ghost use Rattle.std.specs.Prelude.{◌≡◌};
ghost use Rattle.sg_base.specs.Octets.{same_octets};
ghost use Rattle.sg_keys.specs.Indexed.{octets_of};
ghost use Rattle.sg_keys.specs.Reused.{given};
ghost use Rattle.sg_session.specs.Ring.{keys_clash, key_clashes_with_itself, same_secret};

use crate::part::Part;
use sg_base::{CipherKey, MasterKey, SessionKeys};
use std::marker::Model;

/// A master key with the two encryption keys that came beside it.
#[derive(Drop)]
pub struct InstalledKey {
    master: MasterKey,
    rtp: CipherKey,
    rtcp: CipherKey,
}

impl Model for InstalledKey {
    ghost use Rattle.sg_session.specs.Ring.{RingKey};

    ghost Value = { RingKey };

    ghost view = { λ k. record { master = k.master; rtp = k.rtp; rtcp = k.rtcp } };
}

fn are_same(a: &[u8], b: &[u8]) -> bool
    ensures { result ≡ same_octets a.now b.now }
{
    a == b
}

fn same_secret(a: &[u8], b: &[u8]) -> bool
    ensures { result ≡ same_secret a.now b.now }
{
    !a.is_empty() && are_same(a, b)
}

fn clone_of(key: &CipherKey) -> CipherKey
    ensures { result ≡ key.now }
{
    CipherKey::new(key.as_slice())
}

impl InstalledKey {
    /// The master key with the encryption keys of the session keys beside it, whatever these are.
    pub fn new(key: &(MasterKey, SessionKeys)) -> InstalledKey
        ensures { result ≡ given key.now }
    {
        InstalledKey {
            master: key.0.clone(),
            rtp: clone_of(&key.1.rtp.encrypt),
            rtcp: clone_of(&key.1.rtcp.encrypt),
        }
    }

    /// The octets of a part.
    pub fn part(&self, part: Part) -> &[u8]
        ensures { result.now ≡ octets_of part self.now }
    {
        match part {
            Part::Master => self.master.key(),
            Part::Rtp => self.rtp.as_slice(),
            Part::Rtcp => self.rtcp.as_slice(),
        }
    }

    /// Whether a part has these octets.
    pub fn has(&self, part: Part, octets: &[u8]) -> bool
        ensures { result ≡ same_octets (octets_of part self.now) octets.now }
    {
        are_same(self.part(part), octets)
    }

    /// Whether the two clash: their master keys' octets are equal, or an encryption key of the one equals
    /// one of the other (RFC 3711, 9.1). Salts aren't compared.
    pub fn clashes(&self, other: &InstalledKey) -> bool
        ensures { result ≡ keys_clash self.now other.now }
    {
        are_same(self.master.key(), other.master.key())
            || same_secret(self.rtp.as_slice(), other.rtp.as_slice())
            || same_secret(self.rtp.as_slice(), other.rtcp.as_slice())
            || same_secret(self.rtcp.as_slice(), other.rtp.as_slice())
            || same_secret(self.rtcp.as_slice(), other.rtcp.as_slice())
    }

    /// Whether its own two encryption keys are equal.
    pub fn clashes_with_itself(&self) -> bool
        ensures { result ≡ key_clashes_with_itself self.now }
    {
        same_secret(self.rtp.as_slice(), self.rtcp.as_slice())
    }
}
