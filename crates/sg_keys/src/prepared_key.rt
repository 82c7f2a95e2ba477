//! A key with what is made of it once: its MKI's octets, its round keys and its hashed pads.

ghost use Rattle.std.specs.Prelude.{◌≡◌, ◌<◌, ◌≤◌, ◌^◌, length, true, option_copied};
ghost use Rattle.sg_hmac.specs.States.{IsMacKey};
ghost use Rattle.sg_keys.specs.Live.{has_mki, is_alive, is_cipher_len, octets_of, schedule_key, served};
ghost use Rattle.sg_keys.specs.PreparedKey.{live_of};

use crate::live_key::{LiveKey, blank};
use arrayvec::ArrayVec;
use sg_aes::Schedule;
use sg_base::Mki;
use sg_hmac::MacKey;
use std::marker::Model;

/// A key with its kept parts, seen as the key as it stands.
#[derive(Drop)]
pub struct PreparedKey {
    key: LiveKey,
    mki: ArrayVec<u8, 128>,
    schedule: Option<Schedule>,
    mac: MacKey,
}

impl Model for PreparedKey {
    ghost use Rattle.sg_keys.specs.Live.{Live};

    ghost Value = { Live };

    ghost use Rattle.sg_keys.specs.PreparedKey.{live_of, AreParts};

    ghost view = { λ k. live_of k.key };

    ghost invariant = { λ k. AreParts k.key k.mki.items k.schedule k.mac };
}

// The octets of an MKI, none where there is none.
fn octets_of(mki: &Option<Mki>) -> ArrayVec<u8, 128>
    ensures value { result.items ≡ octets_of mki.now }
    ensures most { length result.items ≤ 128 }
{
    match mki {
        None => ArrayVec::new(),
        Some(mki) => mki.octets(),
    }
}

impl PreparedKey {
    /// The key with its parts.
    pub fn new(key: LiveKey) -> PreparedKey
        requires { is_cipher_len (length key.half.encrypt) ≡ true }
        ensures { result ≡ live_of key }
    {
        PreparedKey {
            mki: octets_of(&key.mki),
            schedule: Schedule::new(key.half.encrypt.as_slice()),
            mac: MacKey::new(&key.half.auth),
            key,
        }
    }

    /// The key.
    pub fn key(&self) -> &LiveKey
        ensures { live_of result.now ≡ self.now }
    {
        &self.key
    }

    /// Whether this is the key's MKI.
    pub fn has_mki(&self, mki: &[u8]) -> bool
        ensures { result ≡ has_mki mki.now self.now }
    {
        self.mki.as_slice() == mki
    }

    /// The octets of the MKI.
    pub fn mki(&self) -> &[u8]
        ensures value { result.now ≡ self.now.mki }
        ensures most { length self.now.mki ≤ 128 }
    {
        self.mki.as_slice()
    }

    /// The round keys of the encryption key.
    pub fn schedule(&self) -> Option<&Schedule>
        ensures { option_copied result ≡ schedule_key self.now.half.encrypt }
    {
        self.schedule.as_ref()
    }

    /// The authentication key.
    pub fn mac(&self) -> &MacKey
        ensures { IsMacKey self.now.half.auth result.now }
    {
        &self.mac
    }

    /// Whether the key may serve a packet more.
    pub fn is_alive(&self) -> bool
        ensures { result ≡ is_alive self.now }
    {
        self.key.count < self.key.life
    }

    /// Counts a packet more.
    pub fn serve(&mut self)
        requires { self.old.count < self.old.life }
        ensures { self.new ≡ served self.old }
    {
        let life = self.key.life;
        prove!(self.key.count < life);
        self.key.count += 1;
    }
}

/// The blank of a bounded list. It hashes nothing.
impl Default for PreparedKey {
    fn default() -> PreparedKey {
        PreparedKey {
            key: blank(),
            mki: ArrayVec::new(),
            schedule: None,
            mac: MacKey::zeros(),
        }
    }
}
