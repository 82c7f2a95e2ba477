//! The session keys of a master key (RFC 3711, 4.3; RFC 6188, 2). No call takes memory.
#![tactic(auto)]

mod label;
pub mod laws;

ghost use Rattle.std.specs.Prelude.{◌≡◌, ℕ, ◌≤◌, ◌<◌, length, replicate};
ghost use Rattle.sg_base.specs.Suites.{key_len_of};
ghost use Rattle.sg_kdf.specs.SessionKeys.{derived_half, raw_half, session_keys};

use crate::label::derived;
use sg_aes::Schedule;
use sg_base::{CipherKey, HalfKeys, MasterKey, SessionKeys};

/// The session keys of a master key. Under `Raw80` the key itself is the authentication key, and
/// nothing is encrypted.
pub fn derive(master: &MasterKey) -> SessionKeys
    ensures { result ≡ session_keys master.now }
{
    let key = master.key();
    let salt = master.salt();
    match Schedule::new(key) {
        Some(schedule) => SessionKeys {
            rtp: derived_half(master, &schedule, salt, 0),
            rtcp: derived_half(master, &schedule, salt, 3),
        },
        // A raw key has another length than a cipher's.
        None => SessionKeys {
            rtp: raw_half(key),
            rtcp: raw_half(key),
        },
    }
}

// The keys of one kind, whose labels begin at `first`.
fn derived_half(master: &MasterKey, schedule: &Schedule, salt: &[u8], first: u8) -> HalfKeys
    requires key { schedule.now ≡ master.now.key }
    requires salt { salt.now ≡ master.now.salt }
    requires sized { length salt.now ≡ 14 }
    requires labels { first ≤ 3 }
    ensures { result ≡ derived_half master.now first }
{
    let octets: [u8; 32] = derived(schedule, salt, first);
    HalfKeys {
        encrypt: CipherKey::new(&octets[..master.suite().key_len()]),
        auth: derived(schedule, salt, first + 1),
        salt: derived(schedule, salt, first + 2),
    }
}

fn raw_half(key: &[u8]) -> HalfKeys
    requires { length key.now ≡ 20 }
    ensures { result ≡ raw_half key.now }
{
    let mut auth = [0; 20];
    auth.copy_from_slice(key);
    HalfKeys {
        encrypt: CipherKey::new(&[]),
        auth,
        salt: [0; 14],
    }
}
