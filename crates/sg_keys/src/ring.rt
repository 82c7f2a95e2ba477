//! The ring of all keys that came into use.

ghost use Rattle.std.specs.Prelude.{◌≡◌, ◌+◌, ◌<◌, ◌≤◌, List, [], ◌++◌, length, map, IfOk, OnOk, OnErr};
ghost use Rattle.sg_session.specs.Ring.{Installed, RingKey, install, install_keys};
ghost use Rattle.sg_keys.specs.Reused.{given, reused};
ghost use Rattle.sg_keys.specs.Installing.{keys_of, IsToldOf};

use crate::indexes::Indexes;
use crate::installed_key::InstalledKey;
use crate::search::first_reused;
use sg_base::{MasterKey, NoMemory, RING_KEYS_MOST, SessionKeys};
use std::alloc::Global;
use std::marker::Model;

/// Why keys aren't installed.
#[derive(Clone, Copy, PartialEq, Eq)]
pub enum RingFault {
    /// A key clashes with the key of this number.
    KeyReused { number: u32 },
    RingFull,
    NoMemory,
}

/// All keys that came into use, each at its number, seen as master keys, each with the
/// two encryption keys that came beside it.
#[derive(Drop)]
pub struct Ring {
    keys: Vec<InstalledKey>,
    indexes: Indexes,
}

impl Model for Ring {
    ghost use Rattle.std.specs.Prelude.{List, ◌≤◌, vec_len};
    ghost use Rattle.sg_session.specs.Ring.{RingKey};
    ghost use Rattle.sg_keys.specs.Indexed.{AreIndexesOf};

    ghost Value = { List RingKey };

    ghost view = { λ r. r.keys.items };

    ghost invariant = { λ r. (vec_len r.keys ≤ 65536) × AreIndexesOf r.indexes r.keys.items };
}

// Puts keys behind the others, all or none.
fn push_all(list: &mut Vec<InstalledKey>, keys: &[(MasterKey, SessionKeys)]) -> Result<(), NoMemory>
    ensures ok { OnOk result (list.new.items ≡ list.old.items ++ map given keys.now) }
    ensures err { OnErr result (list.new.items ≡ list.old.items) }
{
    let count = list.len();
    for key in keys {
        if list.push(InstalledKey::new(key)).is_err() {
            list.truncate(count);
            return Err(NoMemory);
        }
    }
    Ok(())
}

impl Ring {
    /// A ring without a key.
    pub fn make(alloc: Global) -> Ring
        ensures { result ≡ [] }
    {
        Ring {
            keys: Vec::new(alloc),
            indexes: Indexes::make(alloc),
        }
    }

    /// How many keys it holds, which is the number that the next one gets.
    pub fn count(&self) -> u32
        ensures same { result ≡ length self.now }
        ensures most { result ≤ 65536 }
    {
        self.keys.len() as u32
    }

    /// Installs keys, each with the session keys beside it, all or none, and tells the number of the first.
    /// Master keys' octets and the encryption keys that are given are compared: `KeyReused` where one
    /// clashes with a key before it or with itself, with the least number of such a key; `RingFull` where
    /// none does and there would be more than 65,536. `NoMemory` comes only where neither holds.
    pub fn install_all(&mut self, keys: &[(MasterKey, SessionKeys)]) -> Result<u32, RingFault>
        requires { length keys.now ≤ 65536 }
        ensures first { IfOk result (λ first. first ≡ length self.old) }
        ensures ok { OnOk result (self.new ≡ self.old ++ map given keys.now) }
        ensures err { OnErr result (self.new ≡ self.old) }
        ensures answer { IsToldOf self.old (map given keys.now) result (install_keys self.old (map given keys.now)) }
        ensures installs { (ring new : List Installed) → keys_of ring ≡ self.old → keys_of new ≡ map given keys.now
            → IsToldOf ring new result (install ring new) }
    {
        let first = self.keys.len();
        if let Some(number) = first_reused(&self.keys, &self.indexes, keys) {
            return Err(RingFault::KeyReused {
                number: number as u32,
            });
        }
        if first + keys.len() > RING_KEYS_MOST {
            return Err(RingFault::RingFull);
        }
        match push_all(&mut self.keys, keys) {
            Ok(()) => {
                self.indexes.extend(&self.keys);
                Ok(first as u32)
            }
            Err(NoMemory) => Err(RingFault::NoMemory),
        }
    }
}
