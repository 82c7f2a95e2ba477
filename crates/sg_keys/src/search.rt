//! The search for a key that is reused.

ghost use Rattle.std.specs.Prelude.{◌≡◌, ◌+◌, ◌<◌, ◌≤◌, ◌^◌, ◌++◌, length, map, IfSome};
ghost use Rattle.sg_keys.specs.Indexed.{AreIndexesOf};
ghost use Rattle.sg_keys.specs.Reused.{given, first_from, reused_number, reused};

use crate::indexes::Indexes;
use crate::installed_key::InstalledKey;
use sg_base::{MasterKey, SessionKeys};

// The first of new keys that this key clashes with, where these are numbered from `start`.
fn first_new(key: &InstalledKey, keys: &[(MasterKey, SessionKeys)], start: usize) -> Option<usize>
    requires { start + length keys.now < 2 ^ 64 }
    ensures first { result ≡ first_from start (map given keys.now) key.now }
    ensures within { IfSome result (λ n. n < start + length keys.now) }
{
    for (i, other) in keys.iter().enumerate() {
        if InstalledKey::new(other).clashes(key) {
            return Some(start + i);
        }
    }
    None
}

// The number told of a key that would stand behind these.
fn reused_number(
    key: &InstalledKey,
    ring: &[InstalledKey],
    indexes: &Indexes,
    before: &[(MasterKey, SessionKeys)],
) -> Option<usize>
    requires indexed { AreIndexesOf indexes.now ring.now }
    requires room { length ring.now + length before.now < 2 ^ 64 }
    ensures number { result ≡ reused_number (ring.now ++ map given before.now) key.now }
    ensures within { IfSome result (λ n. n ≤ length ring.now + length before.now) }
{
    if let Some(number) = indexes.first_clash(key, ring) {
        return Some(number);
    }
    if let Some(number) = first_new(key, before, ring.len()) {
        return Some(number);
    }
    if key.clashes_with_itself() {
        Some(ring.len() + before.len())
    } else {
        None
    }
}

/// The number told of the first of the keys that clashes with one before it or with itself.
pub fn first_reused(
    ring: &[InstalledKey],
    indexes: &Indexes,
    keys: &[(MasterKey, SessionKeys)],
) -> Option<usize>
    requires indexed { AreIndexesOf indexes.now ring.now }
    requires room { length ring.now + length keys.now < 2 ^ 64 }
    ensures reused { result ≡ reused ring.now (map given keys.now) }
    ensures within { IfSome result (λ n. n < length ring.now + length keys.now) }
{
    for i in 0..keys.len() {
        let key = InstalledKey::new(&keys[i]);
        if let Some(number) = reused_number(&key, ring, indexes, &keys[..i]) {
            return Some(number);
        }
    }
    None
}
