//! Keys that are spent in turn.

ghost use Rattle.std.specs.Prelude.{◌≡◌, length, true};
ghost use Rattle.sg_keys.specs.Live.{is_cipher_len};

use arrayvec::ArrayVec;
use sg_base::{CipherKey, HalfKeys, Mki};
use sg_keys::{KeySet, LiveKey, OpenKeyFault, Spent};
use std::process::Abort;

/// A key of this number, MKI and life that has served nothing.
fn key(number: u32, mki: Option<Mki>, life: u64) -> LiveKey
    ensures number { result.number ≡ number }
    ensures mki { result.mki ≡ mki }
    ensures cipher { length result.half.encrypt ≡ 16 }
    ensures count { result.count ≡ 0 }
{
    LiveKey {
        number,
        mki,
        half: HalfKeys {
            encrypt: CipherKey::new(&[7; 16]),
            auth: [8; 20],
            salt: [9; 14],
        },
        life,
        count: 0,
    }
}

/// Two keys, numbered 40 and 41, with MKIs of one octet, 1 and 2.
#[tactic(auto, using(sg_keys::proofs::Sets::pair_set))]
fn pair(rt: &impl Abort, life: u64) -> KeySet
    ensures { length result ≡ 2 }
{
    let (first, second) = (Mki::new(1, 1), Mki::new(2, 1));
    assert!(rt; first.is_some() && second.is_some());
    let mut keys = ArrayVec::new();
    keys.push(key(40, first, life));
    keys.push(key(41, second, life));
    KeySet::make(keys)
}

/// A packet more under the key of this position.
fn spend(rt: &impl Abort, set: &mut KeySet, position: usize) {
    assert!(rt; set.can_serve(position));
    set.spend(position);
}

// Two keys of life 2 (RFC 3711, 9.2): the first, the first, the second, the second, and then none.
#[test]
fn lives_end(rt: HostRuntime) {
    let mut set = pair(&rt, 2);
    for position in [0, 0, 1, 1] {
        assert!(rt; set.choose_seal() == Ok(position));
        spend(&rt, &mut set, position);
    }
    let last = Spent {
        number: 41,
        count: 2,
    };
    assert!(rt; set.choose_seal() == Err(last));
    let first = OpenKeyFault::KeySpent {
        number: 40,
        count: 2,
    };
    assert!(rt; set.choose_mki(&[1]) == Err(first));
    assert!(rt; set.choose_mki(&[3]) == Err(OpenKeyFault::MkiUnknown));
}
