//! The ring: no key twice.

use sg_base::{CipherKey, HalfKeys, MasterKey, SessionKeys, Suite};
use sg_kdf::derive;
use sg_keys::{Ring, RingFault};
use std::alloc::Global;
use std::process::Abort;

/// The number of the first key that came into use, or why none did.
type Answer = Result<u32, RingFault>;

/// A master key with its session keys.
fn derived(master: MasterKey) -> (MasterKey, SessionKeys) {
    let keys = derive(&master);
    (master, keys)
}

/// A key of this suite whose key octets and salt octets are these.
fn filled(rt: &impl Abort, suite: Suite, octet: u8, salt: u8) -> (MasterKey, SessionKeys) {
    let mut octets = [octet; 46];
    let count = suite.key_len();
    octets[count..].fill(salt);
    let all = count + suite.salt_len();
    derived(MasterKey::new(suite, &octets[..all]).expect(rt, "length"))
}

/// What is told where a key came into use at this number, or one of this number forbade it.
fn told(answer: Result<u32, u32>) -> Answer {
    match answer {
        Ok(number) => Ok(number),
        Err(number) => Err(RingFault::KeyReused { number }),
    }
}

#[test]
fn a_key_comes_into_use_once(rt: HostRuntime) {
    use Suite::{Cm128Tag80, Raw80};
    let mut ring = Ring::make(rt.alloc());
    // A suite, the octet of the key and that of the salt, and the answer. Another salt makes no other
    // key, and neither does another tag or, at raw keys, the lack of a cipher.
    for (suite, octet, salt, answer) in [
        (Cm128Tag80, 1, 1, Ok(0)),
        (Raw80, 1, 0, Ok(1)),
        (Suite::Cm128Tag32, 1, 5, Err(0)),
        (Raw80, 1, 0, Err(1)),
    ] {
        let keys = [filled(&rt, suite, octet, salt)];
        assert!(rt;
            ring.install_all(&keys) == told(answer),
            "{suite:?} {octet} {salt}"
        );
    }
    assert!(rt; ring.count() == 2);
}

/// Session keys whose encryption key is filled with this octet; none of it at 0.
fn half(octet: u8) -> HalfKeys {
    let count = if octet == 0 { 0 } else { 16 };
    HalfKeys {
        encrypt: CipherKey::new(&[octet; 16][..count]),
        auth: [0; 20],
        salt: [0; 14],
    }
}

/// A master key filled with an octet, beside encryption keys that aren't derived of it.
fn given(rt: &impl Abort, master: u8, rtp: u8, rtcp: u8) -> (MasterKey, SessionKeys) {
    let keys = SessionKeys {
        rtp: half(rtp),
        rtcp: half(rtcp),
    };
    let master = MasterKey::new(Suite::Cm128Tag80, &[master; 30]).expect(rt, "length");
    (master, keys)
}

/// The octets of a master key and of its two encryption keys.
type Octets = (u8, u8, u8);

/// What the ring answers to such keys, all at once.
fn installs_given(rt: &impl Abort, alloc: Global, ring: &mut Ring, rows: &[Octets]) -> Answer {
    let mut keys = Vec::new(alloc);
    for (master, rtp, rtcp) in rows {
        let pushed = keys.push(given(rt, *master, *rtp, *rtcp));
        pushed.expect(rt, "memory");
    }
    assert!(rt; keys.len() <= 65536);
    ring.install_all(&keys)
}

/// Lists of such keys, and the answers.
const GIVEN: [(&[Octets], Result<u32, u32>); 10] = [
    (&[(1, 11, 12), (2, 13, 14), (3, 0, 0)], Ok(0)),
    (&[(9, 21, 21)], Err(3)),
    (&[(9, 12, 21)], Err(0)),
    (&[(9, 21, 13)], Err(1)),
    (&[(9, 14, 14)], Err(1)),
    (&[(1, 14, 21)], Err(0)),
    (&[(9, 0, 0)], Ok(3)),
    (&[(8, 21, 0)], Ok(4)),
    (&[(7, 0, 21)], Err(4)),
    (&[(6, 31, 32), (5, 33, 33), (4, 34, 31)], Err(6)),
];

// Encryption keys are compared as they are given, those of RTP with those of RTCP too (RFC 3711, 9.1). A
// key whose own two are equal gets its own number told, behind whatever else it clashes with.
#[test]
fn compares_the_keys_that_it_is_given(rt: HostRuntime) {
    let mut ring = Ring::make(rt.alloc());
    for (rows, answer) in &GIVEN {
        let given = installs_given(&rt, rt.alloc(), &mut ring, rows);
        assert!(rt; given == told(*answer), "{rows:?}");
    }
}
