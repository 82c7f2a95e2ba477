//! Packets and reports over both sides.
//!
//! The datagrams are those of `interop/sessions.py`, a program that has nothing of this project.

ghost use Rattle.std.specs.Prelude.{◌≡◌, ◌<◌, ◌∷◌, [], length, true, IsTrue};
ghost use Rattle.sg_keys.specs.Live.{is_cipher_len};
ghost use Rattle.sg_keys.specs.PreparedKey.{live_of};
ghost use Rattle.sg_media.specs.Ciphers.{may_encrypt};
ghost use Rattle.sg_media.specs.Sides.{CanBeMade, is_tag_len};

use arrayvec::ArrayVec;
use sg_base::{HalfKeys, Kind, MasterKey, Mki, Octets, Pad, SessionKeys, Suite, read_octets};
use sg_kdf::derive;
use sg_keys::{Admit, KeySet, LiveKey, SessionSpec};
use sg_media::{OpenSide, SealSide};
use std::alloc::Global;
use std::process::Abort;

/// The master key and salt of RFC 3711, B.3.
const SMALL: &str = "e1f97a0d3e018be0d64fa32c06de41390ec675ad498afeebb6960b3aabe6";

const MIDDLE: &str = "73edc66c4fa15776fb57f9505c17136550ffda71f3e8e5f1c8522f3acd4ce86d5add78edbb11";

const LARGE: &str =
    "f0f04914b513f2763a1b1fa130f10e2998f6f6e43e4309d1e622a0e332b9f1b63b04803de51ee7c96423ab5b78d2";

/// A session of one key, with the rollover counter that it begins with and what it makes of its first packet.
/// An MKI is a value and its length.
#[derive(Clone, Copy)]
struct Case {
    suite: Suite,
    master: &'static str,
    mki: Option<(u128, u8)>,
    kind: Kind,
    encrypt: bool,
    tag_len: u8,
    roc: u32,
    packet: &'static str,
    datagram: &'static str,
}

const PACKET: &str = "800f1234decafbadcafebabeabababababababababababababababab";

const REPORT: &str = "80c80006cafebabe83d8b6e0cdcdcdcdcdcdcdcdcdcdcdcdcdcdcdcd";

/// Packets and reports with and without an MKI. The E bit of a report that isn't encrypted is 0 (RFC 3711, 3.4).
const OF_ONE_KEY: [Case; 4] = [
    Case {
        suite: Suite::Cm128Tag80,
        master: SMALL,
        mki: None,
        kind: Kind::Rtp,
        encrypt: true,
        tag_len: 10,
        roc: 0,
        packet: PACKET,
        datagram: "800f1234decafbadcafebabe4e55dc4ce79978d88ca4d215949d2402b78d6acc99ea179b8dbb",
    },
    Case {
        suite: Suite::Cm256Tag32,
        master: LARGE,
        mki: Some((0x01_0203_0405, 5)),
        kind: Kind::Rtp,
        encrypt: true,
        tag_len: 4,
        roc: 2,
        packet: "800fffffdecafbadcafebabeabababababababababababababababab",
        datagram: "800fffffdecafbadcafebabe71e14aae33800904620a3fdd51e791470102030405f0c7499d",
    },
    Case {
        suite: Suite::Cm192Tag80,
        master: MIDDLE,
        mki: Some((1, 4)),
        kind: Kind::Rtcp,
        encrypt: true,
        tag_len: 10,
        roc: 0,
        packet: REPORT,
        datagram: "80c80006cafebabeacbe4756d8a7221cc825d9af8fb4f7326ceaa5068000000000000001d3583d14d13c25e588bd",
    },
    Case {
        suite: Suite::Cm128Tag80,
        master: SMALL,
        mki: None,
        kind: Kind::Rtcp,
        encrypt: false,
        tag_len: 10,
        roc: 0,
        packet: REPORT,
        datagram: "80c80006cafebabe83d8b6e0cdcdcdcdcdcdcdcdcdcdcdcdcdcdcdcd00000000d1dd28aee92dd015ba1e",
    },
];

/// The session keys of one kind of a master key in hexadecimal digits.
fn half_of(rt: &impl Abort, alloc: Global, suite: Suite, kind: Kind, text: &str) -> HalfKeys {
    let octets = octets_of(rt, alloc, text);
    let master = MasterKey::new(suite, octets.as_slice()).expect(rt, "length");
    let SessionKeys { rtp, rtcp } = derive(&master);
    match kind {
        Kind::Rtp => rtp,
        Kind::Rtcp => rtcp,
    }
}

/// A key that has served nothing.
fn key(number: u32, mki: Option<Mki>, half: HalfKeys, life: u64) -> LiveKey
    ensures number { result.number ≡ number }
    ensures mki { result.mki ≡ mki }
    ensures half { result.half ≡ half }
    ensures count { result.count ≡ 0 }
{
    LiveKey {
        number,
        mki,
        half,
        life,
        count: 0,
    }
}

/// Whether a tag of the kind may have so many octets.
fn is_tag_len(kind: Kind, tag_len: u8) -> bool
    ensures { result ≡ is_tag_len kind tag_len }
{
    match kind {
        Kind::Rtp => tag_len == 10 || tag_len == 4,
        Kind::Rtcp => tag_len == 10,
    }
}

/// The MKI of a case.
fn mki_of(case: &Case) -> Option<Mki> {
    let (value, length) = case.mki?;
    Mki::new(value, length)
}

/// Whether a case may have these keys: none encrypts where nothing is encrypted.
fn fits(case: &Case, half: &HalfKeys) -> bool
    ensures cipher { IsTrue result → is_cipher_len (length half.now.encrypt) ≡ true }
    ensures some { IsTrue result → may_encrypt case.now.kind case.now.encrypt ≡ true → 0 < length half.now.encrypt }
{
    match half.encrypt.as_slice().len() {
        16 | 24 | 32 => true,
        0 => case.kind == Kind::Rtp && !case.encrypt,
        _ => false,
    }
}

/// The set of one key.
fn set_of(only: LiveKey) -> KeySet
    requires cipher { is_cipher_len (length only.half.encrypt) ≡ true }
    requires count { only.count ≡ 0 }
    ensures { result ≡ live_of only ∷ [] }
{
    let mut keys = ArrayVec::new();
    keys.push(only);
    KeySet::make(keys)
}

/// A session of one key, number 5.
fn of_one(rt: &impl Abort, half: HalfKeys, case: &Case) -> SessionSpec
    ensures { CanBeMade result }
{
    assert!(rt; fits(case, &half));
    assert!(rt; is_tag_len(case.kind, case.tag_len));
    SessionSpec {
        kind: case.kind,
        keys: set_of(key(5, mki_of(case), half, 1 << 31)),
        roc: case.roc,
        window: 1024,
        admit: Admit::Any,
        encrypt: case.encrypt,
        tag_len: case.tag_len,
    }
}

/// The octets of a text of hexadecimal digits.
fn octets_of(rt: &impl Abort, alloc: Global, text: &str) -> Octets {
    let read = read_octets(alloc, text.as_bytes()).expect(rt, "memory");
    read.expect(rt, "hex")
}

/// A pad that holds such octets.
fn pad_of(rt: &impl Abort, alloc: Global, text: &str) -> Pad {
    let octets = octets_of(rt, alloc, text);
    let mut pad = Pad::make(alloc).expect(rt, "memory");
    assert!(rt; pad.fill(octets.as_slice()) == Ok(()));
    pad
}

/// Opens the datagram of a case, which must be its packet.
fn opens(rt: &impl Abort, alloc: Global, side: &mut OpenSide, case: &Case) {
    let pad = pad_of(rt, alloc, case.datagram);
    let opened = side.receive(pad).ok().expect(rt, case.datagram);
    assert!(rt; opened.key == 5);
    let packet = octets_of(rt, alloc, case.packet);
    assert!(rt; opened.pad.octets() == packet.as_slice());
}

/// Seals the packet of a case, which must be its datagram.
fn seals(rt: &impl Abort, alloc: Global, side: &mut SealSide, case: &Case) {
    let pad = pad_of(rt, alloc, case.packet);
    assert!(rt; pad.octets().len() <= 4096);
    let sealed = side.send(pad).ok().expect(rt, case.packet);
    assert!(rt; sealed.key == 5);
    let datagram = octets_of(rt, alloc, case.datagram);
    assert!(rt; sealed.pad.octets() == datagram.as_slice());
}

/// The session of a case.
fn session(rt: &impl Abort, alloc: Global, case: &Case) -> SessionSpec
    ensures { CanBeMade result }
{
    let half = half_of(rt, alloc, case.suite, case.kind, case.master);
    of_one(rt, half, case)
}

#[test]
fn sessions_of_one_key_seal(rt: HostRuntime) {
    for case in &OF_ONE_KEY {
        let mut side = SealSide::make(session(&rt, rt.alloc(), case));
        seals(&rt, rt.alloc(), &mut side, case);
    }
}

#[test]
fn sessions_of_one_key_open(rt: HostRuntime) {
    for case in &OF_ONE_KEY {
        let mut side = OpenSide::make(session(&rt, rt.alloc(), case));
        opens(&rt, rt.alloc(), &mut side, case);
    }
}
