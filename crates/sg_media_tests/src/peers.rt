//! Packets of one source under one key, sealed and opened.
//!
//! The datagrams are those of `interop/sessions.py`, a program that has nothing of this project.

use sg_base::{MasterKey, Octets, Pad, Suite, read_octets};
use sg_peer::Peer;
use std::alloc::Global;
use std::process::Abort;

/// The source of all packets.
const SOURCE: u32 = 0xcafebabe;

/// The master key and salt of RFC 3711, B.3.
const SMALL: &str = "e1f97a0d3e018be0d64fa32c06de41390ec675ad498afeebb6960b3aabe6";

const NINTH: &str = "800f0009decafbadcafebabeabababababababababababababababab";

/// A packet and its datagram under a key, where the source's first index is this.
#[derive(Clone, Copy)]
struct Case {
    suite: Suite,
    master: &'static str,
    first: u64,
    packet: &'static str,
    datagram: &'static str,
}

/// The last index of all, and a tag of four octets.
const CASES: [Case; 2] = [
    Case {
        suite: Suite::Cm128Tag80,
        master: SMALL,
        first: 0xffff_ffff_ffff,
        packet: "800fffffdecafbadcafebabeabababababababababababababababab",
        datagram: "800fffffdecafbadcafebabe8600988d69d2456da3f55eaca1a1af4ff3ef51be509e969dd434",
    },
    Case {
        suite: Suite::Cm128Tag32,
        master: SMALL,
        first: 0,
        packet: NINTH,
        datagram: "800f0009decafbadcafebabeb673d8b4e6dac253a6fc3a257f5deae58cfcf2cc",
    },
];

/// The octets of a text of hexadecimal digits.
fn octets_of(rt: &impl Abort, alloc: Global, text: &str) -> Octets {
    let read = read_octets(alloc, text.as_bytes()).expect(rt, "memory");
    read.expect(rt, "hex")
}

/// A pad that holds such octets.
fn pad_of(rt: &impl Abort, alloc: Global, text: &str) -> Pad {
    let octets = octets_of(rt, alloc, text);
    let mut pad = Pad::make(alloc).expect(rt, "memory");
    assert!(rt; pad.fill(octets.as_slice()) == Ok(()));
    pad
}

/// The peer of a case.
fn peer_of(rt: &impl Abort, alloc: Global, case: &Case) -> Peer {
    let octets = octets_of(rt, alloc, case.master);
    let master = MasterKey::new(case.suite, octets.as_slice()).expect(rt, "length");
    assert!(rt; case.first < 1 << 48);
    Peer::make(&master, SOURCE, case.first)
}

/// Seals the packet of a case, which must give its datagram.
fn seals(rt: &impl Abort, alloc: Global, peer: &mut Peer, case: &Case) {
    let pad = pad_of(rt, alloc, case.packet);
    assert!(rt; pad.octets().len() <= 4096);
    let sealed = peer.seal_next(pad).ok().expect(rt, case.packet);
    assert!(rt; (sealed.ssrc, sealed.key) == (SOURCE, 0));
    let datagram = octets_of(rt, alloc, case.datagram);
    assert!(rt; sealed.pad.octets() == datagram.as_slice());
}

/// Opens the datagram of a case, which must give its packet.
fn opens(rt: &impl Abort, alloc: Global, peer: &mut Peer, case: &Case) {
    let pad = pad_of(rt, alloc, case.datagram);
    let opened = peer.check(pad).ok().expect(rt, case.datagram);
    assert!(rt; (opened.ssrc, opened.key) == (SOURCE, 0));
    let packet = octets_of(rt, alloc, case.packet);
    assert!(rt; opened.pad.octets() == packet.as_slice());
}

#[test]
fn packets_of_each_key(rt: HostRuntime) {
    for case in &CASES {
        let mut peer = peer_of(&rt, rt.alloc(), case);
        seals(&rt, rt.alloc(), &mut peer, case);
        opens(&rt, rt.alloc(), &mut peer, case);
    }
}
