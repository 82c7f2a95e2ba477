//! Messages, read and printed.

use sg_base::MikeyFault::{self, Cut, DataType, Order, Trailing, Value, Version};
use sg_base::Octets;
use sg_mikey::{ReadMikeyFault, print, read};
use std::alloc::Global;
use std::process::Abort;

// A message of the initiator: T, RAND of 2 octets, an ID, a general extension, SP with two items, KEMAC with a MAC.
const INITIAL: &[u8] = b"\x01\x00\x05\x80\xca\xfe\xba\xbe\x01\x00\
\x00\xde\xca\xfb\xad\x00\x00\x00\x07\
\x0b\x00\x83\xaa\x7e\x80\x00\x00\x00\x00\
\x06\x02\x55\xaa\
\x15\x01\x00\x03bob\
\x0a\x09\x00\x01\x2a\
\x01\x00\x00\x00\x06\x00\x01\x01\x0b\x01\x0a\
\x00\x01\x00\x02\x11\x22\x01AAAAAAAAAAAAAAAAAAAA";

// A message of the responder: T, and V without a MAC.
const RESPONSE: &[u8] = b"\x01\x01\x05\x00\xca\xfe\xba\xbe\x00\x00\
\x09\x00\x83\xaa\x7e\x80\x80\x00\x00\x00\
\x00\x00";

fn fault_of(alloc: Global, octets: &[u8]) -> Option<(u32, MikeyFault)> {
    if octets.len() > 1000000 {
        return None;
    }
    match read(alloc, octets) {
        Err(ReadMikeyFault::Mikey { offset, fault }) => Some((offset, fault)),
        _ => None,
    }
}

fn have_faults(rt: &impl Abort, alloc: Global, cases: &[(&[u8], u32, MikeyFault)]) {
    for (octets, offset, fault) in cases {
        assert!(rt;
            fault_of(alloc, octets) == Some((*offset, *fault)),
            "{octets:?}"
        );
    }
}

// Octets, and the first fault with its offset.
#[test]
fn tells_the_first_fault(rt: HostRuntime) {
    const CASES: [(&[u8], u32, MikeyFault); 24] = [
        (b"", 0, Cut),
        (b"\x01\x00\x05\x80\x00\x00\x00\x07\x02", 9, Cut),
        (
            b"\x01\x00\x05\x80\x00\x00\x00\x07\x02\x00\x00\xca\xfe\xba\xbe\x00\x00\x00\x00\x00\x00\x00\x00\x00\x00\x00\x00\x00",
            28,
            Cut,
        ),
        (b"\x02\x00\x05\x80\x00\x00\x00\x07\x02", 0, Version),
        (b"\x01\x06\x05\x00\xca\xfe\xba\xbe\x00\x00", 1, DataType),
        (
            b"\x01\x00\x63\x00\xca\xfe\xba\xbe\x00\x00",
            2,
            MikeyFault::Payload,
        ),
        (
            b"\x01\x00\x14\x00\xca\xfe\xba\xbe\x00\x00",
            2,
            MikeyFault::Payload,
        ),
        (b"\x01\x00\x05\x01\xca\xfe\xba\xbe\x00\x00", 3, Value),
        (b"\x01\x00\x00\x00\xca\xfe\xba\xbe\x00", 9, Cut),
        (b"\x01\x00\x05\x00\xca\xfe\xba\xbe\x00\x01", 9, Value),
        (b"\x01\x00\x05\x00\xca\xfe\xba\xbe\xff\x00", 10, Cut),
        (
            b"\x01\x00\x06\x00\xca\xfe\xba\xbe\x00\x00\x00\x01\x00\x04ABCD",
            10,
            Order,
        ),
        (b"\x01\x00\x06\x00\xca\xfe\xba\xbe\x00\x00", 10, Order),
        (
            b"\x01\x00\x05\x00\xca\xfe\xba\xbe\x00\x00\x63\x00ABCDEFGH",
            10,
            MikeyFault::Payload,
        ),
        (
            b"\x01\x00\x05\x00\xca\xfe\xba\xbe\x00\x00\x00\x00ABCDEFGH",
            20,
            Order,
        ),
        (
            b"\x01\x00\x05\x00\xca\xfe\xba\xbe\x00\x00\x0b\x02ABCDEFGH",
            11,
            Value,
        ),
        (
            b"\x01\x00\x05\x00\xca\xfe\xba\xbe\x00\x00\x0b\x00ABCDEFGH\x0a\x00\x01\x00\x00\x00\x04\x00\x03",
            28,
            Value,
        ),
        (
            b"\x01\x00\x05\x00\xca\xfe\xba\xbe\x00\x00\x0b\x00ABCDEFGH\x0a\x00\x01\x00\x00\x00\x03\x00\x00\x07",
            29,
            Value,
        ),
        (
            b"\x01\x00\x05\x00\xca\xfe\xba\xbe\x00\x00\x0b\x00ABCDEFGH\x0a\x00\x01\x00\x00\x00\x04\x00\x02\x07",
            30,
            Cut,
        ),
        (
            b"\x01\x00\x05\x00\xca\xfe\xba\xbe\x00\x00\x0b\x00ABCDEFGH\x0a\x00\x01\x00\x01",
            24,
            Value,
        ),
        (
            b"\x01\x00\x05\x00\xca\xfe\xba\xbe\x00\x00\x0b\x00ABCDEFGH\x01\x00\x00\x03",
            23,
            Value,
        ),
        (
            b"\x01\x01\x05\x00\xca\xfe\xba\xbe\x00\x00\x09\x00ABCDEFGH\x00\x02",
            21,
            Value,
        ),
        (
            b"\x01\x01\x05\x00\xca\xfe\xba\xbe\x00\x00\x09\x00ABCDEFGH\x06\x00",
            22,
            Order,
        ),
        (
            b"\x01\x01\x05\x00\xca\xfe\xba\xbe\x00\x00\x09\x00ABCDEFGH\x00\x00\x00",
            22,
            Trailing,
        ),
    ];
    have_faults(&rt, rt.alloc(), &CASES);
}

fn printed_again(rt: &impl Abort, alloc: Global, octets: &[u8]) -> Octets {
    assert!(rt; octets.len() <= 1000000);
    let message = read(alloc, octets).ok().expect(rt, "a message");
    print(alloc, &message).ok().expect(rt, "printed")
}

#[test]
fn prints_what_it_reads(rt: HostRuntime) {
    for octets in [INITIAL, RESPONSE, OFFER, ANSWER] {
        let printed = printed_again(&rt, rt.alloc(), octets);
        assert!(rt; printed.as_slice() == octets);
    }
}

// What an initiator of this profile sends, by the layouts of RFC 3830, 6: two crypto sessions, T, RAND of 16 octets,
// the IDs of both, the 13 items of SP, and KEMAC with its MAC of 20 octets; it asks for an answer.
const OFFER: &[u8] = b"\x01\x00\x05\x80\xca\xfe\xba\xbe\x02\x00\
\x00\xde\xca\xfb\xad\x00\x00\x00\x00\x00\x00\x00\x00\x00\x00\x00\x00\x00\
\x0b\x00\x83\xaa\x7e\x80\x00\x00\x00\x00\
\x06\x10RRRRRRRRRRRRRRRR\
\x06\x01\x00\x08sip:gw@a\
\x0a\x01\x00\x09sip:bob@b\
\x01\x00\x00\x00\x27\x00\x01\x01\x01\x01\x10\x02\x01\x01\x03\x01\x14\x04\x01\x0e\x05\x01\x00\x06\x01\x00\
\x07\x01\x01\x08\x01\x01\x09\x01\x00\x0a\x01\x01\x0b\x01\x0a\x0c\x01\x00\
\x00\x01\x00\x04KKKK\x01MMMMMMMMMMMMMMMMMMMM";

// What its responder sends: the initiator's stamp, the responder's ID, and V with its MAC.
const ANSWER: &[u8] = b"\x01\x01\x05\x00\xca\xfe\xba\xbe\x02\x00\
\x00\xde\xca\xfb\xad\x00\x00\x00\x00\x00\x01\x02\x03\x04\x00\x00\x00\x00\
\x06\x00\x83\xaa\x7e\x80\x80\x00\x00\x00\
\x09\x01\x00\x09sip:bob@b\
\x00\x01MMMMMMMMMMMMMMMMMMMM";
