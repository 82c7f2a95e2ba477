//! Descriptions: the first fault of a text. What is carried, limits and addresses are in `interop/rows`.

use sg_base::SdpFault::{self, Address, Form, Order, TooManyMedia};
use sg_sdp::{ReadSdpFault, read};
use std::alloc::Global;
use std::process::Abort;

// The fault of a text, and none of a description.
fn fault_of(rt: &impl Abort, alloc: Global, text: &[u8]) -> Option<(u32, SdpFault)> {
    match read(alloc, text) {
        Ok(_) => None,
        Err(ReadSdpFault::Sdp { line, fault }) => Some((line, fault)),
        Err(ReadSdpFault::NoMemory) => {
            assert!(rt; false, "memory");
            None
        }
    }
}

fn have_faults(rt: &impl Abort, alloc: Global, rows: &[(&[u8], Option<(u32, SdpFault)>)]) {
    for (text, fault) in rows {
        assert!(rt; fault_of(rt, alloc, text) == *fault, "{text:?}");
    }
}

// Texts and their first faults.
#[test]
fn tells_the_first_fault(rt: HostRuntime) {
    const ROWS: [(&[u8], Option<(u32, SdpFault)>); 49] = [
        (b"", Some((1, Order))),
        (b"v=0\r\no=x\r\n", Some((3, Order))),
        (b"v=0", Some((1, Form))),
        (b"x\r\n", Some((1, Form))),
        // Line ends, mixed.
        (b"v=0\no=x\r\ns=-\n", None),
        (b"v=0\r\no=x\ns=-\r\n", None),
        (b"v=0\r\no=x\r\ns=-\r", Some((3, Form))),
        (b"v=0\r\r\no=x\r\ns=-\r\n", Some((1, Form))),
        (b"v=0\ro=x\r\ns=-\r\n", Some((1, Form))),
        (b"v=0\no=x\ns=-\n\n", Some((4, Form))),
        (b"v=0\no=x\ns=-\n\r\n", Some((4, Form))),
        // The form of a line.
        (b"v=0\no=x\ns=-\nA=x\n", Some((4, Form))),
        (b"v=0\no=x\ns=-\na:x\n", Some((4, Form))),
        (b"v=0\no=x\ns=-\na\n", Some((4, Form))),
        (b"v=0\no=x\ns=-\na=\n", None),
        (b"v=0\no=x\ns=-\na=\x00\n", Some((4, Form))),
        (b"v=0\no=x\ns=-\na=\x01\xff\n", None),
        // Order.
        (b"v=1\no=x\ns=-\n", Some((1, Order))),
        (b"v=0 \no=x\ns=-\n", Some((1, Order))),
        (b"o=x\nv=0\ns=-\n", Some((1, Order))),
        (b"v=0\ns=-\no=x\n", Some((2, Order))),
        (b"v=0\no=x\nc=IN IP4 1.2.3.4\n", Some((3, Order))),
        (b"v=0\no=x\nc=x\n", Some((3, Order))),
        (b"v=0\nm=audio 9 RTP/AVP 0\ns=-\n", Some((2, Order))),
        (b"v=0\nm=\ns=-\n", Some((2, Form))),
        (b"v=0\no=x\ns=-\nv=1\no=\n", None),
        // An `m=` line.
        (b"v=0\no=x\ns=-\nm=", Some((4, Form))),
        (b"v=0\no=x\ns=-\nm=\n", Some((4, Form))),
        (b"v=0\no=x\ns=-\nm=audio 9 RTP/AVP\n", Some((4, Form))),
        (b"v=0\no=x\ns=-\nm=audio 9 RTP/AVP \n", Some((4, Form))),
        (b"v=0\no=x\ns=-\nm=audio 9 RTP/AVP  \n", None),
        (b"v=0\no=x\ns=-\nm=audio  9 RTP/AVP 0\n", Some((4, Form))),
        (b"v=0\no=x\ns=-\nm=audio 65535 RTP/AVP 0\n", None),
        (b"v=0\no=x\ns=-\nm=audio 65536 RTP/AVP 0\n", Some((4, Form))),
        (b"v=0\no=x\ns=-\nm=audio 09 RTP/AVP 0\n", Some((4, Form))),
        (b"v=0\no=x\ns=-\nm=audio 9/2 RTP/AVP 0\n", Some((4, Form))),
        (b"v=0\no=x\ns=-\nm=aud\xffio 9 RTP/AVP 0\n", Some((4, Form))),
        // A `c=` line, used or not.
        (b"v=0\no=x\ns=-\nc=IN IP4 0.0.0.0\n", None),
        (b"v=0\no=x\ns=-\nc=IN IP4 \n", Some((4, Address))),
        (b"v=0\no=x\ns=-\nc=IN IP4 10.0.0.256\n", Some((4, Address))),
        (b"v=0\no=x\ns=-\nc=IN IP4 10.0.0.01\n", Some((4, Address))),
        (b"v=0\no=x\ns=-\nc=IN IP4 example.org\n", Some((4, Address))),
        (
            b"v=0\no=x\ns=-\nc=IN IP4 10.0.0.1/127\n",
            Some((4, Address)),
        ),
        (b"v=0\no=x\ns=-\nc=IN IP6 ::1\n", Some((4, Address))),
        (b"v=0\no=x\ns=-\nc=IN IP4 1.2.3.4\nc=\n", Some((5, Address))),
        (
            b"v=0\no=x\ns=-\nm=a 0 b c\nc=IN IP4 1.2.3.4\nc=IN IP4 x\n",
            Some((6, Address)),
        ),
        // Media.
        (
            b"v=0\no=x\ns=-\nm=a 0 b c\nm=a 0 b c\nm=a 0 b c\nm=a 0 b c\n",
            None,
        ),
        (
            b"v=0\no=x\ns=-\nm=a 0 b c\nm=a 0 b c\nm=a 0 b c\nm=a 0 b c\nm=a 0 b c\n",
            Some((8, TooManyMedia)),
        ),
        (
            b"v=0\no=x\ns=-\nm=a 0 b c\nm=a 0 b c\nm=a 0 b c\nm=a 0 b c\nm=a 0 b\n",
            Some((8, Form)),
        ),
    ];
    have_faults(&rt, rt.alloc(), &ROWS);
}
