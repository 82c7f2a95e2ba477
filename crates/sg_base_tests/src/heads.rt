//! Heads of packets (RFC 3550): their numbers and sources.

use sg_base::HeadFault::{Short, Version};
use sg_rtp::{RtcpHead, RtpHead, read_rtcp, read_rtp};

// The head of RFC 3550's layout with version 2, no list, number 1234 hex and SSRC cafebabe hex.
#[test]
fn reads_number_and_source(rt: HostRuntime) {
    let packet = [
        0x80, 0x0f, 0x12, 0x34, 0xde, 0xca, 0xfb, 0xad, 0xca, 0xfe, 0xba, 0xbe,
    ];
    let head = RtpHead {
        length: 12,
        seq: 0x1234,
        ssrc: 0xcafe_babe,
    };
    assert!(rt; read_rtp(&packet) == Ok(head));
    let sender = RtcpHead { ssrc: 0xdeca_fbad };
    assert!(rt; read_rtcp(&packet[..8]) == Ok(sender));
    assert!(rt; read_rtcp(&packet[..7]) == Err(Short));
    assert!(rt; read_rtcp(&packet[4..]) == Err(Version));
}
