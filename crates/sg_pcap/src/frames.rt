//! Ethernet frames, and the UDP datagrams in them.

ghost use Rattle.std.specs.Prelude.{◌≡◌, ◌+◌, ◌≤◌, length};
ghost use Rattle.sg_pcap.specs.Frames.{datagram_in, frame_of, framed, header_length_of, is_fragment, packet_in, sender_of, total_length_of};

use crate::SkipCause;
use crate::numbers::read_u16;
use sg_base::Address;

/// The octets before the IPv4 packet.
const ETHERNET: usize = 14;

/// What a frame is to the gateway.
#[derive(Clone, Copy, PartialEq, Eq)]
pub enum Frame<'a> {
    /// It has no UDP datagram in an IPv4 packet.
    Passed,
    /// Its datagram can't be had.
    Skip(SkipCause),
    /// A datagram that comes to a port.
    Datagram {
        port: u16,
        from: Address,
        octets: &'a [u8],
    },
}

/// Whether the packet is a part of a larger one.
fn is_fragment(frame: &[u8]) -> bool
    requires { 34 ≤ length frame.now }
    ensures { result ≡ is_fragment frame.now }
{
    let flags_and_offset = read_u16(true, frame, 20);
    flags_and_offset / 8_192 % 2 == 1 || flags_and_offset % 8_192 != 0
}

/// The address from which a datagram came whose header begins at `at`.
fn sender(frame: &[u8], at: usize) -> Address
    requires address { 34 ≤ length frame.now }
    requires header { at + 8 ≤ length frame.now }
    ensures { result ≡ sender_of at frame.now }
{
    Address {
        ip: [frame[26], frame[27], frame[28], frame[29]],
        port: read_u16(true, frame, at),
    }
}

/// The datagram whose header begins at `at`, in a payload of so many octets.
fn datagram(frame: &[u8], at: usize, payload: usize) -> Frame<'_>
    requires address { 34 ≤ length frame.now }
    requires inside { at + payload ≤ length frame.now }
    ensures { framed result ≡ datagram_in at payload frame.now }
{
    if payload < 8 {
        return Frame::Skip(SkipCause::Malformed);
    }
    let length = usize::from(read_u16(true, frame, at + 4));
    if length < 8 {
        return Frame::Skip(SkipCause::Malformed);
    }
    if payload < length {
        return Frame::Skip(SkipCause::Malformed);
    }
    Frame::Datagram {
        port: read_u16(true, frame, at + 2),
        from: sender(frame, at),
        octets: &frame[at + 8..][..length - 8],
    }
}

/// What a packet is whose IPv4 header is there.
fn packet(frame: &[u8]) -> Frame<'_>
    requires { 34 ≤ length frame.now }
    ensures { framed result ≡ packet_in frame.now }
{
    let header = usize::from(frame[14] % 16) * 4;
    let total = usize::from(read_u16(true, frame, 16));
    if frame[14] / 16 != 4 {
        return Frame::Skip(SkipCause::Malformed);
    }
    if header < 20 {
        return Frame::Skip(SkipCause::Malformed);
    }
    if total < header {
        return Frame::Skip(SkipCause::Malformed);
    }
    if frame[23] != 17 {
        return Frame::Passed;
    }
    if is_fragment(frame) {
        return Frame::Skip(SkipCause::Fragment);
    }
    if frame.len() < ETHERNET + total {
        return Frame::Skip(SkipCause::CutShort);
    }
    datagram(frame, ETHERNET + header, total - header)
}

/// What a frame is, by the first of these that holds: `Passed` where it isn't one of IPv4; `CutShort` below 34
/// octets; `Malformed` of another version, or of a header or a packet that is too short; `Passed` where it isn't of
/// UDP; `Fragment`; `CutShort` where the packet goes past the captured octets; `Malformed` of a datagram that isn't
/// inside its packet. Checksums and the destination's address aren't looked at.
pub fn read_frame(octets: &[u8]) -> Frame<'_>
    ensures { framed result ≡ frame_of octets.now }
{
    if octets.len() < ETHERNET {
        return Frame::Passed;
    }
    if read_u16(true, octets, 12) != 2_048 {
        return Frame::Passed;
    }
    if octets.len() < 34 {
        return Frame::Skip(SkipCause::CutShort);
    }
    packet(octets)
}
