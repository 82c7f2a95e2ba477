//! What a packet's header says.

ghost use Rattle.std.specs.Prelude.{◌≡◌, ◌+◌, ◌-◌, ◌<◌, ◌≤◌, ◌^◌, length, take, drop, false, IfOk};
ghost use Rattle.sg_session.specs.Opening.{of_rtp, of_rtcp};
ghost use Rattle.sg_rtp.specs.Heads.{rtp_head, rtcp_head};
ghost use Rattle.sg_states.specs.Parts.{heading, heading_out, IsWhole};
ghost use Rattle.sg_states.specs.Headers.{IsReadAs, head_of};

use sg_base::{HeadFault, Kind, read_u32};
use sg_rtp::{read_rtcp, read_rtp};

/// What a packet's header says: how many octets it has, its source, and its number, which of RTCP is the index
/// that the datagram carries. Whether the packet is encrypted, RTCP says itself; of RTP the session does.
#[derive(Clone, Copy)]
pub struct Header {
    pub size: usize,
    pub ssrc: u32,
    pub number: u32,
    pub encrypted: bool,
}

// The header of an RTP packet, of which the rest is encrypted or not.
#[inline(always)]
fn rtp_head(packet: &[u8], encrypted: bool) -> Result<Header, HeadFault>
    ensures head { IsReadAs result (of_rtp encrypted (rtp_head packet.now)) }
    ensures number { IfOk result (λ h. h.number < 65536) }
    ensures size { IfOk result (λ h. h.size ≤ length packet.now) }
{
    match read_rtp(packet) {
        Ok(head) => Ok(Header {
            size: head.length,
            ssrc: head.ssrc,
            number: u32::from(head.seq),
            encrypted,
        }),
        Err(fault) => Err(fault),
    }
}

// The header of an RTCP packet with this index, of which the rest is encrypted or not.
#[inline(always)]
fn rtcp_head(packet: &[u8], number: u32, encrypted: bool) -> Result<Header, HeadFault>
    ensures head { IsReadAs result (of_rtcp number encrypted (rtcp_head packet.now)) }
    ensures number { IfOk result (λ h. h.number ≡ number) }
    ensures size { IfOk result (λ h. h.size ≤ length packet.now) }
{
    match read_rtcp(packet) {
        Ok(head) => Ok(Header {
            size: 8,
            ssrc: head.ssrc,
            number,
            encrypted,
        }),
        Err(fault) => Err(fault),
    }
}

/// The header of a datagram that ends in an MKI and a tag of these lengths, in octets, or its first fault: of
/// Short, Version, CsrcCut and ExtensionCut. RTP is encrypted where `encrypts` says so, RTCP as the datagram
/// itself says (RFC 3711, 3.4).
#[inline(always)]
pub(crate) fn head_in(
    kind: Kind,
    encrypts: bool,
    mki_len: usize,
    tag_len: usize,
    octets: &[u8],
) -> Result<Header, HeadFault>
    requires mki { mki_len ≤ 128 }
    requires tag { tag_len ≤ 20 }
    ensures head { IsReadAs result (heading kind encrypts mki_len tag_len octets.now) }
    ensures whole { IfOk result (λ h. IsWhole kind mki_len tag_len octets.now (head_of h)) }
{
    let end = mki_len + tag_len;
    if octets.len() < 12 + end {
        return Err(HeadFault::Short);
    }
    let prefix = &octets[..octets.len() - end];
    match kind {
        Kind::Rtp => match rtp_head(prefix, encrypts) {
            Ok(head) => Ok(head),
            Err(fault) => Err(fault),
        },
        Kind::Rtcp => {
            let packet = &octets[..octets.len() - (end + 4)];
            let word = read_u32(prefix, prefix.len() - 4);
            match rtcp_head(packet, word % INDICES, word >= INDICES) {
                Ok(head) => Ok(head),
                Err(fault) => Err(fault),
            }
        }
    }
}

/// How many indices an RTCP stream has, and the number of the E bit in a datagram's index word.
const INDICES: u32 = 2147483648;

/// The header of a plain packet, which is to be encrypted or not.
#[inline(always)]
pub(crate) fn head_out(kind: Kind, encrypts: bool, packet: &[u8]) -> Result<Header, HeadFault>
    ensures head { IsReadAs result (heading_out kind encrypts packet.now) }
    ensures whole { IfOk result (λ h. h.size ≤ length packet.now) }
    ensures number { IfOk result (λ h. h.number < 65536) }
{
    match kind {
        Kind::Rtp => rtp_head(packet, encrypts),
        Kind::Rtcp => match rtcp_head(packet, 0, encrypts) {
            Ok(head) => Ok(head),
            Err(fault) => Err(fault),
        },
    }
}
