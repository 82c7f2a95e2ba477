//! The heads of packets, read.

ghost use Rattle.std.specs.Prelude.{◌≡◌, ◌↔◌, ◌+◌, ◌<◌, ◌≤◌, Ok, IfOk, IfSome, IsNone, IsTrue, length};
ghost use Rattle.sg_rtp.specs.Heads.{rtp_head, rtcp_head, IsRtpHead, IsRtcpHead, listed_of, has_extension, extension_of};

use sg_base::{HeadFault, read_u16, read_u32};

/// What an RTP packet's head says. Its length in octets counts the CSRC list and the extension too.
#[derive(Clone, Copy, PartialEq, Eq)]
pub struct RtpHead {
    pub length: usize,
    pub seq: u16,
    pub ssrc: u32,
}

/// What an RTCP packet's head says: the SSRC of its sender.
#[derive(Clone, Copy, PartialEq, Eq)]
pub struct RtcpHead {
    pub ssrc: u32,
}

/// Reads the head of an RTP packet (RFC 3550, 5.1 and 5.3.1). The padding bit isn't looked at.
///
/// The first fault is told: `Short` below 12 octets, `Version` where it isn't 2, `CsrcCut` where the
/// list passes the end, `ExtensionCut` where the extension does.
#[tactic(auto, using(crate::proofs::Numbers::u16_is, crate::proofs::Numbers::u32_is))]
pub fn read_rtp(octets: &[u8]) -> Result<RtpHead, HeadFault>
    ensures value { result ≡ rtp_head octets.now }
    ensures head { (head : RtpHead) → (result ≡ Ok head) ↔ IsRtpHead octets.now head }
    ensures bounds { IfOk result (λ head. (12 ≤ head.length) × (head.length ≤ length octets.now)) }
{
    if octets.len() < 12 {
        return Err(HeadFault::Short);
    }
    if octets[0] / 64 != 2 {
        return Err(HeadFault::Version);
    }
    let listed = 12 + 4 * usize::from(octets[0] % 16);
    if octets.len() < listed {
        return Err(HeadFault::CsrcCut);
    }
    let length = listed + extension_length(octets, listed).ok_or(HeadFault::ExtensionCut)?;
    if octets.len() < length {
        return Err(HeadFault::ExtensionCut);
    }
    Ok(RtpHead {
        length,
        seq: read_u16(octets, 2),
        ssrc: read_u32(octets, 8),
    })
}

// How many octets the extension has with its own first four; none where these four are cut.
#[tactic(auto, using(crate::proofs::Numbers::u16_is))]
fn extension_length(octets: &[u8], listed: usize) -> Option<usize>
    requires there { 0 < length octets.now }
    requires size { listed ≡ listed_of octets.now }
    requires inside { listed ≤ length octets.now }
    ensures cut { IsNone result ↔ (IsTrue (has_extension octets.now) × (length octets.now < listed + 4)) }
    ensures size { IfSome result (λ n. n ≡ extension_of octets.now) }
{
    if octets[0] / 16 % 2 == 0 {
        return Some(0);
    }
    if octets.len() - listed < 4 {
        return None;
    }
    Some(4 + 4 * usize::from(read_u16(octets, listed + 2)))
}

/// Reads the head of an RTCP packet (RFC 3550, 6.1): `Short` below 8 octets, `Version` where it
/// isn't 2.
#[tactic(auto, using(crate::proofs::Numbers::u32_is))]
pub fn read_rtcp(octets: &[u8]) -> Result<RtcpHead, HeadFault>
    ensures value { result ≡ rtcp_head octets.now }
    ensures head { (head : RtcpHead) → (result ≡ Ok head) ↔ IsRtcpHead octets.now head }
{
    if octets.len() < 8 {
        return Err(HeadFault::Short);
    }
    if octets[0] / 64 != 2 {
        return Err(HeadFault::Version);
    }
    Ok(RtcpHead {
        ssrc: read_u32(octets, 4),
    })
}
