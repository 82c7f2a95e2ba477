//! The heads of RTP and RTCP packets (RFC 3550, 5.1, 5.3.1 and 6.1).
#![tactic(auto)]

mod heads;
mod laws;

pub use heads::{RtcpHead, RtpHead, read_rtcp, read_rtp};
pub use laws::{rtcp_head_law, rtp_head_law};
