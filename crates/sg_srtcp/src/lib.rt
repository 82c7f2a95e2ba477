//! Typed states that open and seal SRTCP packets over one pad (RFC 3711, 3.4): those of `sg_srtp` at RTCP. No call takes
//! memory.
#![tactic(auto)]

pub mod inbound;
pub mod outbound;

pub use sg_srtp::stream::RtcpStream;
pub use sg_states::{BadTag, RtcpNumberFault, Stale};
