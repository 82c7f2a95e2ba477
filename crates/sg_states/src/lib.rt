//! Typed states that open and seal protected packets of both kinds, RTP and RTCP, over one pad (RFC
//! 3711, 3.3 and 3.4). No call takes memory.
#![tactic(auto)]

mod faults;
mod header;
pub mod inbound;
mod keystream;
pub mod laws;
mod mac;
pub mod outbound;
mod stream;

pub use faults::{BadTag, NumberFault, PlaceFault, RtcpNumberFault, Stale};
pub use header::Header;
pub use stream::Stream;
