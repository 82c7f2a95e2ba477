//! Typed states that open and seal packets over one pad (RFC 3711, 3.3 and 3.4), those of `sg_states` with the kind fixed by
//! their types. The names here are those of RTP, and those of RTCP stand in `sg_srtcp`. No call takes memory.
#![tactic(auto)]

pub mod inbound;
pub mod kinds;
pub mod outbound;
pub mod stream;

pub use sg_states::{BadTag, NumberFault, PlaceFault};
pub use stream::Stream;
