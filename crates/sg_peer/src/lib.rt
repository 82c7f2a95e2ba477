//! A peer of the gateway: it seals packets of one source under a key, and opens what comes back under it.
#![tactic(auto)]

mod peer;

pub use peer::{Peer, opening_side, sealing_side};
pub use sg_media::{OpenSide, Opened, SealSide, Sealed};
