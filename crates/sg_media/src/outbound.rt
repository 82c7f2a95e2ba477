//! What is handed out of a packet.

use sg_base::{Kind, Pad};

/// A datagram that was sealed: its octets, its kind, its source and index, and the number of its key.
#[derive(Drop)]
pub struct Sealed {
    pub pad: Pad,
    pub kind: Kind,
    pub ssrc: u32,
    pub index: u64,
    pub key: u32,
}
