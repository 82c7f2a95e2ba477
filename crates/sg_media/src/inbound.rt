//! What is handed out of a datagram.

use sg_base::{Kind, Pad};

/// A packet that was opened: its octets, its kind, its source and index, and the number of its key.
#[derive(Drop)]
pub struct Opened {
    pub pad: Pad,
    pub kind: Kind,
    pub ssrc: u32,
    pub index: u64,
    pub key: u32,
}
