//! What becomes of a datagram.

use sg_base::{Address, DropCause, Pad};

/// How a datagram ends.
#[derive(Clone, Copy)]
pub enum End {
    /// A packet is forwarded, from this port to this address.
    Out { port: u16, to: Address },
    /// The datagram is dropped.
    Dropped(DropCause),
}

/// The pad that a datagram came in, and how it ends. The pad has the octets that are forwarded, or
/// those of the datagram that is dropped.
#[derive(Drop)]
pub struct Handled {
    pub pad: Pad,
    pub end: End,
}
