//! Where a datagram comes from.

/// Where a datagram comes from.
#[derive(Clone, Copy, PartialEq, Eq)]
pub enum Origin {
    /// The peer of a call.
    Peer,
    /// The plain side of the call at this position.
    Plain(usize),
}
