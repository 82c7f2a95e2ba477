//! The numbers of a demonstration.

/// What was counted in a demonstration.
#[derive(Clone, Copy, PartialEq, Eq)]
pub struct Summary {
    /// Calls that were made.
    pub calls: u64,
    /// Packets that peers sealed.
    pub sealed: u64,
    /// Datagrams that came to secure ports.
    pub arrived: u64,
    /// Of these, how many were put out,
    pub out: u64,
    /// dropped as repeats,
    pub repeat: u64,
    /// dropped because of their tags,
    pub badtag: u64,
    /// and dropped for another cause.
    pub other: u64,
    /// Packets that the gateway sealed.
    pub sent: u64,
    /// Of these, how many the peers opened.
    pub opened: u64,
}
