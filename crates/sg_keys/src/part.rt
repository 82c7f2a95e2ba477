//! The parts of a key by which keys clash.

/// Its octets as a master key, or one of the two encryption keys that are derived of it.
#[derive(Clone, Copy)]
pub enum Part {
    Master,
    Rtp,
    Rtcp,
}
