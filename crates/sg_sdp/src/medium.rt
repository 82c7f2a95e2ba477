//! The media of a description.

use sg_base::{Items, Octets};

/// Lines without their ends, seen as their list.
pub type Lines = Items<Octets>;

/// The media of a description, seen as their list.
pub type Media = Items<Medium>;

/// How a medium is transported, by the protocol word of its `m=` line.
#[derive(Clone, Copy, PartialEq, Eq)]
pub enum Profile {
    /// `RTP/AVP` (RFC 3551)
    Avp,
    /// `RTP/SAVP` (RFC 3711, 12)
    Savp,
    /// `RTP/AVPF` (RFC 4585)
    Avpf,
    /// `RTP/SAVPF` (RFC 5124)
    Savpf,
    /// Every other word.
    Other,
}

/// A medium: its `m=` line (RFC 4566, 5.14), taken apart, and the lines behind it.
#[derive(Drop)]
pub struct Medium {
    pub word: Octets,
    pub port: u16,
    pub profile: Profile,
    /// The protocol word.
    pub proto: Octets,
    pub formats: Octets,
    /// That of the medium's first `c=` line, else of the session part's first (RFC 4566, 5.7).
    pub address: Option<[u8; 4]>,
    pub lines: Lines,
}
