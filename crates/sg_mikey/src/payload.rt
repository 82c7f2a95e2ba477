//! The payloads of a message.

ghost use Rattle.std.specs.Prelude.{◌≡◌};

use crate::Policy;
use sg_base::Octets;

/// A payload of a message (RFC 3830, 6).
#[derive(Drop)]
pub enum Payload {
    /// T (6.6): 0 for NTP in UTC, 1 for NTP, and the time stamp.
    Time {
        form: u8,
        stamp: [u8; 8],
    },
    /// RAND (6.11).
    Random {
        octets: Octets,
    },
    /// ID (6.7): 0 for a network access identifier, 1 for a URI, and the name.
    Id {
        form: u8,
        name: Octets,
    },
    /// SP (6.10).
    Sp(Policy),
    /// General extension (6.15).
    Extension {
        form: u8,
        octets: Octets,
    },
    /// KEMAC (6.2): the cipher's number, the octets under it, the MAC's number, and the MAC.
    Kemac {
        cipher: u8,
        octets: Octets,
        mac: u8,
        tag: Octets,
    },
    /// V (6.9): the MAC's number, and the MAC.
    Verify {
        mac: u8,
        tag: Octets,
    },
}

impl Payload {
    ghost use Rattle.sg_mikey.specs.Spelling.{payload_number};

    /// The number by which the payload before it names this one (6.1).
    pub fn number(&self) -> u8
        ensures { result ≡ payload_number self.now }
    {
        match self {
            Payload::Kemac { .. } => 1,
            Payload::Time { .. } => 5,
            Payload::Id { .. } => 6,
            Payload::Verify { .. } => 9,
            Payload::Sp(_) => 10,
            Payload::Random { .. } => 11,
            Payload::Extension { .. } => 21,
        }
    }
}
