//! Calls, sides, kinds of packets and addresses.

/// The number that names a call in a script.
#[derive(Clone, Copy, PartialEq, Eq)]
pub struct CallId(pub u32);

/// An IPv4 address and a UDP port.
#[derive(Clone, Copy, PartialEq, Eq)]
pub struct Address {
    pub ip: [u8; 4],
    pub port: u16,
}

/// The two sides of a call: the protected one and the plain one.
#[derive(Clone, Copy)]
pub enum Side {
    Secure,
    Plain,
}

/// The two kinds of packets (RFC 3550): media and control.
#[derive(Clone, Copy, PartialEq, Eq)]
pub enum Kind {
    Rtp,
    Rtcp,
}
