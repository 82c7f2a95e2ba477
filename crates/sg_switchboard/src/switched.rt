//! What becomes of a datagram where calls may be joined.

use sg_base::{Address, DropCause, Pad};

/// What becomes of a datagram.
#[derive(Clone, Copy)]
pub enum SwitchedEnd {
    /// The packet in the pad goes out from this port to this address.
    Out { port: u16, to: Address },
    /// The datagram that came to this port is dropped.
    Dropped { port: u16, cause: DropCause },
    /// It was opened for a joined call, and isn't sealed at this plain port of the other.
    Lost { port: u16, cause: DropCause },
}

/// A datagram that was handled: the pad, with the packet where one goes out, and what becomes of it.
#[derive(Drop)]
pub struct Switched {
    pub pad: Pad,
    pub end: SwitchedEnd,
}
