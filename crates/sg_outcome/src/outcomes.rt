//! What the gateway tells.

use sg_base::{Address, CallId, DropCause, Octets, Refusal, Side};

/// Why a call has ended.
#[derive(Clone, Copy)]
pub enum Why {
    Bye,
    Rejected,
    Idle,
}

/// What the gateway tells of an event.
#[derive(Drop)]
pub enum Outcome {
    /// A call has a slot and so many media.
    Made {
        call: CallId,
        slot: u8,
        media: u8,
    },
    /// A call has sessions.
    Live {
        call: CallId,
    },
    /// A session description for one side.
    Sdp {
        call: CallId,
        side: Side,
        text: Octets,
    },
    /// A signal is refused.
    Refused {
        call: Option<CallId>,
        cause: Refusal,
    },
    /// A call has ended.
    Ended {
        call: CallId,
        slot: u8,
        media: u8,
        why: Why,
    },
    /// A packet is put out by one of the gateway's ports.
    Out {
        port: u16,
        to: Address,
        octets: Octets,
    },
    /// The datagram that arrived at this port is dropped.
    Dropped {
        port: u16,
        cause: DropCause,
    },
    /// A packet couldn't be sent.
    Unsent {
        port: u16,
        to: Address,
    },
}

/// The blank of a bounded list: an outcome that takes no memory.
impl Default for Outcome {
    fn default() -> Outcome {
        Outcome::Live { call: CallId(0) }
    }
}
