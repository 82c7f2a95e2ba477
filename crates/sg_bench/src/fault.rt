//! Why a run ends early.

use sg_base::{DropCause, NoMemory};
use std::alloc::AllocError;
use std::io;

/// Why a run ends early.
#[derive(Debug, Drop)]
pub enum Fault {
    NoMemory,
    /// The suite has no cipher.
    Suite,
    /// A packet has more octets than a packet may have.
    Long,
    /// A packet wasn't sealed or opened.
    Dropped(DropCause),
    /// What was opened isn't what was sealed.
    Changed,
    Io(io::Error),
}

impl From<NoMemory> for Fault {
    fn from(_: NoMemory) -> Fault {
        Fault::NoMemory
    }
}

impl From<AllocError> for Fault {
    fn from(_: AllocError) -> Fault {
        Fault::NoMemory
    }
}

impl From<io::Error> for Fault {
    fn from(error: io::Error) -> Fault {
        Fault::Io(error)
    }
}
