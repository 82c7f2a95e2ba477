//! Why a text isn't a session description.

ghost use Rattle.std.specs.Prelude.{◌≡◌};
ghost use Rattle.sg_sdp.specs.declared.faults.ReadSdpFault.TheVariants.{NoMemory};

use sg_base::SdpFault;
use std::alloc::{AllocError, AllocFailed};

/// Why a text isn't read: the first line that isn't one of a description and its first fault, or out of
/// memory. Lines count from 1; line 0 stands for the whole text.
#[derive(Clone, Copy, PartialEq, Eq)]
pub enum ReadSdpFault {
    Sdp { line: u32, fault: SdpFault },
    NoMemory,
}

impl From<AllocError> for ReadSdpFault {
    ghost from_gives = { λ _ e. e ≡ NoMemory };

    fn from(_: AllocError) -> Self {
        ReadSdpFault::NoMemory
    }
}

impl<T: Drop> From<AllocFailed<T>> for ReadSdpFault {
    ghost from_gives = { λ _ e. e ≡ NoMemory };

    fn from(_: AllocFailed<T>) -> Self {
        ReadSdpFault::NoMemory
    }
}

impl From<sg_base::NoMemory> for ReadSdpFault {
    ghost from_gives = { λ _ e. e ≡ NoMemory };

    fn from(_: sg_base::NoMemory) -> Self {
        ReadSdpFault::NoMemory
    }
}
