//! Why an exchange ends.

ghost use Rattle.std.specs.Prelude.{◌≡◌};
ghost use Rattle.sg_psk.specs.declared.faults.PskError.TheVariants as errors;

use sg_base::{NoMemory, PskFault};
use std::alloc::{AllocError, AllocFailed};

/// Why a message is refused, or out of memory.
#[derive(Clone, Copy)]
pub enum PskError {
    Psk(PskFault),
    NoMemory,
}

impl From<NoMemory> for PskError {
    ghost from_gives = { λ _ e. e ≡ errors.NoMemory };

    fn from(_: NoMemory) -> PskError {
        PskError::NoMemory
    }
}

impl From<AllocError> for PskError {
    ghost from_gives = { λ _ e. e ≡ errors.NoMemory };

    fn from(_: AllocError) -> PskError {
        PskError::NoMemory
    }
}

impl<T: Drop> From<AllocFailed<T>> for PskError {
    ghost from_gives = { λ _ e. e ≡ errors.NoMemory };

    fn from(_: AllocFailed<T>) -> PskError {
        PskError::NoMemory
    }
}
