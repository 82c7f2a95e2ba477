//! Why there are no streams.

ghost use Rattle.std.specs.Prelude.{◌≡◌};
ghost use Rattle.sg_csmap.specs.declared.faults.CsError.TheVariants as errors;

use sg_base::{CsFault, NoMemory};
use std::alloc::{AllocError, AllocFailed};

/// Why a bundle's crypto sessions don't serve the media, or out of memory.
#[derive(Clone, Copy)]
pub enum CsError {
    Cs(CsFault),
    NoMemory,
}

impl From<NoMemory> for CsError {
    ghost from_gives = { λ _ e. e ≡ errors.NoMemory };

    fn from(_: NoMemory) -> CsError {
        CsError::NoMemory
    }
}

impl From<AllocError> for CsError {
    ghost from_gives = { λ _ e. e ≡ errors.NoMemory };

    fn from(_: AllocError) -> CsError {
        CsError::NoMemory
    }
}

impl<T: Drop> From<AllocFailed<T>> for CsError {
    ghost from_gives = { λ _ e. e ≡ errors.NoMemory };

    fn from(_: AllocFailed<T>) -> CsError {
        CsError::NoMemory
    }
}
