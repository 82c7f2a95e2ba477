//! What a reader of lines may answer in place of a line.

ghost use Rattle.sg_lines.specs.declared.faults.ReadLineFault.TheVariants.{NoMemory, Script};
ghost use Rattle.std.specs.Prelude.{◌≡◌};

use sg_base::ScriptFault;
use std::alloc::{AllocError, AllocFailed};

/// The first fault of a line, or out of memory.
#[derive(Clone, Copy)]
pub enum ReadLineFault {
    Script(ScriptFault),
    NoMemory,
}

/// An unknown word, or another number of fields than its line has.
pub const WORD: ReadLineFault = ReadLineFault::Script(ScriptFault::Word);

impl From<AllocError> for ReadLineFault {
    ghost from_gives = { λ _ e. e ≡ NoMemory };

    fn from(_: AllocError) -> Self {
        ReadLineFault::NoMemory
    }
}

impl<T: Drop> From<AllocFailed<T>> for ReadLineFault {
    ghost from_gives = { λ _ e. e ≡ NoMemory };

    fn from(_: AllocFailed<T>) -> Self {
        ReadLineFault::NoMemory
    }
}

impl From<sg_base::NoMemory> for ReadLineFault {
    ghost from_gives = { λ _ e. e ≡ NoMemory };

    fn from(_: sg_base::NoMemory) -> Self {
        ReadLineFault::NoMemory
    }
}

impl From<ScriptFault> for ReadLineFault {
    ghost from_gives = { λ fault e. e ≡ Script fault };

    fn from(fault: ScriptFault) -> Self {
        ReadLineFault::Script(fault)
    }
}
