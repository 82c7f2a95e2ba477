//! Every fault that the gateway answers by name and number. A fault has no text of its own and holds
//! no octet of a key.

ghost use Rattle.std.specs.Prelude.{◌≡◌};
ghost use Rattle.sg_base.specs.declared.faults.Fault.TheVariants as faults;
ghost use Rattle.sg_base.specs.Faults.{drop_cause_number, psk_fault_number, refusal_number};

use std::alloc::{AllocError, AllocFailed};

/// Out of memory.
#[derive(Clone, Copy, Debug)]
pub struct NoMemory;

impl From<AllocError> for NoMemory {
    fn from(_: AllocError) -> Self {
        NoMemory
    }
}

impl<T: Drop> From<AllocFailed<T>> for NoMemory {
    fn from(_: AllocFailed<T>) -> Self {
        NoMemory
    }
}

/// A call on the outside failed: a source, a sink, a link, a clock or a source of noise.
#[derive(Clone, Copy, Debug, PartialEq, Eq)]
pub struct Failed;

/// Why octets have no packet head (RFC 3550, 5.1 and 6.1).
#[derive(Clone, Copy, PartialEq, Eq)]
pub enum HeadFault {
    Short = 1,
    Version = 2,
    CsrcCut = 3,
    ExtensionCut = 4,
}

/// Why a packet's number has no index (RFC 3711, 3.3.1).
#[derive(Clone, Copy, PartialEq, Eq)]
pub enum IndexFault {
    BeforeFirst = 1,
    IndexSpent = 2,
}

/// Why a line isn't one of a script.
#[derive(Clone, Copy, PartialEq, Eq)]
pub enum ScriptFault {
    Word = 1,
    Number = 2,
    Hex = 3,
    Length = 4,
    Version = 5,
    Unended = 6,
}

/// Why a text isn't a session description (RFC 4566).
#[derive(Clone, Copy, PartialEq, Eq)]
pub enum SdpFault {
    Order = 1,
    Form = 2,
    TooLong = 3,
    TooManyMedia = 4,
    Address = 5,
}

/// Why a value isn't a crypto attribute that can be used (RFC 4568).
#[derive(Clone, Copy)]
pub enum SdesFault {
    NoLine = 1,
    Tag = 2,
    Suite = 3,
    Key = 4,
    Lifetime = 5,
    MkiValue = 6,
    Parameter = 7,
}

/// Why octets aren't a MIKEY message (RFC 3830).
#[derive(Clone, Copy, PartialEq, Eq)]
pub enum MikeyFault {
    Cut = 1,
    Version = 2,
    DataType = 3,
    Payload = 4,
    Order = 5,
    Value = 6,
    Trailing = 7,
}

/// Why a datagram is dropped.
#[derive(Clone, Copy, Debug)]
pub enum DropCause {
    Short,
    Version,
    CsrcCut,
    ExtensionCut,
    SsrcUnknown,
    MkiUnknown,
    KeySpent { number: u32, count: u64 },
    BeforeFirst,
    IndexSpent,
    Repeat,
    TooOld,
    BadTag,
    StreamsFull,
    RtcpIndexSpent,
    PortUnused,
    NotLive,
    TooLong,
    SourceUnknown,
}

impl DropCause {
    /// The cause's number, from 1.
    pub fn number(self) -> u8
        ensures { result ≡ drop_cause_number self }
    {
        match self {
            DropCause::Short => 1,
            DropCause::Version => 2,
            DropCause::CsrcCut => 3,
            DropCause::ExtensionCut => 4,
            DropCause::SsrcUnknown => 5,
            DropCause::MkiUnknown => 6,
            DropCause::KeySpent { .. } => 7,
            DropCause::BeforeFirst => 8,
            DropCause::IndexSpent => 9,
            DropCause::Repeat => 10,
            DropCause::TooOld => 11,
            DropCause::BadTag => 12,
            DropCause::StreamsFull => 13,
            DropCause::RtcpIndexSpent => 14,
            DropCause::PortUnused => 15,
            DropCause::NotLive => 16,
            DropCause::TooLong => 17,
            DropCause::SourceUnknown => 18,
        }
    }
}

/// Why a pre-shared-key exchange is refused (RFC 3830).
#[derive(Clone, Copy)]
pub enum PskFault {
    IdUnknown,
    BadMac,
    Skew { stamp: i64, now: u64 },
    Repeated,
    Algorithm,
    KeyType,
    CacheFull,
    OtherSession,
}

/// Why a message's crypto sessions don't fit the media (RFC 3830, RFC 4567).
#[derive(Clone, Copy)]
pub enum CsFault {
    CsCount = 1,
    PolicyMissing = 2,
    PolicyValue = 3,
}

/// Why a signal is refused. A medium counts from 0, and 255 is the session level.
#[derive(Clone, Copy)]
pub enum Refusal {
    Sdp {
        line: u32,
        fault: SdpFault,
    },
    Sdes {
        medium: u8,
        fault: SdesFault,
    },
    Mikey {
        medium: u8,
        offset: u32,
        fault: MikeyFault,
    },
    Psk {
        medium: u8,
        fault: PskFault,
    },
    Cs {
        medium: u8,
        fault: CsFault,
    },
    KeyMgmt {
        medium: u8,
    },
    KeyReused {
        number: u32,
    },
    RingFull,
    NoMedia,
    MediaCount,
    TableFull,
    CallKnown,
    CallUnknown,
    PskKnown,
    PskFull,
    TickBack {
        last: u64,
    },
    State,
}

/// Why a call that allocates gives no answer: it is refused, or it is out of memory.
#[derive(Clone, Copy)]
pub enum Fault {
    Refused(Refusal),
    NoMemory,
}

impl From<Refusal> for Fault {
    ghost from_gives = { λ refusal fault. fault ≡ faults.Refused refusal };

    fn from(refusal: Refusal) -> Self {
        Fault::Refused(refusal)
    }
}

impl From<NoMemory> for Fault {
    ghost from_gives = { λ _ fault. fault ≡ faults.NoMemory };

    fn from(_: NoMemory) -> Self {
        Fault::NoMemory
    }
}

impl From<AllocError> for Fault {
    ghost from_gives = { λ _ fault. fault ≡ faults.NoMemory };

    fn from(_: AllocError) -> Self {
        Fault::NoMemory
    }
}

impl<T: Drop> From<AllocFailed<T>> for Fault {
    ghost from_gives = { λ _ fault. fault ≡ faults.NoMemory };

    fn from(_: AllocFailed<T>) -> Self {
        Fault::NoMemory
    }
}

impl PskFault {
    /// The fault's number, from 1.
    pub fn number(self) -> u8
        ensures { result ≡ psk_fault_number self }
    {
        match self {
            PskFault::IdUnknown => 1,
            PskFault::BadMac => 2,
            PskFault::Skew { .. } => 3,
            PskFault::Repeated => 4,
            PskFault::Algorithm => 5,
            PskFault::KeyType => 6,
            PskFault::CacheFull => 7,
            PskFault::OtherSession => 8,
        }
    }
}

impl Refusal {
    /// The refusal's number, from 1; 17 to 19 aren't used.
    pub fn number(self) -> u8
        ensures { result ≡ refusal_number self }
    {
        match self {
            Refusal::Sdp { .. } => 1,
            Refusal::Sdes { .. } => 2,
            Refusal::Mikey { .. } => 3,
            Refusal::Psk { .. } => 4,
            Refusal::Cs { .. } => 5,
            Refusal::KeyMgmt { .. } => 6,
            Refusal::KeyReused { .. } => 7,
            Refusal::RingFull => 8,
            Refusal::NoMedia => 9,
            Refusal::MediaCount => 10,
            Refusal::TableFull => 11,
            Refusal::CallKnown => 12,
            Refusal::CallUnknown => 13,
            Refusal::PskKnown => 14,
            Refusal::PskFull => 15,
            Refusal::TickBack { .. } => 16,
            Refusal::State => 20,
        }
    }
}
