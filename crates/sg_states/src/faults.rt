//! Why a packet isn't placed, verified or numbered.

ghost use Rattle.std.specs.Prelude.{◌≡◌};
ghost use Rattle.sg_session.specs.Session.{index_cause};
ghost use Rattle.sg_states.specs.Faults.{place_cause, number_cause, stale_cause};

use sg_base::IndexFault;

/// Why a packet of RTP has no new index in its stream (RFC 3711, 3.3.1 and 3.3.2).
#[derive(Clone, Copy)]
pub enum PlaceFault {
    BeforeFirst = 1,
    IndexSpent = 2,
    Repeat = 3,
    TooOld = 4,
}

/// Why an index isn't new in its stream (RFC 3711, 3.3.2).
#[derive(Clone, Copy)]
pub enum Stale {
    Repeat = 3,
    TooOld = 4,
}

/// The tag isn't that of the datagram (RFC 3711, 3.3).
#[derive(Clone, Copy)]
pub struct BadTag;

/// Why a packet of RTP can't be sealed: its keys are spent, of which the last one's number and count are
/// told, or it has no new index.
#[derive(Clone, Copy)]
pub enum NumberFault {
    KeySpent { number: u32, count: u64 },
    BeforeFirst,
    IndexSpent,
    Repeat,
    TooOld,
}

/// Why a packet of RTCP can't be sealed: its keys are spent, of which the last one's number and count are
/// told, or its stream's indices are.
#[derive(Clone, Copy)]
pub enum RtcpNumberFault {
    KeySpent { number: u32, count: u64 },
    RtcpIndexSpent,
}

/// A number without an index, as a fault of placing.
pub(crate) fn of_index(fault: IndexFault) -> PlaceFault
    ensures { place_cause result ≡ index_cause fault }
{
    match fault {
        IndexFault::BeforeFirst => PlaceFault::BeforeFirst,
        IndexFault::IndexSpent => PlaceFault::IndexSpent,
    }
}

/// An index that isn't new, as a fault of placing.
pub(crate) fn of_stale(fault: Stale) -> PlaceFault
    ensures { place_cause result ≡ stale_cause fault }
{
    match fault {
        Stale::Repeat => PlaceFault::Repeat,
        Stale::TooOld => PlaceFault::TooOld,
    }
}

/// A fault of placing, as one of numbering.
pub(crate) fn of_place(fault: PlaceFault) -> NumberFault
    ensures { number_cause result ≡ place_cause fault }
{
    match fault {
        PlaceFault::BeforeFirst => NumberFault::BeforeFirst,
        PlaceFault::IndexSpent => NumberFault::IndexSpent,
        PlaceFault::Repeat => NumberFault::Repeat,
        PlaceFault::TooOld => NumberFault::TooOld,
    }
}
