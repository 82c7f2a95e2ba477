//! The narrow faults of the states, as causes of a drop.

ghost use Rattle.std.specs.Prelude.{◌≡◌};
ghost use Rattle.sg_session.specs.Opening.{head_cause};
ghost use Rattle.sg_states.specs.Choosing.{key_cause};
ghost use Rattle.sg_states.specs.Faults.{number_cause, place_cause, rtcp_number_cause, stale_cause};

use sg_base::{DropCause, HeadFault};
use sg_keys::OpenKeyFault;
use sg_states::{NumberFault, PlaceFault, RtcpNumberFault, Stale};

pub(crate) fn of_head(fault: HeadFault) -> DropCause
    ensures { result ≡ head_cause fault }
{
    match fault {
        HeadFault::Short => DropCause::Short,
        HeadFault::Version => DropCause::Version,
        HeadFault::CsrcCut => DropCause::CsrcCut,
        HeadFault::ExtensionCut => DropCause::ExtensionCut,
    }
}

pub(crate) fn of_key(fault: OpenKeyFault) -> DropCause
    ensures { result ≡ key_cause fault }
{
    match fault {
        OpenKeyFault::MkiUnknown => DropCause::MkiUnknown,
        OpenKeyFault::KeySpent { number, count } => DropCause::KeySpent { number, count },
    }
}

pub(crate) fn of_place(fault: PlaceFault) -> DropCause
    ensures { result ≡ place_cause fault }
{
    match fault {
        PlaceFault::BeforeFirst => DropCause::BeforeFirst,
        PlaceFault::IndexSpent => DropCause::IndexSpent,
        PlaceFault::Repeat => DropCause::Repeat,
        PlaceFault::TooOld => DropCause::TooOld,
    }
}

pub(crate) fn of_stale(fault: Stale) -> DropCause
    ensures { result ≡ stale_cause fault }
{
    match fault {
        Stale::Repeat => DropCause::Repeat,
        Stale::TooOld => DropCause::TooOld,
    }
}

pub(crate) fn of_number(fault: NumberFault) -> DropCause
    ensures { result ≡ number_cause fault }
{
    match fault {
        NumberFault::KeySpent { number, count } => DropCause::KeySpent { number, count },
        NumberFault::BeforeFirst => DropCause::BeforeFirst,
        NumberFault::IndexSpent => DropCause::IndexSpent,
        NumberFault::Repeat => DropCause::Repeat,
        NumberFault::TooOld => DropCause::TooOld,
    }
}

pub(crate) fn of_rtcp_number(fault: RtcpNumberFault) -> DropCause
    ensures { result ≡ rtcp_number_cause fault }
{
    match fault {
        RtcpNumberFault::KeySpent { number, count } => DropCause::KeySpent { number, count },
        RtcpNumberFault::RtcpIndexSpent => DropCause::RtcpIndexSpent,
    }
}
