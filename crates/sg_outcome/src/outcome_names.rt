//! The names in outcome lines: of sides, of reasons, and of causes without numbers.

ghost use Rattle.std.specs.Prelude.{◌≡◌};
ghost use Rattle.sg_outcome.specs.OutcomeFields.{psk_fault_name, refusal_name};
ghost use Rattle.sg_outcome.specs.OutcomeOf.{cs_fault_at, mikey_fault_at, plain_drop_cause_at, plain_psk_fault_at, plain_refusal_at, sdes_fault_at, sdp_fault_at, side_at, why_at};

use crate::Why;
use crate::printing::{
    cs_fault_word, drop_cause_word, mikey_fault_word, sdes_fault_word, sdp_fault_word, side_word,
    why_word,
};
use sg_base::{CsFault, DropCause, MikeyFault, PskFault, Refusal, SdesFault, SdpFault, Side};

const SIDES: [Side; 2] = [Side::Secure, Side::Plain];

const WHYS: [Why; 3] = [Why::Bye, Why::Rejected, Why::Idle];

const PLAIN_DROP_CAUSES: [DropCause; 17] = [
    DropCause::Short,
    DropCause::Version,
    DropCause::CsrcCut,
    DropCause::ExtensionCut,
    DropCause::SsrcUnknown,
    DropCause::MkiUnknown,
    DropCause::BeforeFirst,
    DropCause::IndexSpent,
    DropCause::Repeat,
    DropCause::TooOld,
    DropCause::BadTag,
    DropCause::StreamsFull,
    DropCause::RtcpIndexSpent,
    DropCause::PortUnused,
    DropCause::NotLive,
    DropCause::TooLong,
    DropCause::SourceUnknown,
];

const SDP_FAULTS: [SdpFault; 5] = [
    SdpFault::Order,
    SdpFault::Form,
    SdpFault::TooLong,
    SdpFault::TooManyMedia,
    SdpFault::Address,
];

const SDES_FAULTS: [SdesFault; 7] = [
    SdesFault::NoLine,
    SdesFault::Tag,
    SdesFault::Suite,
    SdesFault::Key,
    SdesFault::Lifetime,
    SdesFault::MkiValue,
    SdesFault::Parameter,
];

const MIKEY_FAULTS: [MikeyFault; 7] = [
    MikeyFault::Cut,
    MikeyFault::Version,
    MikeyFault::DataType,
    MikeyFault::Payload,
    MikeyFault::Order,
    MikeyFault::Value,
    MikeyFault::Trailing,
];

const PLAIN_PSK_FAULTS: [PskFault; 7] = [
    PskFault::IdUnknown,
    PskFault::BadMac,
    PskFault::Repeated,
    PskFault::Algorithm,
    PskFault::KeyType,
    PskFault::CacheFull,
    PskFault::OtherSession,
];

const CS_FAULTS: [CsFault; 3] = [
    CsFault::CsCount,
    CsFault::PolicyMissing,
    CsFault::PolicyValue,
];

const PLAIN_REFUSALS: [Refusal; 9] = [
    Refusal::RingFull,
    Refusal::NoMedia,
    Refusal::MediaCount,
    Refusal::TableFull,
    Refusal::CallKnown,
    Refusal::CallUnknown,
    Refusal::PskKnown,
    Refusal::PskFull,
    Refusal::State,
];

fn psk_fault_word(fault: PskFault) -> &'static [u8]
    ensures { result.now ≡ psk_fault_name fault }
{
    match fault {
        PskFault::IdUnknown => b"IdUnknown",
        PskFault::BadMac => b"BadMac",
        PskFault::Skew { .. } => b"Skew",
        PskFault::Repeated => b"Repeated",
        PskFault::Algorithm => b"Algorithm",
        PskFault::KeyType => b"KeyType",
        PskFault::CacheFull => b"CacheFull",
        PskFault::OtherSession => b"OtherSession",
    }
}

fn refusal_word(refusal: Refusal) -> &'static [u8]
    ensures { result.now ≡ refusal_name refusal }
{
    match refusal {
        Refusal::Sdp { .. } => b"Sdp",
        Refusal::Sdes { .. } => b"Sdes",
        Refusal::Mikey { .. } => b"Mikey",
        Refusal::Psk { .. } => b"Psk",
        Refusal::Cs { .. } => b"Cs",
        Refusal::KeyMgmt { .. } => b"KeyMgmt",
        Refusal::KeyReused { .. } => b"KeyReused",
        Refusal::RingFull => b"RingFull",
        Refusal::NoMedia => b"NoMedia",
        Refusal::MediaCount => b"MediaCount",
        Refusal::TableFull => b"TableFull",
        Refusal::CallKnown => b"CallKnown",
        Refusal::CallUnknown => b"CallUnknown",
        Refusal::PskKnown => b"PskKnown",
        Refusal::PskFull => b"PskFull",
        Refusal::TickBack { .. } => b"TickBack",
        Refusal::State => b"State",
    }
}

/// The side of that name.
#[tactic(auto, unfolding(crate::specs::OutcomeOf::side_at))]
pub(crate) fn side(text: &[u8]) -> Option<Side>
    ensures { result ≡ side_at text.now }
{
    SIDES
        .iter()
        .find(|named| text == side_word(**named))
        .copied()
}

/// The reason of that name.
#[tactic(auto, unfolding(crate::specs::OutcomeOf::why_at))]
pub(crate) fn why(text: &[u8]) -> Option<Why>
    ensures { result ≡ why_at text.now }
{
    WHYS.iter().find(|named| text == why_word(**named)).copied()
}

/// The cause without numbers of that name.
#[tactic(auto, unfolding(crate::specs::OutcomeOf::plain_drop_cause_at))]
pub(crate) fn plain_drop_cause(text: &[u8]) -> Option<DropCause>
    ensures { result ≡ plain_drop_cause_at text.now }
{
    PLAIN_DROP_CAUSES
        .iter()
        .find(|named| text == drop_cause_word(**named))
        .copied()
}

/// The fault of that name.
#[tactic(auto, unfolding(crate::specs::OutcomeOf::sdp_fault_at))]
pub(crate) fn sdp_fault(text: &[u8]) -> Option<SdpFault>
    ensures { result ≡ sdp_fault_at text.now }
{
    SDP_FAULTS
        .iter()
        .find(|named| text == sdp_fault_word(**named))
        .copied()
}

/// The fault of that name.
#[tactic(auto, unfolding(crate::specs::OutcomeOf::sdes_fault_at))]
pub(crate) fn sdes_fault(text: &[u8]) -> Option<SdesFault>
    ensures { result ≡ sdes_fault_at text.now }
{
    SDES_FAULTS
        .iter()
        .find(|named| text == sdes_fault_word(**named))
        .copied()
}

/// The fault of that name.
#[tactic(auto, unfolding(crate::specs::OutcomeOf::mikey_fault_at))]
pub(crate) fn mikey_fault(text: &[u8]) -> Option<MikeyFault>
    ensures { result ≡ mikey_fault_at text.now }
{
    MIKEY_FAULTS
        .iter()
        .find(|named| text == mikey_fault_word(**named))
        .copied()
}

/// The fault without numbers of that name.
#[tactic(auto, unfolding(crate::specs::OutcomeOf::plain_psk_fault_at))]
pub(crate) fn plain_psk_fault(text: &[u8]) -> Option<PskFault>
    ensures { result ≡ plain_psk_fault_at text.now }
{
    PLAIN_PSK_FAULTS
        .iter()
        .find(|named| text == psk_fault_word(**named))
        .copied()
}

/// The fault of that name.
#[tactic(auto, unfolding(crate::specs::OutcomeOf::cs_fault_at))]
pub(crate) fn cs_fault(text: &[u8]) -> Option<CsFault>
    ensures { result ≡ cs_fault_at text.now }
{
    CS_FAULTS
        .iter()
        .find(|named| text == cs_fault_word(**named))
        .copied()
}

/// The refusal without numbers of that name.
#[tactic(auto, unfolding(crate::specs::OutcomeOf::plain_refusal_at))]
pub(crate) fn plain_refusal(text: &[u8]) -> Option<Refusal>
    ensures { result ≡ plain_refusal_at text.now }
{
    PLAIN_REFUSALS
        .iter()
        .find(|named| text == refusal_word(**named))
        .copied()
}
