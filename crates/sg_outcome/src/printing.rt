//! Outcomes as lines.

ghost use Rattle.std.specs.Prelude.{◌≡◌, ◌++◌, OnOk, IfOk, codes};
ghost use Rattle.std.specs.Fmt.{decimal, signed_decimal};
ghost use Rattle.sg_outcome.specs.declared.outcomes.Outcome.TheVariants.{Made, Live, Sdp, Refused, Ended, Out, Dropped, Unsent};
ghost use Rattle.sg_outcome.specs.OutcomeText.{side_name, why_name, drop_cause_name, drop_cause_numbers, sdp_fault_name, sdes_fault_name, mikey_fault_name, psk_fault_text, cs_fault_name, refusal_text, call_text, outcome_line};

use crate::{Outcome, Why};
use itoa::Buffer;
use sg_base::{
    Address, CallId, CsFault, DropCause, MikeyFault, NoMemory, Octets, PskFault, Refusal,
    SdesFault, SdpFault, Side,
};
use sg_lines::field_printing::{push, push_address, push_hex, push_number};
use std::alloc::Global;

fn push_signed(out: &mut Vec<u8>, n: i64) -> Result<(), NoMemory>
    ensures { OnOk result (out.new.items ≡ out.old.items ++ signed_decimal n) }
{
    let mut digits = Buffer::new();
    push(out, digits.format(n).as_bytes())
}

pub(crate) fn side_word(side: Side) -> &'static [u8]
    ensures { result.now ≡ side_name side }
{
    match side {
        Side::Secure => b"secure",
        Side::Plain => b"plain",
    }
}

pub(crate) fn why_word(why: Why) -> &'static [u8]
    ensures { result.now ≡ why_name why }
{
    match why {
        Why::Bye => b"bye",
        Why::Rejected => b"rejected",
        Why::Idle => b"idle",
    }
}

pub(crate) fn drop_cause_word(cause: DropCause) -> &'static [u8]
    ensures { result.now ≡ drop_cause_name cause }
{
    match cause {
        DropCause::Short => b"Short",
        DropCause::Version => b"Version",
        DropCause::CsrcCut => b"CsrcCut",
        DropCause::ExtensionCut => b"ExtensionCut",
        DropCause::SsrcUnknown => b"SsrcUnknown",
        DropCause::MkiUnknown => b"MkiUnknown",
        DropCause::KeySpent { .. } => b"KeySpent",
        DropCause::BeforeFirst => b"BeforeFirst",
        DropCause::IndexSpent => b"IndexSpent",
        DropCause::Repeat => b"Repeat",
        DropCause::TooOld => b"TooOld",
        DropCause::BadTag => b"BadTag",
        DropCause::StreamsFull => b"StreamsFull",
        DropCause::RtcpIndexSpent => b"RtcpIndexSpent",
        DropCause::PortUnused => b"PortUnused",
        DropCause::NotLive => b"NotLive",
        DropCause::TooLong => b"TooLong",
        DropCause::SourceUnknown => b"SourceUnknown",
    }
}

fn push_drop_numbers(out: &mut Vec<u8>, cause: DropCause) -> Result<(), NoMemory>
    ensures { OnOk result (out.new.items ≡ out.old.items ++ drop_cause_numbers cause) }
{
    match cause {
        DropCause::KeySpent { number, count } => {
            push_word_number(out, b" ", number as u64)?;
            push_word_number(out, b" ", count)
        }
        _ => Ok(()),
    }
}

pub(crate) fn sdp_fault_word(fault: SdpFault) -> &'static [u8]
    ensures { result.now ≡ sdp_fault_name fault }
{
    match fault {
        SdpFault::Order => b"Order",
        SdpFault::Form => b"Form",
        SdpFault::TooLong => b"TooLong",
        SdpFault::TooManyMedia => b"TooManyMedia",
        SdpFault::Address => b"Address",
    }
}

pub(crate) fn sdes_fault_word(fault: SdesFault) -> &'static [u8]
    ensures { result.now ≡ sdes_fault_name fault }
{
    match fault {
        SdesFault::NoLine => b"NoLine",
        SdesFault::Tag => b"Tag",
        SdesFault::Suite => b"Suite",
        SdesFault::Key => b"Key",
        SdesFault::Lifetime => b"Lifetime",
        SdesFault::MkiValue => b"MkiValue",
        SdesFault::Parameter => b"Parameter",
    }
}

pub(crate) fn mikey_fault_word(fault: MikeyFault) -> &'static [u8]
    ensures { result.now ≡ mikey_fault_name fault }
{
    match fault {
        MikeyFault::Cut => b"Cut",
        MikeyFault::Version => b"Version",
        MikeyFault::DataType => b"DataType",
        MikeyFault::Payload => b"Payload",
        MikeyFault::Order => b"Order",
        MikeyFault::Value => b"Value",
        MikeyFault::Trailing => b"Trailing",
    }
}

fn push_skew(out: &mut Vec<u8>, stamp: i64, now: u64) -> Result<(), NoMemory>
    ensures { OnOk result (out.new.items ≡ out.old.items ++ psk_fault_text (PskFault.Skew stamp now)) }
{
    push(out, b"Skew ")?;
    push_signed(out, stamp)?;
    push_word_number(out, b" ", now)
}

fn push_psk_fault(out: &mut Vec<u8>, fault: PskFault) -> Result<(), NoMemory>
    ensures { OnOk result (out.new.items ≡ out.old.items ++ psk_fault_text fault) }
{
    match fault {
        PskFault::IdUnknown => push(out, b"IdUnknown"),
        PskFault::BadMac => push(out, b"BadMac"),
        PskFault::Skew { stamp, now } => push_skew(out, stamp, now),
        PskFault::Repeated => push(out, b"Repeated"),
        PskFault::Algorithm => push(out, b"Algorithm"),
        PskFault::KeyType => push(out, b"KeyType"),
        PskFault::CacheFull => push(out, b"CacheFull"),
        PskFault::OtherSession => push(out, b"OtherSession"),
    }
}

pub(crate) fn cs_fault_word(fault: CsFault) -> &'static [u8]
    ensures { result.now ≡ cs_fault_name fault }
{
    match fault {
        CsFault::CsCount => b"CsCount",
        CsFault::PolicyMissing => b"PolicyMissing",
        CsFault::PolicyValue => b"PolicyValue",
    }
}

// A refusal's word, the number of its medium or line, and the name of its fault.
fn push_fault(out: &mut Vec<u8>, word: &[u8], number: u64, fault: &[u8]) -> Result<(), NoMemory>
    ensures { OnOk result (out.new.items ≡ out.old.items ++ word.now ++ decimal number ++ codes " " ++ fault.now) }
{
    push_word_number(out, word, number)?;
    push(out, b" ")?;
    push(out, fault)
}

fn push_mikey_fault(
    out: &mut Vec<u8>,
    medium: u64,
    offset: u64,
    fault: MikeyFault,
) -> Result<(), NoMemory>
    ensures { OnOk result (out.new.items ≡ out.old.items ++ codes "Mikey " ++ decimal medium ++ codes " " ++ decimal offset ++ codes " " ++ mikey_fault_name fault) }
{
    push_word_number(out, b"Mikey ", medium)?;
    push_word_number(out, b" ", offset)?;
    push(out, b" ")?;
    push(out, mikey_fault_word(fault))
}

fn push_psk(out: &mut Vec<u8>, medium: u64, fault: PskFault) -> Result<(), NoMemory>
    ensures { OnOk result (out.new.items ≡ out.old.items ++ codes "Psk " ++ decimal medium ++ codes " " ++ psk_fault_text fault) }
{
    push_word_number(out, b"Psk ", medium)?;
    push(out, b" ")?;
    push_psk_fault(out, fault)
}

fn push_word_number(out: &mut Vec<u8>, word: &[u8], number: u64) -> Result<(), NoMemory>
    ensures { OnOk result (out.new.items ≡ out.old.items ++ word.now ++ decimal number) }
{
    push(out, word)?;
    push_number(out, number)
}

fn push_refusal(out: &mut Vec<u8>, cause: Refusal) -> Result<(), NoMemory>
    ensures { OnOk result (out.new.items ≡ out.old.items ++ refusal_text cause) }
{
    match cause {
        Refusal::Sdp { line, fault } => {
            push_fault(out, b"Sdp ", line as u64, sdp_fault_word(fault))
        }
        Refusal::Sdes { medium, fault } => {
            push_fault(out, b"Sdes ", medium as u64, sdes_fault_word(fault))
        }
        Refusal::Mikey {
            medium,
            offset,
            fault,
        } => push_mikey_fault(out, medium as u64, offset as u64, fault),
        Refusal::Psk { medium, fault } => push_psk(out, medium as u64, fault),
        Refusal::Cs { medium, fault } => {
            push_fault(out, b"Cs ", medium as u64, cs_fault_word(fault))
        }
        Refusal::KeyMgmt { medium } => push_word_number(out, b"KeyMgmt ", medium as u64),
        Refusal::KeyReused { number } => push_word_number(out, b"KeyReused ", number as u64),
        Refusal::RingFull => push(out, b"RingFull"),
        Refusal::NoMedia => push(out, b"NoMedia"),
        Refusal::MediaCount => push(out, b"MediaCount"),
        Refusal::TableFull => push(out, b"TableFull"),
        Refusal::CallKnown => push(out, b"CallKnown"),
        Refusal::CallUnknown => push(out, b"CallUnknown"),
        Refusal::PskKnown => push(out, b"PskKnown"),
        Refusal::PskFull => push(out, b"PskFull"),
        Refusal::TickBack { last } => push_word_number(out, b"TickBack ", last),
        Refusal::State => push(out, b"State"),
    }
}

fn push_call(out: &mut Vec<u8>, call: Option<CallId>) -> Result<(), NoMemory>
    ensures { OnOk result (out.new.items ≡ out.old.items ++ call_text call) }
{
    match call {
        None => push(out, b"-"),
        Some(CallId(number)) => push_number(out, number as u64),
    }
}

#[tactic(auto, unfolding(crate::specs::OutcomeText::outcome_line))]
fn push_made(out: &mut Vec<u8>, call: CallId, slot: u8, media: u8) -> Result<(), NoMemory>
    ensures { OnOk result (out.new.items ≡ out.old.items ++ outcome_line (Made call slot media)) }
{
    push_word_number(out, b"made ", call.0 as u64)?;
    push_word_number(out, b" ", slot as u64)?;
    push_word_number(out, b" ", media as u64)?;
    push(out, b"\n")
}

#[tactic(auto, unfolding(crate::specs::OutcomeText::outcome_line))]
fn push_live(out: &mut Vec<u8>, call: CallId) -> Result<(), NoMemory>
    ensures { OnOk result (out.new.items ≡ out.old.items ++ outcome_line (Live call)) }
{
    push_word_number(out, b"live ", call.0 as u64)?;
    push(out, b"\n")
}

#[tactic(auto, unfolding(crate::specs::OutcomeText::outcome_line))]
fn push_sdp(out: &mut Vec<u8>, call: CallId, side: Side, text: &[u8]) -> Result<(), NoMemory>
    ensures { OnOk result (out.new.items ≡ out.old.items ++ outcome_line (Sdp call side text.now)) }
{
    push_word_number(out, b"sdp ", call.0 as u64)?;
    push(out, b" ")?;
    push(out, side_word(side))?;
    push(out, b" ")?;
    push_hex(out, text)?;
    push(out, b"\n")
}

#[tactic(auto, unfolding(crate::specs::OutcomeText::outcome_line))]
fn push_refused(out: &mut Vec<u8>, call: Option<CallId>, cause: Refusal) -> Result<(), NoMemory>
    ensures { OnOk result (out.new.items ≡ out.old.items ++ outcome_line (Refused call cause)) }
{
    push(out, b"refused ")?;
    push_call(out, call)?;
    push(out, b" ")?;
    push_refusal(out, cause)?;
    push(out, b"\n")
}

fn push_slot(out: &mut Vec<u8>, slot: u8, media: u8) -> Result<(), NoMemory>
    ensures { OnOk result (out.new.items ≡ out.old.items ++ codes " " ++ decimal slot ++ codes " " ++ decimal media ++ codes " ") }
{
    push_word_number(out, b" ", slot as u64)?;
    push_word_number(out, b" ", media as u64)?;
    push(out, b" ")
}

#[tactic(auto, unfolding(crate::specs::OutcomeText::outcome_line))]
fn push_ended(
    out: &mut Vec<u8>,
    call: CallId,
    slot: u8,
    media: u8,
    why: Why,
) -> Result<(), NoMemory>
    ensures { OnOk result (out.new.items ≡ out.old.items ++ outcome_line (Ended call slot media why)) }
{
    push_word_number(out, b"ended ", call.0 as u64)?;
    push_slot(out, slot, media)?;
    push(out, why_word(why))?;
    push(out, b"\n")
}

/// Adds the line of a packet that goes out.
#[tactic(auto, unfolding(crate::specs::OutcomeText::outcome_line))]
pub fn push_out(out: &mut Vec<u8>, port: u16, to: &Address, octets: &[u8]) -> Result<(), NoMemory>
    ensures { OnOk result (out.new.items ≡ out.old.items ++ outcome_line (Out port to.now octets.now)) }
{
    push_word_number(out, b"out ", port as u64)?;
    push(out, b" ")?;
    push_address(out, to)?;
    push(out, b" ")?;
    push_hex(out, octets)?;
    push(out, b"\n")
}

#[tactic(auto, unfolding(crate::specs::OutcomeText::outcome_line))]
fn push_dropped(out: &mut Vec<u8>, port: u16, cause: DropCause) -> Result<(), NoMemory>
    ensures { OnOk result (out.new.items ≡ out.old.items ++ outcome_line (Dropped port cause)) }
{
    push_word_number(out, b"drop ", port as u64)?;
    push(out, b" ")?;
    push(out, drop_cause_word(cause))?;
    push_drop_numbers(out, cause)?;
    push(out, b"\n")
}

#[tactic(auto, unfolding(crate::specs::OutcomeText::outcome_line))]
fn push_unsent(out: &mut Vec<u8>, port: u16, to: &Address) -> Result<(), NoMemory>
    ensures { OnOk result (out.new.items ≡ out.old.items ++ outcome_line (Unsent port to.now)) }
{
    push_word_number(out, b"unsent ", port as u64)?;
    push(out, b" ")?;
    push_address(out, to)?;
    push(out, b"\n")
}

/// Adds the line of an outcome, with its line end.
pub fn push_outcome(out: &mut Vec<u8>, outcome: &Outcome) -> Result<(), NoMemory>
    ensures { OnOk result (out.new.items ≡ out.old.items ++ outcome_line outcome.now) }
{
    match outcome {
        Outcome::Made { call, slot, media } => push_made(out, *call, *slot, *media),
        Outcome::Live { call } => push_live(out, *call),
        Outcome::Sdp { call, side, text } => push_sdp(out, *call, *side, text.as_slice()),
        Outcome::Refused { call, cause } => push_refused(out, *call, *cause),
        Outcome::Ended {
            call,
            slot,
            media,
            why,
        } => push_ended(out, *call, *slot, *media, *why),
        Outcome::Out { port, to, octets } => push_out(out, *port, to, octets.as_slice()),
        Outcome::Dropped { port, cause } => push_dropped(out, *port, *cause),
        Outcome::Unsent { port, to } => push_unsent(out, *port, to),
    }
}

/// The line of an outcome, with its line end.
pub fn print_outcome(alloc: Global, outcome: &Outcome) -> Result<Octets, NoMemory>
    ensures { IfOk result (λ o. o ≡ outcome_line outcome.now) }
{
    let mut out = Vec::new(alloc);
    push_outcome(&mut out, outcome)?;
    Ok(Octets::from_vec(out))
}
