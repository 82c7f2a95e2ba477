//! The outcomes of a bridge, printed.

ghost use Rattle.std.specs.Prelude.{◌≡◌, ◌≤◌, ◌++◌, length, drop, IfOk, OnOk, codes};
ghost use Rattle.std.specs.Fmt.{decimal};
ghost use Rattle.sg_pairs.specs.BridgeText.{bridge_outcome_line, join_fault_text};
ghost use Rattle.sg_pairs.specs.declared.outcomes.BridgeOutcome.TheVariants as tells;

use crate::faults::JoinFault;
use crate::outcomes::BridgeOutcome;
use sg_base::{CallId, DropCause, NoMemory, Octets};
use sg_lines::field_printing::{push, push_number};
use sg_outcome::{Outcome, push_outcome};
use std::alloc::Global;

fn push_fault(out: &mut Vec<u8>, fault: JoinFault) -> Result<(), NoMemory>
    ensures { OnOk result (out.new.items ≡ out.old.items ++ join_fault_text fault) }
{
    match fault {
        JoinFault::CallUnknown => push(out, b"CallUnknown"),
        JoinFault::Same => push(out, b"Same"),
        JoinFault::Unready => push(out, b"Unready"),
        JoinFault::Joined { with } => {
            push(out, b"Joined ")?;
            push_number(out, with.0 as u64)
        }
        JoinFault::MediaCount => push(out, b"MediaCount"),
        JoinFault::NotJoined => push(out, b"NotJoined"),
    }
}

// A word, two calls, and the line end.
fn push_calls(out: &mut Vec<u8>, word: &[u8], first: CallId, second: CallId) -> Result<(), NoMemory>
    ensures { OnOk result (out.new.items ≡ out.old.items ++ word.now ++ decimal first.0 ++ codes " " ++ decimal second.0 ++ codes "\n") }
{
    push(out, word)?;
    push_number(out, first.0 as u64)?;
    push(out, b" ")?;
    push_number(out, second.0 as u64)?;
    push(out, b"\n")
}

#[tactic(auto, unfolding(crate::specs::BridgeText::bridge_outcome_line))]
fn push_unjoined(out: &mut Vec<u8>, call: CallId, cause: JoinFault) -> Result<(), NoMemory>
    ensures { OnOk result (out.new.items ≡ out.old.items ++ bridge_outcome_line (tells.Unjoined call cause)) }
{
    push(out, b"unjoined ")?;
    push_number(out, call.0 as u64)?;
    push(out, b" ")?;
    push_fault(out, cause)?;
    push(out, b"\n")
}

/// A line without the five octets of its word and the space behind it.
fn behind_word(line: &[u8]) -> &[u8]
    requires { 5 ≤ length line.now }
    ensures { result.now ≡ drop 5 line.now }
{
    &line[5..]
}

/// The line of a drop, with another word.
fn push_lost(alloc: Global, out: &mut Vec<u8>, port: u16, cause: DropCause) -> Result<(), NoMemory>
    ensures { OnOk result (out.new.items ≡ out.old.items ++ bridge_outcome_line (tells.Lost port cause)) }
{
    let mut line = Vec::new(alloc);
    push_outcome(&mut line, &Outcome::Dropped { port, cause })?;
    push(out, b"lost ")?;
    push(out, behind_word(line.as_slice()))
}

/// Adds the line of an outcome, with its line end. Where memory runs out (`NoMemory`), what `out`
/// then holds isn't said.
#[tactic(auto, unfolding(crate::specs::BridgeText::bridge_outcome_line))]
pub fn push_bridge_outcome(
    alloc: Global,
    out: &mut Vec<u8>,
    outcome: &BridgeOutcome,
) -> Result<(), NoMemory>
    ensures { OnOk result (out.new.items ≡ out.old.items ++ bridge_outcome_line outcome.now) }
{
    match outcome {
        BridgeOutcome::Table(outcome) => push_outcome(out, outcome),
        BridgeOutcome::Joined { first, second } => push_calls(out, b"joined ", *first, *second),
        BridgeOutcome::Parted { first, second } => push_calls(out, b"parted ", *first, *second),
        BridgeOutcome::Unjoined { call, cause } => push_unjoined(out, *call, *cause),
        BridgeOutcome::Lost { port, cause } => push_lost(alloc, out, *port, *cause),
    }
}

/// The line of an outcome, with its line end; or `NoMemory` where memory runs out.
pub fn print_bridge(alloc: Global, outcome: &BridgeOutcome) -> Result<Octets, NoMemory>
    ensures { IfOk result (λ o. o ≡ bridge_outcome_line outcome.now) }
{
    let mut out = Vec::new(alloc);
    push_bridge_outcome(alloc, &mut out, outcome)?;
    Ok(Octets::from_vec(out))
}
