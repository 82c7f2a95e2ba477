//! What a bridge tells, read.

ghost use Rattle.std.specs.Prelude.{◌≡◌, ◌++◌, IfOk, codes, option_map};
ghost use Rattle.sg_outcome.specs.OutcomeOf.{outcome_of};
ghost use Rattle.sg_pairs.specs.BridgeOutcomeOf.{as_joined, as_lost, as_parted, as_table, body_at, bridge_outcome_of, call_at, calls_at, join_fault_at, plain_fault_at, told_by_word, told_of_one, unjoined_at};

use crate::faults::JoinFault;
use crate::outcomes::BridgeOutcome;
use sg_base::{CallId, LINE_MOST, NoMemory, cut, read_number};
use sg_lines::ReadLineFault;
use sg_outcome::{Outcome, read_outcome};
use std::alloc::Global;

/// The number of a call.
#[tactic(auto, unfolding(crate::specs::BridgeOutcomeOf::call_at))]
fn call(text: &[u8]) -> Option<CallId>
    ensures { result ≡ call_at text.now }
{
    let number = read_number(u32::MAX as u128, text)?;
    Some(CallId(number as u32))
}

/// What stands before the line's end.
#[tactic(auto, unfolding(crate::specs::BridgeOutcomeOf::body_at))]
fn body(text: &[u8]) -> Option<&[u8]>
    ensures { option_map (λ x. x.now) result ≡ body_at text.now }
{
    let (body, behind) = cut(b'\n', text)?;
    if behind.len() != 0 {
        return None;
    }
    Some(body)
}

/// Two calls, with a space between them, and the line's end.
#[tactic(auto, unfolding(crate::specs::BridgeOutcomeOf::calls_at))]
fn calls(text: &[u8]) -> Option<(CallId, CallId)>
    ensures { result ≡ calls_at text.now }
{
    let (first, second) = cut(b' ', body(text)?)?;
    let first = call(first)?;
    let second = call(second)?;
    Some((first, second))
}

/// The cause of this name.
#[tactic(auto, unfolding(crate::specs::BridgeOutcomeOf::plain_fault_at))]
fn plain_fault(name: &[u8]) -> Option<JoinFault>
    ensures { result ≡ plain_fault_at name.now }
{
    if name == b"CallUnknown".as_slice() {
        return Some(JoinFault::CallUnknown);
    }
    if name == b"Same".as_slice() {
        return Some(JoinFault::Same);
    }
    if name == b"Unready".as_slice() {
        return Some(JoinFault::Unready);
    }
    if name == b"MediaCount".as_slice() {
        return Some(JoinFault::MediaCount);
    }
    if name == b"NotJoined".as_slice() {
        return Some(JoinFault::NotJoined);
    }
    None
}

/// A cause, with the number that it has.
#[tactic(auto, unfolding(crate::specs::BridgeOutcomeOf::join_fault_at))]
fn join_fault(text: &[u8]) -> Option<JoinFault>
    ensures { result ≡ join_fault_at text.now }
{
    if let Some(number) = text.strip_prefix(b"Joined ".as_slice()) {
        let with = call(number)?;
        return Some(JoinFault::Joined { with });
    }
    plain_fault(text)
}

/// A call, a cause, and the line's end.
#[tactic(auto, unfolding(crate::specs::BridgeOutcomeOf::unjoined_at))]
fn unjoined(text: &[u8]) -> Option<BridgeOutcome>
    ensures { result ≡ unjoined_at text.now }
{
    let (named, cause) = cut(b' ', body(text)?)?;
    let call = call(named)?;
    let cause = join_fault(cause)?;
    Some(BridgeOutcome::Unjoined { call, cause })
}

/// Two calls that are joined.
fn joined(text: &[u8]) -> Option<BridgeOutcome>
    ensures { result ≡ option_map as_joined (calls_at text.now) }
{
    let (first, second) = calls(text)?;
    Some(BridgeOutcome::Joined { first, second })
}

/// Two calls that are parted.
fn parted(text: &[u8]) -> Option<BridgeOutcome>
    ensures { result ≡ option_map as_parted (calls_at text.now) }
{
    let (first, second) = calls(text)?;
    Some(BridgeOutcome::Parted { first, second })
}

/// What is lost: the words of a drop, behind another word.
fn lost(alloc: Global, text: &[u8]) -> Result<Option<BridgeOutcome>, NoMemory>
    ensures { IfOk result (λ o. o ≡ as_lost (outcome_of (codes "drop " ++ text.now))) }
{
    let mut line = Vec::from_slice(alloc, b"drop ")?;
    line.extend_from_slice(text)?;
    match read_outcome(alloc, line.as_slice()) {
        Ok(Outcome::Dropped { port, cause }) => Ok(Some(BridgeOutcome::Lost { port, cause })),
        Ok(_) => Ok(None),
        Err(ReadLineFault::Script(_)) => Ok(None),
        Err(ReadLineFault::NoMemory) => Err(NoMemory),
    }
}

/// What the table tells.
fn table(alloc: Global, line: &[u8]) -> Result<Option<BridgeOutcome>, NoMemory>
    ensures { IfOk result (λ o. o ≡ as_table (outcome_of line.now)) }
{
    match read_outcome(alloc, line) {
        Ok(outcome) => Ok(Some(BridgeOutcome::Table(outcome))),
        Err(ReadLineFault::Script(_)) => Ok(None),
        Err(ReadLineFault::NoMemory) => Err(NoMemory),
    }
}

/// A line by its word, where it doesn't tell of a pair.
#[tactic(auto, unfolding(crate::specs::BridgeOutcomeOf::told_of_one))]
fn told_of_one(alloc: Global, line: &[u8]) -> Result<Option<BridgeOutcome>, NoMemory>
    ensures { IfOk result (λ o. o ≡ told_of_one line.now) }
{
    if let Some(text) = line.strip_prefix(b"unjoined ".as_slice()) {
        return Ok(unjoined(text));
    }
    if let Some(text) = line.strip_prefix(b"lost ".as_slice()) {
        return lost(alloc, text);
    }
    table(alloc, line)
}

/// A line by its word.
#[tactic(auto, unfolding(crate::specs::BridgeOutcomeOf::told_by_word))]
fn told(alloc: Global, line: &[u8]) -> Result<Option<BridgeOutcome>, NoMemory>
    ensures { IfOk result (λ o. o ≡ told_by_word line.now) }
{
    if let Some(calls) = line.strip_prefix(b"joined ".as_slice()) {
        return Ok(joined(calls));
    }
    if let Some(calls) = line.strip_prefix(b"parted ".as_slice()) {
        return Ok(parted(calls));
    }
    told_of_one(alloc, line)
}

/// The outcome of the line, of at most 70,000 octets, that `print_bridge` prints, with its end; none of every other line;
/// or `NoMemory` where memory runs out.
#[tactic(auto, unfolding(crate::specs::BridgeOutcomeOf::bridge_outcome_of))]
pub fn read_bridge_outcome(alloc: Global, line: &[u8]) -> Result<Option<BridgeOutcome>, NoMemory>
    ensures { IfOk result (λ o. o ≡ bridge_outcome_of line.now) }
{
    if line.len() > LINE_MOST {
        return Ok(None);
    }
    told(alloc, line)
}
