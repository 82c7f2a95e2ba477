//! How what is known of calls follows the signals. Memory is taken before anything changes.

ghost use Rattle.std.specs.Prelude.{◌≡◌, length, IfErr, OnOk, OnErr, true};
ghost use Rattle.std.specs.List.{list_any};
ghost use Rattle.sg_gateway.specs.Events.{signal_of};
ghost use Rattle.sg_mux.specs.Muxed.{agreed, settled_answer, is_text, noted, noted_all, offered_by, settled, signalled, with_change};
ghost use Rattle.sg_mux.specs.Texts.{both, no_marks, offers_mux, or_same, with_mux_lines};

use crate::known::{Known, fresh, offer, settle};
use crate::texts::{Marks, NO_MARKS, answered, offers_mux};
use sg_base::{CallId, NoMemory, Octets, Side};
use sg_lines::Signal;
use sg_outcome::Outcome;
use std::alloc::Global;

/// Follows a signal and the outcomes that were told of it.
pub(crate) fn follow(
    calls: &mut [Option<Known>],
    alloc: Global,
    signal: &Signal,
    outcomes: &mut [Outcome],
) -> Result<(), NoMemory>
    requires { length calls.old ≡ 256 }
    ensures calls { OnOk result (calls.new ≡ (signalled (signal_of signal.now) calls.old outcomes.old).calls) }
    ensures told { OnOk result (outcomes.new ≡ (signalled (signal_of signal.now) calls.old outcomes.old).told) }
    ensures same { OnErr result ((calls.new ≡ calls.old) × (outcomes.new ≡ outcomes.old)) }
    ensures needs { OnErr result (list_any is_text outcomes.old ≡ true) }
{
    match signal {
        Signal::OfferSecure { text, .. } => follow_offer(calls, alloc, text.as_slice(), outcomes),
        Signal::OfferSdes { text, .. } => follow_offer(calls, alloc, text.as_slice(), outcomes),
        Signal::OfferMikey { text, .. } => follow_offer(calls, alloc, text.as_slice(), outcomes),
        Signal::Answer { .. } => follow_answer(calls, alloc, outcomes),
        Signal::Tick { .. } => follow_other(calls, outcomes),
        Signal::Psk { .. } => follow_other(calls, outcomes),
        Signal::Manual { .. } => follow_other(calls, outcomes),
        Signal::Reject { .. } => follow_other(calls, outcomes),
        Signal::Bye { .. } => follow_other(calls, outcomes),
    }
}

/// Follows a signal that is neither an offer nor an answer. It doesn't allocate.
fn follow_other(calls: &mut [Option<Known>], outcomes: &[Outcome]) -> Result<(), NoMemory>
    requires { length calls.old ≡ 256 }
    ensures ok { OnOk result (calls.new ≡ noted_all no_marks calls.old outcomes.now) }
    ensures none { IfErr result (λ e. ⊥) }
{
    note_all(calls, NO_MARKS, outcomes);
    Ok(())
}

/// Follows an offer of this text, which is read where it is accepted.
fn follow_offer(
    calls: &mut [Option<Known>],
    alloc: Global,
    text: &[u8],
    outcomes: &[Outcome],
) -> Result<(), NoMemory>
    requires { length calls.old ≡ 256 }
    ensures ok { OnOk result (calls.new ≡ noted_all (offers_mux text.now) calls.old outcomes.now) }
    ensures same { OnErr result (calls.new ≡ calls.old) }
    ensures needs { OnErr result (list_any is_text outcomes.now ≡ true) }
{
    if !tell_text(outcomes) {
        return follow_other(calls, outcomes);
    }
    let marks = match offers_mux(alloc, text) {
        Err(NoMemory) => return Err(NoMemory),
        Ok(marks) => marks,
    };
    note_all(calls, marks, outcomes);
    Ok(())
}

/// Whether a text is among the outcomes.
fn tell_text(outcomes: &[Outcome]) -> bool
    ensures { result ≡ list_any is_text outcomes.now }
{
    outcomes.iter().any(|outcome| is_text(outcome))
}

fn is_text(outcome: &Outcome) -> bool
    ensures { result ≡ is_text outcome.now }
{
    match outcome {
        Outcome::Sdp { .. } => true,
        _ => false,
    }
}

/// Notes what outcomes change, one after the other.
fn note_all(calls: &mut [Option<Known>], marks: Marks, outcomes: &[Outcome])
    requires { length calls.old ≡ 256 }
    ensures { calls.new ≡ noted_all marks calls.old outcomes.now }
{
    for outcome in outcomes {
        note(calls, marks, outcome);
    }
}

/// Notes what an outcome changes.
fn note(calls: &mut [Option<Known>], marks: Marks, outcome: &Outcome)
    requires { length calls.old ≡ 256 }
    ensures { calls.new ≡ noted marks calls.old outcome.now }
{
    match outcome {
        Outcome::Made { call, slot, .. } => calls[usize::from(*slot)] = Some(fresh(*call)),
        Outcome::Ended { slot, .. } => calls[usize::from(*slot)] = None,
        Outcome::Sdp { call, .. } => offer_all(calls, *call, marks),
        _ => {}
    }
}

/// Notes an offer in the call of this id.
fn offer_all(calls: &mut [Option<Known>], id: CallId, marks: Marks)
    ensures { calls.new ≡ with_change id (λ k. record k { offered = marks }) calls.old }
{
    for known in calls {
        offer(known, id, marks);
    }
}

/// Notes an answer in the call of this id.
fn settle_all(calls: &mut [Option<Known>], id: CallId, side: Side, ports: Marks)
    ensures { calls.new ≡ with_change id (λ k. record k { side = side; muxed = both ports k.offered }) calls.old }
{
    for known in calls {
        settle(known, id, side, ports);
    }
}

/// The marks of the offer that the call of this id accepted last.
fn offered_by(calls: &[Option<Known>], id: CallId) -> Marks
    ensures { result ≡ offered_by id calls.now }
{
    for known in calls {
        if let Some(k) = known {
            if k.id == id {
                return k.offered;
            }
        }
    }
    NO_MARKS
}

/// Follows an answer: its text is told first.
fn follow_answer(
    calls: &mut [Option<Known>],
    alloc: Global,
    outcomes: &mut [Outcome],
) -> Result<(), NoMemory>
    ensures calls { OnOk result (calls.new ≡ (settled_answer calls.old outcomes.old).calls) }
    ensures told { OnOk result (outcomes.new ≡ (settled_answer calls.old outcomes.old).told) }
    ensures same { OnErr result ((calls.new ≡ calls.old) × (outcomes.new ≡ outcomes.old)) }
    ensures needs { OnErr result (list_any is_text outcomes.old ≡ true) }
{
    match outcomes {
        [] => Ok(()),
        [first, ..] => settle_outcome(calls, alloc, first),
    }
}

/// Follows the first outcome of an answer.
fn settle_outcome(
    calls: &mut [Option<Known>],
    alloc: Global,
    outcome: &mut Outcome,
) -> Result<(), NoMemory>
    ensures calls { OnOk result (calls.new ≡ (settled calls.old outcome.old).calls) }
    ensures told { OnOk result (outcome.new ≡ (settled calls.old outcome.old).told) }
    ensures same { OnErr result ((calls.new ≡ calls.old) × (outcome.new ≡ outcome.old)) }
    ensures needs { OnErr result (is_text outcome.old ≡ true) }
{
    match outcome {
        Outcome::Sdp { call, side, text } => settle_text(calls, alloc, *call, *side, text),
        _ => Ok(()),
    }
}

/// Notes what an answer muxes, and puts the lines into its text.
fn settle_text(
    calls: &mut [Option<Known>],
    alloc: Global,
    id: CallId,
    side: Side,
    text: &mut Octets,
) -> Result<(), NoMemory>
    ensures calls { OnOk result (calls.new ≡ with_change id (λ k. record k { side = side; muxed = agreed text.old k.offered }) calls.old) }
    ensures text { OnOk result (text.new ≡ with_mux_lines text.old (agreed text.old (offered_by id calls.old))) }
    ensures same { OnErr result ((calls.new ≡ calls.old) × (text.new ≡ text.old)) }
{
    let offered = offered_by(calls, id);
    let answer = match answered(alloc, text.as_slice(), &offered) {
        Err(NoMemory) => return Err(NoMemory),
        Ok(answer) => answer,
    };
    settle_all(calls, id, side, answer.ports);
    put(text, answer.text);
    Ok(())
}

/// Puts a text into the place of another, where there is one.
fn put(text: &mut Octets, other: Option<Octets>)
    ensures { text.new ≡ or_same other text.old }
{
    if let Some(other) = other {
        *text = other;
    }
}
