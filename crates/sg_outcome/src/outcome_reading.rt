//! Outcome lines, read.

ghost use Rattle.std.specs.Prelude.{◌≡◌, ◌≤◌, ◌++◌, map, length, IfOk};
ghost use Rattle.sg_lines.specs.Fields.{Gives};
ghost use Rattle.sg_lines.specs.LineOf.{fields_of};
ghost use Rattle.sg_outcome.specs.OutcomeText.{outcome_line};
ghost use Rattle.sg_outcome.specs.OutcomeFields.{FitsOutcome};
ghost use Rattle.sg_outcome.specs.declared.outcomes.Outcome.{Outcome};
ghost use Rattle.sg_outcome.specs.OutcomeOf.{described_by, described_from, dropped_from, ended_by, ended_from, live_by, live_from, made_by, made_from, out_by, out_from, outcome_by, outcome_from, outcome_of, refused_from, some_call_from, unsent_by, unsent_from};

use crate::Outcome;
use crate::causes::{drop_cause, is, refusal};
use crate::outcome_names::{side, why};
use sg_base::{CallId, LINE_MOST, ScriptFault};
use sg_lines::fields::{address, call, hex_octets, number, port};
use sg_lines::reading::fields;
use sg_lines::{ReadLineFault, WORD};
use std::alloc::Global;

#[tactic(auto, unfolding(crate::specs::OutcomeOf::made_from))]
fn made(a: &[u8], b: &[u8], c: &[u8]) -> Result<Outcome, ScriptFault>
    ensures { result ≡ made_from a.now b.now c.now }
{
    let call = call(a)?;
    let slot = number(255, b)? as u8;
    let media = number(255, c)? as u8;
    Ok(Outcome::Made { call, slot, media })
}

#[tactic(auto, unfolding(crate::specs::OutcomeOf::live_from))]
fn live(a: &[u8]) -> Result<Outcome, ScriptFault>
    ensures { result ≡ live_from a.now }
{
    let call = call(a)?;
    Ok(Outcome::Live { call })
}

#[tactic(auto, unfolding(crate::specs::OutcomeOf::described_from))]
fn described(alloc: Global, a: &[u8], b: &[u8], c: &[u8]) -> Result<Outcome, ReadLineFault>
    ensures { Gives result (described_from a.now b.now c.now) }
{
    let call = call(a)?;
    let side = side(b).ok_or(ScriptFault::Word)?;
    let text = hex_octets(alloc, c)?;
    Ok(Outcome::Sdp { call, side, text })
}

/// A call, or a hyphen for none.
#[tactic(auto, unfolding(crate::specs::OutcomeOf::some_call_from))]
fn some_call(text: &[u8]) -> Result<Option<CallId>, ScriptFault>
    ensures { result ≡ some_call_from text.now }
{
    if is(text, b"-") {
        return Ok(None);
    }
    let call = call(text)?;
    Ok(Some(call))
}

#[tactic(auto, unfolding(crate::specs::OutcomeOf::refused_from))]
fn refused(a: &[u8], cause: &[&[u8]]) -> Result<Outcome, ScriptFault>
    ensures { result ≡ refused_from a.now (map (λ x. x.now) cause.now) }
{
    let call = some_call(a)?;
    let cause = refusal(cause)?;
    Ok(Outcome::Refused { call, cause })
}

#[tactic(auto, unfolding(crate::specs::OutcomeOf::ended_from))]
fn ended(a: &[u8], b: &[u8], c: &[u8], d: &[u8]) -> Result<Outcome, ScriptFault>
    ensures { result ≡ ended_from a.now b.now c.now d.now }
{
    let call = call(a)?;
    let slot = number(255, b)? as u8;
    let media = number(255, c)? as u8;
    let why = why(d).ok_or(ScriptFault::Word)?;
    Ok(Outcome::Ended {
        call,
        slot,
        media,
        why,
    })
}

#[tactic(auto, unfolding(crate::specs::OutcomeOf::out_from))]
fn out(alloc: Global, a: &[u8], b: &[u8], c: &[u8]) -> Result<Outcome, ReadLineFault>
    ensures { Gives result (out_from a.now b.now c.now) }
{
    let port = port(a)?;
    let to = address(b)?;
    let octets = hex_octets(alloc, c)?;
    Ok(Outcome::Out { port, to, octets })
}

#[tactic(auto, unfolding(crate::specs::OutcomeOf::dropped_from))]
fn dropped(a: &[u8], cause: &[&[u8]]) -> Result<Outcome, ScriptFault>
    ensures { result ≡ dropped_from a.now (map (λ x. x.now) cause.now) }
{
    let port = port(a)?;
    let cause = drop_cause(cause)?;
    Ok(Outcome::Dropped { port, cause })
}

#[tactic(auto, unfolding(crate::specs::OutcomeOf::unsent_from))]
fn unsent(a: &[u8], b: &[u8]) -> Result<Outcome, ScriptFault>
    ensures { result ≡ unsent_from a.now b.now }
{
    let port = port(a)?;
    let to = address(b)?;
    Ok(Outcome::Unsent { port, to })
}

fn made_of(a: &[u8], more: &[&[u8]]) -> Result<Outcome, ScriptFault>
    ensures { result ≡ made_by a.now (map (λ x. x.now) more.now) }
{
    match *more {
        [b, c] => made(a, b, c),
        _ => Err(ScriptFault::Word),
    }
}

fn live_of(a: &[u8], more: &[&[u8]]) -> Result<Outcome, ScriptFault>
    ensures { result ≡ live_by a.now (map (λ x. x.now) more.now) }
{
    match *more {
        [] => live(a),
        _ => Err(ScriptFault::Word),
    }
}

fn described_of(alloc: Global, a: &[u8], more: &[&[u8]]) -> Result<Outcome, ReadLineFault>
    ensures { Gives result (described_by a.now (map (λ x. x.now) more.now)) }
{
    match *more {
        [b, c] => described(alloc, a, b, c),
        _ => Err(WORD),
    }
}

fn ended_of(a: &[u8], more: &[&[u8]]) -> Result<Outcome, ScriptFault>
    ensures { result ≡ ended_by a.now (map (λ x. x.now) more.now) }
{
    match *more {
        [b, c, d] => ended(a, b, c, d),
        _ => Err(ScriptFault::Word),
    }
}

fn out_of(alloc: Global, a: &[u8], more: &[&[u8]]) -> Result<Outcome, ReadLineFault>
    ensures { Gives result (out_by a.now (map (λ x. x.now) more.now)) }
{
    match *more {
        [b, c] => out(alloc, a, b, c),
        _ => Err(WORD),
    }
}

fn unsent_of(a: &[u8], more: &[&[u8]]) -> Result<Outcome, ScriptFault>
    ensures { result ≡ unsent_by a.now (map (λ x. x.now) more.now) }
{
    match *more {
        [b] => unsent(a, b),
        _ => Err(ScriptFault::Word),
    }
}

/// What fields gave, as a line gives it.
fn of_line(outcome: Result<Outcome, ScriptFault>) -> Result<Outcome, ReadLineFault>
    ensures { Gives result outcome }
{
    match outcome {
        Ok(outcome) => Ok(outcome),
        Err(fault) => Err(ReadLineFault::Script(fault)),
    }
}

#[tactic(auto, unfolding(crate::specs::OutcomeOf::outcome_by))]
fn outcome_of_word(
    alloc: Global,
    word: &[u8],
    a: &[u8],
    more: &[&[u8]],
) -> Result<Outcome, ReadLineFault>
    ensures { Gives result (outcome_by word.now a.now (map (λ x. x.now) more.now)) }
{
    if is(word, b"made") {
        return of_line(made_of(a, more));
    }
    if is(word, b"live") {
        return of_line(live_of(a, more));
    }
    if is(word, b"sdp") {
        return described_of(alloc, a, more);
    }
    if is(word, b"refused") {
        return of_line(refused(a, more));
    }
    if is(word, b"ended") {
        return of_line(ended_of(a, more));
    }
    if is(word, b"out") {
        return out_of(alloc, a, more);
    }
    if is(word, b"drop") {
        return of_line(dropped(a, more));
    }
    if is(word, b"unsent") {
        return of_line(unsent_of(a, more));
    }
    Err(WORD)
}

fn outcome_of_fields(alloc: Global, fields: &[&[u8]]) -> Result<Outcome, ReadLineFault>
    ensures { Gives result (outcome_from (map (λ x. x.now) fields.now)) }
{
    match fields {
        [word, a, more @ ..] => outcome_of_word(alloc, word, a, more),
        _ => Err(WORD),
    }
}

/// The outcome of a line without its end.
fn body_outcome(alloc: Global, body: &[u8]) -> Result<Outcome, ReadLineFault>
    ensures { Gives result (outcome_from (fields_of body.now)) }
{
    let fields = fields(body);
    outcome_of_fields(alloc, fields.as_slice())
}

#[tactic(auto, unfolding(crate::specs::OutcomeOf::outcome_of))]
fn outcome(alloc: Global, octets: &[u8]) -> Result<Outcome, ReadLineFault>
    ensures { Gives result (outcome_of octets.now) }
{
    if octets.len() > LINE_MOST {
        return Err(ReadLineFault::Script(ScriptFault::Length));
    }
    let Some((b'\n', body)) = octets.split_last() else {
        return Err(ReadLineFault::Script(ScriptFault::Unended));
    };
    body_outcome(alloc, body)
}

/// The outcome that the line is, its end among the octets. The first fault is Length above 70,000 octets,
/// Unended without a line end, Word for an unknown word or another number of fields than it has, and
/// then that of the first field from the left; a cause is judged where it stands.
pub fn read_outcome(alloc: Global, octets: &[u8]) -> Result<Outcome, ReadLineFault>
    ensures exact { Gives result (outcome_of octets.now) }
    // What is read is spelled so.
    ensures found { IfOk result (λ o. FitsOutcome o × (octets.now ≡ outcome_line o)) }
    // What is spelled so is read, unless out of memory.
    ensures only { (o : Outcome) → FitsOutcome o → length (outcome_line o) ≤ 70000 → octets.now ≡ outcome_line o → Gives result (Ok o) }
{
    outcome(alloc, octets)
}
