//! Causes in outcome lines, read from their fields.

ghost use Rattle.std.specs.Prelude.{◌≡◌, bytes_eq, map};
ghost use Rattle.sg_outcome.specs.OutcomeOf.{cs_from, drop_cause_from, fault_with_numbers_from, key_mgmt_from, key_reused_from, key_spent_from, mikey_from, one_fault_from, one_number_from, psk_from, psk_skew_from, refusal_from, sdes_from, sdp_from, signed_at, skew_from, tick_back_from, two_numbers_from};

use crate::outcome_names::{
    cs_fault, mikey_fault, plain_drop_cause, plain_psk_fault, plain_refusal, sdes_fault, sdp_fault,
};
use sg_base::{DropCause, PskFault, Refusal, ScriptFault, read_number};
use sg_lines::fields::number;

const BYTE_MOST: u128 = 255;

const WORD_MOST: u128 = 4294967295;

const LONG_MOST: u128 = 18446744073709551615;

/// Whether the text is the word.
pub(crate) fn is(text: &[u8], word: &[u8]) -> bool
    ensures { result ≡ bytes_eq text.now word.now }
{
    text == word
}

/// A number of 64 bits, with a minus below 0 and no other sign, and without a leading zero.
#[tactic(auto, unfolding(crate::specs::OutcomeOf::signed_at))]
fn signed(text: &[u8]) -> Option<i64>
    ensures { result ≡ signed_at text.now }
{
    match text {
        [] => None,
        [b'-', rest @ ..] => {
            let number = read_number(9223372036854775808, rest)?;
            if number == 0 {
                return None;
            }
            Some((-(number as i128)) as i64)
        }
        _ => {
            let number = read_number(9223372036854775807, text)?;
            Some(number as i64)
        }
    }
}

#[tactic(auto, unfolding(crate::specs::OutcomeOf::key_spent_from))]
fn key_spent(name: &[u8], a: &[u8], b: &[u8]) -> Result<DropCause, ScriptFault>
    ensures { result ≡ key_spent_from name.now a.now b.now }
{
    if !is(name, b"KeySpent") {
        return Err(ScriptFault::Word);
    }
    let spent = number(WORD_MOST, a)? as u32;
    let count = number(LONG_MOST, b)? as u64;
    Ok(DropCause::KeySpent {
        number: spent,
        count,
    })
}

/// The cause of a dropped datagram.
pub(crate) fn drop_cause(fields: &[&[u8]]) -> Result<DropCause, ScriptFault>
    ensures { result ≡ drop_cause_from (map (λ x. x.now) fields.now) }
{
    match *fields {
        [name] => plain_drop_cause(name).ok_or(ScriptFault::Word),
        [name, a, b] => key_spent(name, a, b),
        _ => Err(ScriptFault::Word),
    }
}

#[tactic(auto, unfolding(crate::specs::OutcomeOf::skew_from))]
fn skew(name: &[u8], a: &[u8], b: &[u8]) -> Result<PskFault, ScriptFault>
    ensures { result ≡ skew_from name.now a.now b.now }
{
    if !is(name, b"Skew") {
        return Err(ScriptFault::Word);
    }
    let stamp = signed(a).ok_or(ScriptFault::Number)?;
    let now = number(LONG_MOST, b)? as u64;
    Ok(PskFault::Skew { stamp, now })
}

#[tactic(auto, unfolding(crate::specs::OutcomeOf::key_mgmt_from))]
fn key_mgmt(a: &[u8]) -> Result<Refusal, ScriptFault>
    ensures { result ≡ key_mgmt_from a.now }
{
    let medium = number(BYTE_MOST, a)? as u8;
    Ok(Refusal::KeyMgmt { medium })
}

#[tactic(auto, unfolding(crate::specs::OutcomeOf::key_reused_from))]
fn key_reused(a: &[u8]) -> Result<Refusal, ScriptFault>
    ensures { result ≡ key_reused_from a.now }
{
    let reused = number(WORD_MOST, a)? as u32;
    Ok(Refusal::KeyReused { number: reused })
}

#[tactic(auto, unfolding(crate::specs::OutcomeOf::tick_back_from))]
fn tick_back(a: &[u8]) -> Result<Refusal, ScriptFault>
    ensures { result ≡ tick_back_from a.now }
{
    let last = number(LONG_MOST, a)? as u64;
    Ok(Refusal::TickBack { last })
}

#[tactic(auto, unfolding(crate::specs::OutcomeOf::one_number_from))]
fn one_number(name: &[u8], a: &[u8]) -> Result<Refusal, ScriptFault>
    ensures { result ≡ one_number_from name.now a.now }
{
    if is(name, b"KeyMgmt") {
        return key_mgmt(a);
    }
    if is(name, b"KeyReused") {
        return key_reused(a);
    }
    if is(name, b"TickBack") {
        return tick_back(a);
    }
    Err(ScriptFault::Word)
}

#[tactic(auto, unfolding(crate::specs::OutcomeOf::sdp_from))]
fn sdp(a: &[u8], b: &[u8]) -> Result<Refusal, ScriptFault>
    ensures { result ≡ sdp_from a.now b.now }
{
    let line = number(WORD_MOST, a)? as u32;
    let fault = sdp_fault(b).ok_or(ScriptFault::Word)?;
    Ok(Refusal::Sdp { line, fault })
}

#[tactic(auto, unfolding(crate::specs::OutcomeOf::sdes_from))]
fn sdes(a: &[u8], b: &[u8]) -> Result<Refusal, ScriptFault>
    ensures { result ≡ sdes_from a.now b.now }
{
    let medium = number(BYTE_MOST, a)? as u8;
    let fault = sdes_fault(b).ok_or(ScriptFault::Word)?;
    Ok(Refusal::Sdes { medium, fault })
}

#[tactic(auto, unfolding(crate::specs::OutcomeOf::psk_from))]
fn psk(a: &[u8], b: &[u8]) -> Result<Refusal, ScriptFault>
    ensures { result ≡ psk_from a.now b.now }
{
    let medium = number(BYTE_MOST, a)? as u8;
    let fault = plain_psk_fault(b).ok_or(ScriptFault::Word)?;
    Ok(Refusal::Psk { medium, fault })
}

#[tactic(auto, unfolding(crate::specs::OutcomeOf::cs_from))]
fn cs(a: &[u8], b: &[u8]) -> Result<Refusal, ScriptFault>
    ensures { result ≡ cs_from a.now b.now }
{
    let medium = number(BYTE_MOST, a)? as u8;
    let fault = cs_fault(b).ok_or(ScriptFault::Word)?;
    Ok(Refusal::Cs { medium, fault })
}

#[tactic(auto, unfolding(crate::specs::OutcomeOf::one_fault_from))]
fn one_fault(name: &[u8], a: &[u8], b: &[u8]) -> Result<Refusal, ScriptFault>
    ensures { result ≡ one_fault_from name.now a.now b.now }
{
    if is(name, b"Sdp") {
        return sdp(a, b);
    }
    if is(name, b"Sdes") {
        return sdes(a, b);
    }
    if is(name, b"Psk") {
        return psk(a, b);
    }
    if is(name, b"Cs") {
        return cs(a, b);
    }
    Err(ScriptFault::Word)
}

#[tactic(auto, unfolding(crate::specs::OutcomeOf::mikey_from))]
fn mikey(a: &[u8], b: &[u8], c: &[u8]) -> Result<Refusal, ScriptFault>
    ensures { result ≡ mikey_from a.now b.now c.now }
{
    let medium = number(BYTE_MOST, a)? as u8;
    let offset = number(WORD_MOST, b)? as u32;
    let fault = mikey_fault(c).ok_or(ScriptFault::Word)?;
    Ok(Refusal::Mikey {
        medium,
        offset,
        fault,
    })
}

#[tactic(auto, unfolding(crate::specs::OutcomeOf::two_numbers_from))]
fn two_numbers(name: &[u8], a: &[u8], b: &[u8], c: &[u8]) -> Result<Refusal, ScriptFault>
    ensures { result ≡ two_numbers_from name.now a.now b.now c.now }
{
    if is(name, b"Mikey") {
        return mikey(a, b, c);
    }
    Err(ScriptFault::Word)
}

#[tactic(auto, unfolding(crate::specs::OutcomeOf::psk_skew_from))]
fn psk_skew(a: &[u8], b: &[u8], c: &[u8], d: &[u8]) -> Result<Refusal, ScriptFault>
    ensures { result ≡ psk_skew_from a.now b.now c.now d.now }
{
    let medium = number(BYTE_MOST, a)? as u8;
    let fault = skew(b, c, d)?;
    Ok(Refusal::Psk { medium, fault })
}

#[tactic(auto, unfolding(crate::specs::OutcomeOf::fault_with_numbers_from))]
fn fault_with_numbers(
    name: &[u8],
    a: &[u8],
    b: &[u8],
    c: &[u8],
    d: &[u8],
) -> Result<Refusal, ScriptFault>
    ensures { result ≡ fault_with_numbers_from name.now a.now b.now c.now d.now }
{
    if is(name, b"Psk") {
        return psk_skew(a, b, c, d);
    }
    Err(ScriptFault::Word)
}

/// The cause of a refused signal.
pub(crate) fn refusal(fields: &[&[u8]]) -> Result<Refusal, ScriptFault>
    ensures { result ≡ refusal_from (map (λ x. x.now) fields.now) }
{
    match *fields {
        [name] => plain_refusal(name).ok_or(ScriptFault::Word),
        [name, a] => one_number(name, a),
        [name, a, b] => one_fault(name, a, b),
        [name, a, b, c] => two_numbers(name, a, b, c),
        [name, a, b, c, d] => fault_with_numbers(name, a, b, c, d),
        _ => Err(ScriptFault::Word),
    }
}
