//! The fields of script lines, of which some are those of outcome lines too. A reader answers the first
//! fault of its field.

ghost use Rattle.std.specs.Prelude.{◌≡◌, ◌≤◌, bytes_eq, length, IfOk};
ghost use Rattle.std.specs.List.{list_all};
ghost use Rattle.sg_base.specs.Identities.{is_printing};
ghost use Rattle.sg_lines.specs.Fields.{Gives, address_from, call_from, hex_from, identity_from, key_from, noise_from, number_from, octets_from, port_from, rollover_from, window_from};

use crate::ReadLineFault;
use sg_base::{
    Address, CallId, Identity, MasterKey, NOISE, Noise304, Octets, ScriptFault, WINDOW_LEAST,
    WINDOW_MOST, cut, read_address, read_number, read_octets, read_suite,
};
use std::alloc::Global;

/// Whether the text is the word.
pub(crate) fn is(text: &[u8], word: &[u8]) -> bool
    ensures { result ≡ bytes_eq text.now word.now }
{
    text == word
}

/// A number up to the most, without a leading zero.
pub fn number(most: u128, text: &[u8]) -> Result<u128, ScriptFault>
    ensures value { result ≡ number_from most text.now }
    ensures most { IfOk result (λ n. n ≤ most) }
{
    read_number(most, text).ok_or(ScriptFault::Number)
}

/// The number of a call.
#[tactic(auto, unfolding(crate::specs::Fields::call_from))]
pub fn call(text: &[u8]) -> Result<CallId, ScriptFault>
    ensures { result ≡ call_from text.now }
{
    let number = number(4294967295, text)?;
    Ok(CallId(number as u32))
}

/// A port.
pub fn port(text: &[u8]) -> Result<u16, ScriptFault>
    ensures { result ≡ port_from text.now }
{
    let number = number(65535, text)?;
    Ok(number as u16)
}

/// Four numbers with points between them, a colon and a port.
pub fn address(text: &[u8]) -> Result<Address, ScriptFault>
    ensures { result ≡ address_from text.now }
{
    read_address(text).ok_or(ScriptFault::Number)
}

/// Pairs of digits, one pair or more, or a hyphen for no octets.
#[tactic(auto, unfolding(crate::specs::Fields::hex_from))]
pub fn hex_octets(alloc: Global, text: &[u8]) -> Result<Octets, ReadLineFault>
    ensures { Gives result (hex_from text.now) }
{
    if is(text, b"-") {
        return Ok(Octets::from_vec(Vec::new(alloc)));
    }
    if text.is_empty() {
        return Err(ReadLineFault::Script(ScriptFault::Hex));
    }
    let octets = read_octets(alloc, text)?.ok_or(ScriptFault::Hex)?;
    Ok(octets)
}

/// Octets in hexadecimal, whose number is from the least to the most.
#[tactic(auto, unfolding(crate::specs::Fields::octets_from))]
pub(crate) fn octets(
    alloc: Global,
    least: usize,
    most: usize,
    text: &[u8],
) -> Result<Octets, ReadLineFault>
    ensures value { Gives result (octets_from least most text.now) }
    ensures within { IfOk result (λ o. (least ≤ length o) × (length o ≤ most)) }
{
    let octets = hex_octets(alloc, text)?;
    let count = octets.as_slice().len();
    if count < least || count > most {
        return Err(ReadLineFault::Script(ScriptFault::Length));
    }
    Ok(octets)
}

/// A rollover counter in 8 digits.
#[tactic(auto, unfolding(crate::specs::Fields::rollover_from))]
pub(crate) fn rollover(alloc: Global, text: &[u8]) -> Result<u32, ReadLineFault>
    ensures { Gives result (rollover_from text.now) }
{
    let octets = read_octets(alloc, text)?.ok_or(ScriptFault::Hex)?;
    if octets.as_slice().len() != 4 {
        return Err(ReadLineFault::Script(ScriptFault::Hex));
    }
    let mut word = [0; 4];
    word.copy_from_slice(octets.as_slice());
    Ok(u32::from_be_bytes(word))
}

/// A replay window of 64 to 1,024.
#[tactic(auto, unfolding(crate::specs::Fields::window_from))]
pub(crate) fn window(text: &[u8]) -> Result<u16, ScriptFault>
    ensures { result ≡ window_from text.now }
{
    let window = number(WINDOW_MOST as u128, text)?;
    if window < WINDOW_LEAST as u128 {
        return Err(ScriptFault::Number);
    }
    Ok(window as u16)
}

/// Noise of 304 octets, or none where it is to be drawn.
#[tactic(auto, unfolding(crate::specs::Fields::noise_from))]
pub(crate) fn noise(alloc: Global, text: &[u8]) -> Result<Option<Noise304>, ReadLineFault>
    ensures { Gives result (noise_from text.now) }
{
    if is(text, b"-") {
        return Ok(None);
    }
    let octets = octets(alloc, NOISE, NOISE, text)?;
    let mut noise = [0; NOISE];
    noise.copy_from_slice(octets.as_slice());
    Ok(Some(Noise304(noise)))
}

/// A suite's name, a colon, and the octets of its key and salt.
#[tactic(auto, unfolding(crate::specs::Fields::key_from))]
pub(crate) fn key(alloc: Global, text: &[u8]) -> Result<MasterKey, ReadLineFault>
    ensures { Gives result (key_from text.now) }
{
    let (name, hex) = cut(b':', text).ok_or(ScriptFault::Word)?;
    let suite = read_suite(name).ok_or(ScriptFault::Word)?;
    let count = suite.key_len() + suite.salt_len();
    let octets = octets(alloc, count, count, hex)?;
    let key = MasterKey::new(suite, octets.as_slice()).ok_or(ScriptFault::Length)?;
    Ok(key)
}

fn all_printing(text: &[u8]) -> bool
    ensures { result ≡ list_all is_printing text.now }
{
    text.iter().all(|octet| 0x21 <= *octet && *octet <= 0x7e)
}

/// The name of a peer.
#[tactic(auto, unfolding(crate::specs::Fields::identity_from))]
pub(crate) fn identity(text: &[u8]) -> Result<Identity, ScriptFault>
    ensures { result ≡ identity_from text.now }
{
    if !all_printing(text) {
        return Err(ScriptFault::Word);
    }
    Identity::new(text).ok_or(ScriptFault::Length)
}
