//! Octets as lower-case hexadecimal digits (RFC 4648, section 8). Nothing branches on a digit, since those of
//! a packet are as good as random, and both loops have the form that the compiler makes lanes of.

ghost use Rattle.std.specs.Prelude.{◌≡◌, ◌*◌, ◌<◌, Some, true, is_some, length, IfOk};
ghost use Rattle.std.specs.List.{list_all};
ghost use Rattle.sg_base.specs.Fields.{lower_digit, octets_at};

use crate::{NoMemory, Octets};
use std::alloc::Global;

fn is_lower_digit(digit: u8) -> bool
    ensures { result ≡ is_some (lower_digit digit) }
{
    let is_decimal = digit.wrapping_sub(b'0') < 10;
    let is_letter = digit.wrapping_sub(b'a') < 6;
    is_decimal | is_letter
}

// Whether each octet is a lower-case digit; all of them are looked at.
fn are_lower_digits(text: &[u8]) -> bool
    ensures { result ≡ list_all (λ digit. is_some (lower_digit digit)) text.now }
{
    let mut all = true;
    for digit in text {
        all &= is_lower_digit(*digit);
    }
    all
}

// A digit's value: of a letter its low four bits and 9, since `a` is 0x61.
fn digit_value(digit: u8) -> u8
    requires { is_some (lower_digit digit) ≡ true }
    ensures value { lower_digit digit ≡ Some result }
    ensures four_bits { result < 16 }
{
    digit % 16 + 9 * (digit / 64)
}

// Writes the octets that pairs of digits stand for.
fn write_octets(text: &[u8], octets: &mut [u8])
    requires digits { list_all (λ digit. is_some (lower_digit digit)) text.now ≡ true }
    requires pairs { length text.now ≡ 2 * length octets.old }
    ensures { octets_at text.now ≡ Some octets.new }
{
    'pairs: for i in 0..octets.len() {
        let high = digit_value(text[2 * i]);
        let low = digit_value(text[2 * i + 1]);
        octets[i] = high * 16 + low;
    }
}

/// The octets of pairs of lower-case hexadecimal digits; none for another text.
#[tactic(auto, using(crate::proofs::DigitLemmas::none_of_odd, crate::proofs::DigitLemmas::none_of_others))]
pub fn read_octets(alloc: Global, text: &[u8]) -> Result<Option<Octets>, NoMemory>
    ensures { IfOk result (λ read. read ≡ octets_at text.now) }
{
    if text.len() % 2 != 0 {
        return Ok(None);
    }
    if !are_lower_digits(text) {
        return Ok(None);
    }
    let mut octets = vec![in alloc; 0u8; text.len() / 2]?;
    write_octets(text, octets.as_mut_slice());
    Ok(Some(Octets::from_vec(octets)))
}
