//! Fields of texts that several grammars share. Each value has one spelling.

ghost use Rattle.std.specs.Prelude.{◌≡◌, ◌≢◌, ◌≤◌, ◌<◌, ◌-◌, ◌^◌, length, slice_index, option_map, IfSome};
ghost use Rattle.sg_base.specs.Fields.{address_at, cut_at, four_at, number_at};

use crate::Address;
use itoa::Buffer;
use std::str;

/// The most digits of which every number fits 64 bits.
const SHORT_MOST: usize = 19;

// The number that these digits spell, of which no zero is the first.
fn read_digits(text: &[u8]) -> Option<u128>
    requires few { length text.now ≤ 19 }
    requires some { 0 < length text.now }
    requires lead { slice_index text.now 0 ≢ 48 }
    ensures { result ≡ number_at (2 ^ 128 - 1) text.now }
{
    let mut number = 0u64;
    'digits: for octet in text {
        let digit = octet.wrapping_sub(b'0');
        if digit > 9 {
            return None;
        }
        number = number * 10 + u64::from(digit);
    }
    Some(u128::from(number))
}

// The number that a text of at most 19 octets spells.
fn read_short(text: &[u8]) -> Option<u128>
    requires { length text.now ≤ 19 }
    ensures { result ≡ number_at (2 ^ 128 - 1) text.now }
{
    if text.is_empty() {
        return None;
    }
    if text[0] != b'0' {
        return read_digits(text);
    }
    if text.len() > 1 {
        return None;
    }
    Some(0)
}

// The number that a text of any length spells.
fn read_long(text: &[u8]) -> Option<u128>
    ensures { result ≡ number_at (2 ^ 128 - 1) text.now }
{
    let Ok(digits) = str::from_utf8(text) else {
        return None;
    };
    let Ok(number) = digits.parse::<u128>() else {
        return None;
    };
    // Its one spelling is the printed one.
    if Buffer::new().format(number).as_bytes() != text {
        return None;
    }
    Some(number)
}

// The number of at most 128 bits that a text spells.
fn read_wide(text: &[u8]) -> Option<u128>
    ensures { result ≡ number_at (2 ^ 128 - 1) text.now }
{
    if text.len() <= SHORT_MOST {
        return read_short(text);
    }
    read_long(text)
}

/// A decimal number of at most `most`, without a sign or a leading zero.
pub fn read_number(most: u128, text: &[u8]) -> Option<u128>
    ensures value { result ≡ number_at most text.now }
    ensures most { IfSome result (λ n. n ≤ most) }
{
    let number = read_wide(text)?;
    if number > most {
        return None;
    }
    Some(number)
}

/// What stands before the first such octet, and what stands behind it.
pub fn cut(octet: u8, text: &[u8]) -> Option<(&[u8], &[u8])>
    ensures { option_map (λ p. (p.0.now, p.1.now)) result ≡ cut_at octet text.now }
{
    let place = text.iter().position(|other| *other == octet)?;
    Some((&text[..place], &text[place + 1..]))
}

/// Four numbers of at most 255 joined by full stops, as an IPv4 address is written.
#[tactic(auto, unfolding(crate::specs::Fields::four_at))]
pub fn read_four(text: &[u8]) -> Option<[u8; 4]>
    ensures { result ≡ four_at text.now }
{
    let (first, rest) = cut(b'.', text)?;
    let (second, rest) = cut(b'.', rest)?;
    let (third, fourth) = cut(b'.', rest)?;
    let first = read_number(255, first)? as u8;
    let second = read_number(255, second)? as u8;
    let third = read_number(255, third)? as u8;
    let fourth = read_number(255, fourth)? as u8;
    Some([first, second, third, fourth])
}

/// An address as four numbers, a colon and a port.
#[tactic(auto, unfolding(crate::specs::Fields::address_at))]
pub fn read_address(text: &[u8]) -> Option<Address>
    ensures { result ≡ address_at text.now }
{
    let (ip, port) = cut(b':', text)?;
    let ip = read_four(ip)?;
    let port = read_number(65535, port)? as u16;
    Some(Address { ip, port })
}
