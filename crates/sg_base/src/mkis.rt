//! Master key identifiers (RFC 3711, 3.1; RFC 4568, 6.1).

ghost use Rattle.std.specs.Prelude.{◌≡◌, ◌<◌, ◌≤◌, ◌^◌, ◌↔◌, length, IsSome, IfSome, IsTrue};
ghost use Rattle.sg_base.specs.Mkis.{IsMki, mki_octets, mki_of, mkis_differ};
ghost use Rattle.sg_base.specs.Octets.{be};

use arrayvec::ArrayVec;
use std::marker::Model;

/// A master key identifier, seen as its value and its length in octets. The length is 1 to 128, and the value fits it.
#[derive(Clone, Copy)]
pub struct Mki {
    value: u128,
    length: u8,
}

impl Model for Mki {
    ghost use Rattle.sg_base.specs.Mkis.{MkiValue, IsMki};

    ghost Value = { MkiValue };

    ghost view = { λ m. record { value = m.value; length = m.length } };

    ghost invariant = { λ m. IsMki m.value m.length };

    ghost inverse = { λ m. record { value = m.value; length = m.length } };
}

// Writes a number over these octets, the highest first.
fn write_number(number: u128, part: &mut [u8])
    ensures { part.new ≡ be number (length part.old) }
{
    let mut rest = number;
    let mut left = part.len();
    while left > 0 {
        left -= 1;
        part[left] = (rest % 256) as u8;
        rest /= 256;
    }
}

impl Mki {
    /// None exactly where the length is 0 or above 128, or the value doesn't fit it.
    pub fn new(value: u128, length: u8) -> Option<Mki>
        ensures valid { IsSome result ↔ IsMki value length }
        ensures value { IfSome result (λ m. m ≡ mki_of value length) }
    {
        if length == 0 || length > 128 {
            return None;
        }
        if let Some(limit) = 256u128.checked_pow(u32::from(length)) {
            if value >= limit {
                return None;
            }
        }
        Some(Mki { value, length })
    }

    /// The value.
    pub fn value(&self) -> u128
        ensures same { result ≡ self.now.value }
        ensures valid { IsMki self.now.value self.now.length }
    {
        self.value
    }

    /// How many octets it has.
    pub fn len(&self) -> u8
        ensures same { result ≡ self.now.length }
        ensures valid { IsMki self.now.value self.now.length }
    {
        self.length
    }

    /// Its octets, the highest first, with leading zeros beyond 16.
    pub fn octets(&self) -> ArrayVec<u8, 128>
        ensures same { result.items ≡ mki_octets self.now }
        ensures sized { length result.items ≡ self.now.length }
    {
        let mut octets = [0; 128];
        let count = usize::from(self.length);
        write_number(self.value, &mut octets[..count]);
        let mut list = ArrayVec::new();
        let _ = list.try_extend_from_slice(&octets[..count]);
        list
    }
}

/// Whether both are there, of one length, with two values: the rule on the keys of one line or message
/// (RFC 4568, 6.1).
pub fn mkis_differ(mki: &Option<Mki>, other: &Option<Mki>) -> bool
    ensures { result ≡ mkis_differ mki.now other.now }
{
    match (mki, other) {
        (Some(mki), Some(other)) => mki.len() == other.len() && mki.value() != other.value(),
        _ => false,
    }
}
