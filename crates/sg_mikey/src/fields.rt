//! Fields of a message: each reader answers the value and the octets behind it.

ghost use Rattle.std.specs.Prelude.{◌≡◌, [], length, IfOk};
ghost use Rattle.sg_base.specs.declared.MikeyFault.TheVariants as faults;
ghost use Rattle.sg_mikey.specs.declared.faults.Halt.TheVariants.{At};
ghost use Rattle.sg_mikey.specs.Reading.{Gives, stop, octet_at, up_to_at, octets_at, number_at, sized_at, next_at, is_number, item_type_at, version_at, verify_bit_at};

use crate::faults::{Halt, Stop};
use sg_base::{MikeyFault, read_u16, read_u32};

// The fault that shows where these octets are left.
pub fn halt(octets: &[u8], fault: MikeyFault) -> Halt
    ensures { result ≡ At (stop octets.now fault) }
{
    Halt::At(Stop {
        left: octets.len(),
        fault,
    })
}

// The message ends too early.
pub fn cut() -> Halt
    ensures { result ≡ At (stop [] faults.Cut) }
{
    halt(&[], MikeyFault::Cut)
}

// An octet.
#[tactic(auto, unfolding(crate::specs::Reading::octet_at))]
pub fn read_octet(octets: &[u8]) -> Result<(u8, &[u8]), Halt>
    ensures { Gives (λ x. (x.0, x.1.now)) result (octet_at octets.now) }
{
    match octets {
        [] => Err(cut()),
        [octet, rest @ ..] => Ok((*octet, rest)),
    }
}

// An octet that is at most this.
#[tactic(auto, unfolding(crate::specs::Reading::up_to_at))]
pub fn read_up_to(octets: &[u8], most: usize, fault: MikeyFault) -> Result<(u8, &[u8]), Halt>
    ensures { Gives (λ x. (x.0, x.1.now)) result (up_to_at most fault octets.now) }
{
    match octets {
        [] => Err(cut()),
        [octet, rest @ ..] if usize::from(*octet) <= most => Ok((*octet, rest)),
        [_, ..] => Err(halt(octets, fault)),
    }
}

// So many octets.
#[tactic(auto, unfolding(crate::specs::Reading::octets_at))]
pub fn read_octets(octets: &[u8], count: usize) -> Result<(&[u8], &[u8]), Halt>
    ensures value { Gives (λ x. (x.0.now, x.1.now)) result (octets_at count octets.now) }
    ensures sized { IfOk result (λ x. length x.0.now ≡ count) }
{
    if octets.len() < count {
        return Err(cut());
    }
    Ok(octets.split_at(count))
}

// A number of two octets.
#[tactic(auto, unfolding(crate::specs::Reading::number_at))]
pub fn read_two(octets: &[u8]) -> Result<(u16, &[u8]), Halt>
    ensures { Gives (λ x. (x.0, x.1.now)) result (number_at 2 octets.now) }
{
    if octets.len() < 2 {
        return Err(cut());
    }
    Ok((read_u16(octets, 0), &octets[2..]))
}

// A number of four octets.
#[tactic(auto, unfolding(crate::specs::Reading::number_at))]
pub fn read_four(octets: &[u8]) -> Result<(u32, &[u8]), Halt>
    ensures { Gives (λ x. (x.0, x.1.now)) result (number_at 4 octets.now) }
{
    if octets.len() < 4 {
        return Err(cut());
    }
    Ok((read_u32(octets, 0), &octets[4..]))
}

// As many octets as two octets say.
#[tactic(auto, unfolding(crate::specs::Reading::sized_at))]
pub fn read_sized(octets: &[u8]) -> Result<(&[u8], &[u8]), Halt>
    ensures { Gives (λ x. (x.0.now, x.1.now)) result (sized_at octets.now) }
{
    let (size, rest) = read_two(octets)?;
    read_octets(rest, usize::from(size))
}

// Whether a chain can name a payload so.
fn is_known(number: u8) -> bool
    ensures { result ≡ is_number number }
{
    matches!(number, 0 | 1 | 5 | 6 | 9 | 10 | 11 | 21)
}

// The next payload's number.
#[tactic(auto, unfolding(crate::specs::Reading::next_at))]
pub fn read_next(octets: &[u8]) -> Result<(u8, &[u8]), Halt>
    ensures { Gives (λ x. (x.0, x.1.now)) result (next_at octets.now) }
{
    match octets {
        [] => Err(cut()),
        [octet, rest @ ..] if is_known(*octet) => Ok((*octet, rest)),
        [_, ..] => Err(halt(octets, MikeyFault::Payload)),
    }
}

// The type of a policy's item, where the policy has room for a length behind it.
#[tactic(auto, unfolding(crate::specs::Reading::item_type_at))]
pub fn read_item_type(octets: &[u8], room: usize) -> Result<(u8, &[u8]), Halt>
    ensures { Gives (λ x. (x.0, x.1.now)) result (item_type_at room octets.now) }
{
    match octets {
        [] => Err(cut()),
        [_, ..] if room < 2 => Err(halt(octets, MikeyFault::Value)),
        [octet, rest @ ..] => Ok((*octet, rest)),
    }
}

// The version, of which there is one.
#[tactic(auto, unfolding(crate::specs::Reading::version_at))]
pub fn read_version(octets: &[u8]) -> Result<(u8, &[u8]), Halt>
    ensures { Gives (λ x. (x.0, x.1.now)) result (version_at octets.now) }
{
    match octets {
        [] => Err(cut()),
        [1, rest @ ..] => Ok((1, rest)),
        [_, ..] => Err(halt(octets, MikeyFault::Version)),
    }
}

// The V bit and the PRF, of which there is one.
#[tactic(auto, unfolding(crate::specs::Reading::verify_bit_at))]
pub fn read_verify_bit(octets: &[u8]) -> Result<(bool, &[u8]), Halt>
    ensures { Gives (λ x. (x.0, x.1.now)) result (verify_bit_at octets.now) }
{
    match octets {
        [] => Err(cut()),
        [0, rest @ ..] => Ok((false, rest)),
        [128, rest @ ..] => Ok((true, rest)),
        [_, ..] => Err(halt(octets, MikeyFault::Value)),
    }
}
