//! Numbers in octets, the highest octet first.

ghost use Rattle.std.specs.Prelude.{◌≡◌, ◌+◌, ◌≤◌, ◌<◌, ◌^◌, length, take, drop};
ghost use Rattle.sg_base.specs.Octets.{be, number_of};

/// The number in the two octets from `at` on.
pub fn read_u16(octets: &[u8], at: usize) -> u16
    requires { at + 2 ≤ length octets.now }
    ensures { result ≡ number_of (take 2 (drop at octets.now)) }
{
    u16::from(octets[at]) * 256 + u16::from(octets[at + 1])
}

/// The number in the four octets from `at` on.
pub fn read_u32(octets: &[u8], at: usize) -> u32
    requires { at + 4 ≤ length octets.now }
    ensures { result ≡ number_of (take 4 (drop at octets.now)) }
{
    let high = u32::from(octets[at]) * 16777216 + u32::from(octets[at + 1]) * 65536;
    high + u32::from(octets[at + 2]) * 256 + u32::from(octets[at + 3])
}

/// The number as four octets.
pub fn octets_of_u32(number: u32) -> [u8; 4]
    ensures { result ≡ be number 4 }
{
    [
        (number / 16777216) as u8,
        (number / 65536 % 256) as u8,
        (number / 256 % 256) as u8,
        (number % 256) as u8,
    ]
}
