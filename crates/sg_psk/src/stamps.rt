//! Time stamps (RFC 3830, 6.6).

ghost use Rattle.std.specs.Prelude.{◌≡◌, ◌≤◌, ◌<◌, ◌+◌, ◌*◌, ◌^◌};
ghost use Rattle.sg_psk.specs.Stamps.{is_skewed, moment_of, since_1900, stamp_of};

use sg_base::{octets_of_u32, read_u32};

/// Milliseconds from 1900 to 1970.
const EPOCH: u64 = 2_208_988_800_000;

/// How far a stamp may be from the moment, in milliseconds (RFC 3830, 5.4).
const SKEW_MOST: u64 = 300_000;

/// The stamp of a moment in milliseconds since 1970.
#[tactic(auto, unfolding(crate::specs::Stamps::stamp_of))]
pub(crate) fn stamp_of(now: u64) -> [u8; 8]
    requires { now ≤ 2085978495999 }
    ensures { result ≡ stamp_of now }
{
    let [a, b, c, d] = octets_of_u32((now / 1000 + 2_208_988_800) as u32);
    let [e, f, g, h] = octets_of_u32(((now % 1000) * 4_294_967_296 / 1000) as u32);
    [a, b, c, d, e, f, g, h]
}

// A stamp in milliseconds since 1900, rounded down.
fn since_1900(stamp: &[u8; 8]) -> u64
    ensures value { result ≡ since_1900 stamp.now }
    ensures most { result < 2 ^ 42 }
{
    let seconds = u64::from(read_u32(stamp, 0));
    let fraction = u64::from(read_u32(stamp, 4));
    seconds * 1000 + fraction * 1000 / 4_294_967_296
}

/// The moment that a stamp reads as, in milliseconds since 1970.
#[tactic(auto, unfolding(crate::specs::Stamps::moment_of))]
pub(crate) fn moment_of(stamp: &[u8; 8]) -> i64
    ensures { result ≡ moment_of stamp.now }
{
    since_1900(stamp) as i64 - EPOCH as i64
}

/// Whether a stamp is more than five minutes from a moment, before it or after it.
pub(crate) fn is_skewed(stamp: &[u8; 8], now: u64) -> bool
    requires { now ≤ 2085978495999 }
    ensures { result ≡ is_skewed stamp.now now }
{
    since_1900(stamp).abs_diff(now + EPOCH) > SKEW_MOST
}
