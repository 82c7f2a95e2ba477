//! Octets that are wanting, since they aren't there or don't count.

ghost use Rattle.std.specs.Prelude.{◌≡◌, ◌≤◌, ◌+◌, ◌^◌, length};
ghost use Rattle.sg_pcap.specs.Capture.{counted, too_few};

use crate::CaptureFault;

/// How many of the octets from this offset on count, of a capture of which `most` do.
pub(crate) fn counted(most: u64, at: u64, octets: &[u8]) -> usize
    ensures { result ≡ counted most at octets.now }
{
    (octets.len() as u64).min(most.saturating_sub(at)) as usize
}

/// The fault where these are too few: at the first that doesn't count, or at the end of all.
pub(crate) fn too_few(most: u64, at: u64, octets: &[u8]) -> (u64, CaptureFault)
    requires { at + length octets.now ≤ 2 ^ 31 }
    ensures { result ≡ too_few most at octets.now }
{
    let end = at + octets.len() as u64;
    if end > most {
        return (most, CaptureFault::Length);
    }
    (end, CaptureFault::Cut)
}
