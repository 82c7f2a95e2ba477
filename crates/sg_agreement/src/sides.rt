//! Which media of a description are active on a side.

ghost use Rattle.std.specs.Prelude.{◌≡◌, ◌≤◌, ◌+◌, ◌^◌, length};
ghost use Rattle.std.specs.List.{flat_map, list_any};
ghost use Rattle.sg_agreement.specs.Described.{lacks_address, unaddressed};
ghost use Rattle.sg_agreement.specs.Sides.{is_active, is_of_side};
ghost use Rattle.sg_sdp.specs.Descriptions.{medium_lines};

use sg_base::Side;
use sg_sdp::{Medium, Profile};

/// Whether a profile is one of a side's: those of the secure side promise protection (RFC 3711, 12; RFC 5124).
pub fn is_of_side(side: Side, profile: Profile) -> bool
    ensures { result ≡ is_of_side side profile }
{
    match side {
        Side::Secure => matches!(profile, Profile::Savp | Profile::Savpf),
        Side::Plain => matches!(profile, Profile::Avp | Profile::Avpf),
    }
}

/// Whether a medium is active on a side: it has a port and one of the side's profiles (RFC 3264, 5.1 and 6).
pub fn is_active(side: Side, medium: &Medium) -> bool
    ensures { result ≡ is_active side medium.now }
{
    medium.port != 0 && is_of_side(side, medium.profile)
}

/// Whether some medium is active on a side.
pub fn is_any_active(side: Side, media: &[Medium]) -> bool
    ensures { result ≡ list_any (is_active side) media.now }
{
    media.iter().any(|medium| is_active(side, medium))
}

fn lacks_address(side: Side, medium: &Medium) -> bool
    ensures { result ≡ lacks_address side medium.now }
{
    is_active(side, medium) && medium.address.is_none()
}

/// The number of the `m=` line of the first active medium without an address, where that of the first medium is
/// `first`.
pub fn unaddressed(side: Side, first: u32, media: &[Medium]) -> Option<u32>
    requires { first + length (flat_map medium_lines media.now) ≤ 2 ^ 31 }
    ensures { result ≡ unaddressed side first media.now }
{
    let mut line = first;
    for medium in media {
        if lacks_address(side, medium) {
            return Some(line);
        }
        line += 1 + medium.lines.as_slice().len() as u32;
    }
    None
}
