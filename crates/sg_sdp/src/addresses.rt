//! The addresses of media.

ghost use Rattle.std.specs.Prelude.{◌≡◌, map};
ghost use Rattle.sg_sdp.specs.Addresses.{address_in, first_address, with_address};

use crate::form::connection;
use crate::medium::Medium;
use sg_base::Octets;

// The address of a `c=` line.
#[tactic(auto, unfolding(crate::specs::Addresses::address_in))]
fn address_in(line: &[u8]) -> Option<[u8; 4]>
    ensures { result ≡ address_in line.now }
{
    connection(line.strip_prefix(b"c=".as_slice())?)
}

// The address of the first `c=` line.
#[tactic(auto, unfolding(crate::specs::Addresses::first_address))]
pub fn first_address(lines: &[Octets]) -> Option<[u8; 4]>
    ensures { result ≡ first_address lines.now }
{
    for line in lines {
        if let Some(address) = address_in(line.as_slice()) {
            return Some(address);
        }
    }
    None
}

// Each medium gets the address of its own first `c=` line, else that of the session part.
pub fn address_all(media: &mut [Medium], session: Option<[u8; 4]>)
    ensures { media.new ≡ map (with_address session) media.old }
{
    for medium in media {
        medium.address = first_address(medium.lines.as_slice()).or(session);
    }
}
