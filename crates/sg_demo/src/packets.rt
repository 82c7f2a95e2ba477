//! Packets and datagrams in pads.

ghost use Rattle.std.specs.Prelude.{◌≡◌, ◌≤◌, length, map, option_to_list, IfOk};
ghost use Rattle.sg_base.specs.Octets.{be};
ghost use Rattle.sg_demo.specs.Packets.{packet, with_last_bit_changed};

use sg_base::{NoMemory, Pad, octets_of_u32};
use std::alloc::Global;

/// The plain packet of this number of a source.
#[tactic(auto, unfolding(crate::specs::Packets::packet_of))]
pub fn packet(alloc: Global, ssrc: u32, number: u32) -> Result<Pad, NoMemory>
    ensures packet { IfOk result (λ pad. pad ≡ packet ssrc number) }
    ensures size { IfOk result (λ pad. length pad ≡ 172) }
{
    let mut pad = Pad::make(alloc)?;
    pad.append(&[0x80, 0]);
    pad.append(&octets_of_u16((number % 65536) as u16));
    pad.append(&octets_of_u32(160u32.wrapping_mul(number)));
    pad.append(&octets_of_u32(ssrc));
    pad.append(&[(number % 256) as u8; 160]);
    Ok(pad)
}

/// The number as two octets.
fn octets_of_u16(number: u16) -> [u8; 2]
    ensures { result ≡ be number 2 }
{
    [(number / 256 % 256) as u8, (number % 256) as u8]
}

/// A pad with these octets.
pub fn filled(alloc: Global, octets: &[u8]) -> Result<Pad, NoMemory>
    requires { length octets.now ≤ 4352 }
    ensures { IfOk result (λ pad. pad ≡ octets.now) }
{
    let mut pad = Pad::make(alloc)?;
    pad.append(octets);
    Ok(pad)
}

/// The datagram, if there is one, with the lowest bit of its last octet changed.
pub fn changed(pad: Option<Pad>) -> Option<Pad>
    ensures { option_to_list result ≡ map with_last_bit_changed (option_to_list pad) }
{
    match pad {
        None => None,
        Some(pad) => Some(with_last_bit_changed(pad)),
    }
}

#[tactic(auto, unfolding(crate::specs::Packets::with_last_bit_changed))]
fn with_last_bit_changed(pad: Pad) -> Pad
    ensures { result ≡ with_last_bit_changed pad }
{
    let mut pad = pad;
    let octets = pad.octets();
    if let Some(last) = octets.last() {
        let octet = *last ^ 1;
        let kept = octets.len() - 1;
        pad.cut_to(kept);
        pad.append(&[octet]);
    }
    pad
}
