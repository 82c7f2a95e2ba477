//! Plain packets.

ghost use Rattle.std.specs.Prelude.{◌≤◌};

use crate::fault::Fault;
use sg_base::Pad;
use std::alloc::Global;

/// The octets of the longest packet.
const MOST: usize = 1400;

/// The source of all packets.
const SSRC: u32 = 0xcafebabe;

// The octets of a packet: a head without sources and extension (RFC 3550, 5.1), whose time stamp goes on
// by 160 a packet, and then octets that count up from the number.
fn octets(number: u16) -> [u8; 1400] {
    let mut octets = [0; MOST];
    for (place, octet) in octets.iter_mut().enumerate() {
        *octet = ((place + usize::from(number)) % 256) as u8;
    }
    octets[0] = 0x80;
    octets[1] = 0;
    octets[2..4].copy_from_slice(&number.to_be_bytes());
    octets[4..8].copy_from_slice(&(u32::from(number) * 160).to_be_bytes());
    octets[8..12].copy_from_slice(&SSRC.to_be_bytes());
    octets
}

/// A pad with the packet of this number and so many octets.
pub fn packet(alloc: Global, number: u16, size: usize) -> Result<Pad, Fault>
    requires { size ≤ 1400 }
{
    let mut pad = Pad::make(alloc)?;
    match pad.fill(&octets(number)[..size]) {
        Ok(()) => Ok(pad),
        Err(_) => Err(Fault::Long),
    }
}

/// Pads with the packets of so many numbers from `first` on.
pub fn packets(alloc: Global, first: u16, count: u16, size: usize) -> Result<Vec<Pad>, Fault>
    requires { size ≤ 1400 }
{
    let mut pads = Vec::with_capacity(alloc, usize::from(count))?;
    for place in 0..count {
        let pad = packet(alloc, first.wrapping_add(place), size)?;
        if pads.push(pad).is_err() {
            return Err(Fault::NoMemory);
        }
    }
    Ok(pads)
}

/// Whether the pads have the packets of the numbers from `first` on.
pub fn are_packets(pads: &[Pad], first: u16, size: usize) -> bool
    requires { size ≤ 1400 }
{
    let mut number = first;
    for pad in pads {
        if pad.octets() != &octets(number)[..size] {
            return false;
        }
        number = number.wrapping_add(1);
    }
    true
}
