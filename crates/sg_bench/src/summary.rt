//! What is sealed of some packets.

ghost use Rattle.std.specs.Prelude.{◌≤◌};

use crate::fault::Fault;
use crate::packets::{are_packets, packets};
use crate::passing::{open_each, seal_each};
use crate::sides::{Sides, make_sides};
use sg_base::{Pad, Suite};
use sha1::Sha1;
use std::alloc::Global;

/// How many packets are sealed.
const COUNT: u16 = 200;

/// How many packets were sealed, the octets of their datagrams, the SHA-1 of all these, and how many
/// were opened again.
#[derive(Drop)]
pub struct Summary {
    pub sealed: usize,
    pub octets: u64,
    pub sha1: [u8; 20],
    pub opened: usize,
}

fn sha1_of(pads: &[Pad]) -> [u8; 20] {
    let mut hasher = Sha1::new();
    for pad in pads {
        hasher.update(pad.octets());
    }
    hasher.finalize()
}

fn length_of(pads: &[Pad]) -> u64 {
    let mut length = 0u64;
    for pad in pads {
        length = length.saturating_add(pad.octets().len() as u64);
    }
    length
}

/// Seals 200 packets of so many octets at one side, and opens them at the other.
pub fn seal_and_open(alloc: Global, suite: Suite, size: usize) -> Result<Summary, Fault>
    requires { size ≤ 1400 }
{
    let Some(Sides { mut seal, mut open }) = make_sides(suite, 0) else {
        return Err(Fault::Suite);
    };
    let datagrams = seal_each(alloc, &mut seal, packets(alloc, 0, COUNT, size)?)?;
    let sealed = datagrams.len();
    let octets = length_of(&datagrams);
    let sha1 = sha1_of(&datagrams);
    let opened = open_each(alloc, &mut open, datagrams)?;
    if !are_packets(&opened, 0, size) {
        return Err(Fault::Changed);
    }
    Ok(Summary {
        sealed,
        octets,
        sha1,
        opened: opened.len(),
    })
}
