//! Packets through the sides of a session.

use crate::fault::Fault;
use sg_base::{PLAIN_MOST, Pad};
use sg_media::{OpenSide, Opened, SealSide, Sealed};
use std::alloc::Global;

// Seals a packet.
fn seal(side: &mut SealSide, pad: Pad) -> Result<Pad, Fault> {
    if pad.octets().len() > PLAIN_MOST {
        return Err(Fault::Long);
    }
    match side.send(pad) {
        Ok(Sealed { pad, .. }) => Ok(pad),
        Err((_, cause)) => Err(Fault::Dropped(cause)),
    }
}

// Opens a datagram.
fn open(side: &mut OpenSide, pad: Pad) -> Result<Pad, Fault> {
    match side.receive(pad) {
        Ok(Opened { pad, .. }) => Ok(pad),
        Err((_, cause)) => Err(Fault::Dropped(cause)),
    }
}

/// Seals each packet, in order.
pub fn seal_each(alloc: Global, side: &mut SealSide, pads: Vec<Pad>) -> Result<Vec<Pad>, Fault> {
    let mut sealed = Vec::with_capacity(alloc, pads.len())?;
    for pad in pads {
        let pad = seal(side, pad)?;
        if sealed.push(pad).is_err() {
            return Err(Fault::NoMemory);
        }
    }
    Ok(sealed)
}

/// Opens each datagram, in order.
pub fn open_each(alloc: Global, side: &mut OpenSide, pads: Vec<Pad>) -> Result<Vec<Pad>, Fault> {
    let mut opened = Vec::with_capacity(alloc, pads.len())?;
    for pad in pads {
        let pad = open(side, pad)?;
        if opened.push(pad).is_err() {
            return Err(Fault::NoMemory);
        }
    }
    Ok(opened)
}
