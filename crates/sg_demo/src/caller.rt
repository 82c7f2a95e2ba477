//! The calls of a demonstration, with their peers.

ghost use Rattle.std.specs.Prelude.{◌≡◌, ◌≤◌, ◌<◌, length, option_to_list, IfOk};
ghost use Rattle.sg_demo.specs.Callers as model;
ghost use Rattle.sg_demo.specs.Callers.{new_caller, secure_port, plain_port, next_datagram, after_sealing, next_plain_packet, after_plain, after_opening};
ghost use Rattle.sg_demo.specs.Standing.{CallerStandsFor, IsOpened};

use crate::packets::{filled, packet};
use sg_base::{MasterKey, NoMemory, Pad};
use sg_gateway::port_at;
use sg_peer::{OpenSide, SealSide, Sealed, opening_side, sealing_side};
use std::alloc::Global;

/// The number of the first packet of each side.
const FIRST_NUMBER: u32 = 65_400;

/// A call that was made: its source, its slot, who seals and who opens for its peer, the numbers of the
/// next packets of the peer and of the plain side, modulo 2^32, and what the peer sealed last.
#[derive(Drop)]
pub struct Caller {
    pub ssrc: u32,
    pub slot: u8,
    pub sealing: SealSide,
    pub opening: OpenSide,
    pub next: u32,
    pub next_plain: u32,
    pub last: Option<Pad>,
}

impl Caller {
    /// The call of this number in this slot, whose peer seals under the first key and opens under the second.
    pub fn make(number: u32, slot: u8, from_peer: &MasterKey, to_peer: &MasterKey) -> Caller
        ensures { CallerStandsFor result (new_caller number slot from_peer.now to_peer.now) }
    {
        Caller {
            ssrc: number,
            slot,
            sealing: sealing_side(from_peer, number, u64::from(FIRST_NUMBER)),
            opening: opening_side(to_peer, number, u64::from(FIRST_NUMBER)),
            next: FIRST_NUMBER,
            next_plain: FIRST_NUMBER,
            last: None,
        }
    }

    /// The port of the call at which SRTP comes.
    pub fn secure_port(&self) -> u16
        ensures { (c : model.Caller) → CallerStandsFor self.now c → result ≡ secure_port c }
    {
        port_at(self.slot, 0, 0)
    }

    /// The port of the call at which plain RTP comes.
    pub fn plain_port(&self) -> u16
        ensures { (c : model.Caller) → CallerStandsFor self.now c → result ≡ plain_port c }
    {
        port_at(self.slot, 0, 2)
    }

    /// The peer seals its next packet. None where it isn't sealed.
    pub fn seal_next(&mut self, alloc: Global) -> Result<Option<Pad>, NoMemory>
        ensures { IfOk result (λ pad. (c : model.Caller) → CallerStandsFor self.old c
            → (option_to_list pad ≡ next_datagram c) × CallerStandsFor self.new (after_sealing c)) }
    {
        let pad = packet(alloc, self.ssrc, self.next)?;
        self.next = self.next.wrapping_add(1);
        match self.sealing.send(pad) {
            Ok(Sealed { pad, .. }) => {
                self.last = Some(filled(alloc, pad.octets())?);
                Ok(Some(pad))
            }
            Err(_) => Ok(None),
        }
    }

    /// The next packet of the plain side.
    pub fn next_plain(&mut self, alloc: Global) -> Result<Pad, NoMemory>
        ensures { IfOk result (λ pad. (c : model.Caller) → CallerStandsFor self.old c
            → (pad ≡ next_plain_packet c) × CallerStandsFor self.new (after_plain c)) }
    {
        let pad = packet(alloc, self.ssrc, self.next_plain)?;
        self.next_plain = self.next_plain.wrapping_add(1);
        Ok(pad)
    }

    /// Whether the peer opens a datagram.
    pub fn opens(&mut self, pad: Pad) -> bool
        ensures { (c : model.Caller) → CallerStandsFor self.old c → IsOpened pad c result × CallerStandsFor self.new (after_opening pad c) }
    {
        self.opening.receive(pad).is_ok()
    }
}
