//! The legs that share their ports: how they follow the signals, by which ports what comes is taken, and by which ports
//! what leaves goes.

ghost use Rattle.std.specs.Prelude.{◌≡◌, ◌==◌, ◌&&◌, ◌-◌, ◌%◌, ◌≤◌, ◌<◌, OnOk, OnErr, IsTrue, true};
ghost use Rattle.std.specs.List.{list_any};
ghost use Rattle.sg_gateway.specs.Events.{signal_of};
ghost use Rattle.sg_mux.specs.Legs.{arrived_port, is_muxed_at, leaves};
ghost use Rattle.sg_mux.specs.Muxed.{is_text, nobody, signalled};

use crate::known::Known;
use crate::legs::{is_muxed_at, is_report};
use crate::signals::follow;
use sg_base::{Address, CALLS_MOST, FIRST_PORT, NoMemory};
use sg_lines::Signal;
use sg_outcome::Outcome;
use std::alloc::Global;
use std::marker::Model;

/// Of each slot what is known of the call there.
#[derive(Drop)]
pub struct Mux {
    calls: [Option<Known>; CALLS_MOST],
}

impl Model for Mux {
    ghost use Rattle.std.specs.Prelude.{List, Option};
    ghost use Rattle.sg_mux.specs.declared.known.Known.{Known};

    ghost Value = { List (Option Known) };

    ghost view = { λ m. m.calls };
}

impl Mux {
    /// No call is known. It doesn't allocate.
    pub fn make() -> Mux
        ensures { result ≡ nobody }
    {
        Mux {
            calls: [None; CALLS_MOST],
        }
    }

    /// Follows a signal and the outcomes that the table told of it. A leg shares its port from the answer on that has a
    /// port for its medium, where the offer has the line `a=rtcp-mux` there; the text of that answer gets the line in
    /// each such medium, and all else of the outcomes stays. Out of memory, nothing has changed; that comes only where a
    /// text is told.
    pub fn signal(
        &mut self,
        alloc: Global,
        signal: &Signal,
        outcomes: &mut [Outcome],
    ) -> Result<(), NoMemory>
        ensures calls { OnOk result (self.new ≡ (signalled (signal_of signal.now) self.old outcomes.old).calls) }
        ensures told { OnOk result (outcomes.new ≡ (signalled (signal_of signal.now) self.old outcomes.old).told) }
        ensures same { OnErr result ((self.new ≡ self.old) × (outcomes.new ≡ outcomes.old)) }
        ensures needs { OnErr result (list_any is_text outcomes.old ≡ true) }
    {
        follow(&mut self.calls, alloc, signal, outcomes)
    }

    /// The port at which the table takes a datagram: RTCP that comes to the RTP port of a leg that shares it has come to
    /// the leg's RTCP port, and everything else to the port at which it came. It doesn't allocate.
    pub fn arrive(&self, port: u16, octets: &[u8]) -> u16
        ensures { result ≡ arrived_port self.now port octets.now }
    {
        if self.is_muxed(port, 0) && is_report(octets) {
            return port + 1;
        }
        port
    }

    /// By which port a packet leaves, and to which address it goes: RTCP of a leg that shares its port leaves by the leg's
    /// RTP port and goes to the port before, unless its own is 0. It doesn't allocate.
    pub fn depart(&self, port: u16, to: Address) -> (u16, Address)
        ensures port { result.0 ≡ (leaves self.now port to).port }
        ensures to { result.1 ≡ (leaves self.now port to).to }
    {
        if self.is_muxed(port, 1) && to.port != 0 {
            return (port - 1, one_lower(to));
        }
        (port, to)
    }

    /// Whether the port is the first of its leg's two, or the second, and the leg shares its port.
    fn is_muxed(&self, port: u16, place: u16) -> bool
        ensures value { result ≡ (((port - 20000) % 2 == place) && is_muxed_at self.now port) }
        ensures within { IsTrue result → (20000 ≤ port) × (port < 24096) × ((port - 20000) % 2 ≡ place) }
    {
        is_at_place(port, place) && is_muxed_at(&self.calls, port)
    }
}

/// The address one port lower.
fn one_lower(to: Address) -> Address
    requires { 0 < to.port }
    ensures { result ≡ record { ip = to.ip; port = to.port - 1 } }
{
    let mut lower = to;
    lower.port -= 1;
    lower
}

/// Whether the port is the first of its leg's two, or the second.
fn is_at_place(port: u16, place: u16) -> bool
    ensures { result ≡ ((port - 20000) % 2 == place) }
{
    port.saturating_sub(FIRST_PORT) % 2 == place
}
