//! The calls of a relay of which none is joined: a front.

use crate::carrying_out::{carry_out_all, pass_on};
use crate::exchange::{Exchange, Handling, handle_line};
use sg_base::{Address, NoMemory, Pad};
use sg_edge::{Link, Noise, Sink};
use sg_front::Front;
use sg_lines::{Line, Signal};
use sg_table::Outcomes;
use sg_trace::Status;
use std::alloc::Global;

impl Handling for Front {
    ghost use Rattle.std.specs.Prelude.{refl};
    ghost use Rattle.sg_front.specs.States.{FrontStandsFor, State};
    ghost use Rattle.sg_gateway.specs.Step.{Event};
    ghost use Rattle.sg_relay.specs.Plain.{acting, arrives, gives, ticks, waits};

    type Line = Line;

    ghost Deed = { Event };

    ghost State = { State };

    ghost waits = { waits };

    ghost gives = { gives };

    ghost ticks = { ticks };

    ghost arrives = { arrives };

    ghost gives_of = { λ events. events };

    ghost acting = { acting };

    ghost stands = { FrontStandsFor };

    fn obey<K: Sink, L: Link>(
        &mut self,
        alloc: Global,
        signal: &Signal,
        sink: &mut K,
        link: &mut L,
    ) -> Result<(), Status> {
        let mut told = Outcomes::new();
        match self.take(alloc, signal, &mut told) {
            Err(NoMemory) => Err(Status::NoMemory),
            Ok(()) => carry_out_all(alloc, told.as_slice(), sink, link),
        }
    }

    /// A tick that tells nothing makes no list of outcomes.
    fn tick<K: Sink, L: Link>(
        &mut self,
        alloc: Global,
        moment: u64,
        sink: &mut K,
        link: &mut L,
    ) -> Result<(), Status> {
        if self.tick_quietly(moment) {
            return Ok(());
        }
        self.obey(alloc, &Signal::Tick { now: moment }, sink, link)
    }

    fn arrive<K: Sink, L: Link>(
        &mut self,
        alloc: Global,
        port: u16,
        from: Address,
        pad: Pad,
        sink: &mut K,
        link: &mut L,
    ) -> Result<Pad, Status> {
        let handled = self.datagram(port, from, pad);
        match pass_on(alloc, port, &handled, sink, link) {
            Err(status) => Err(status),
            Ok(()) => Ok(handled.pad),
        }
    }

    fn are_in_order() {}

    ghost silent = { refl };

    ghost datagrams = { λ port from octets. refl };
}

impl Exchange for Front {
    fn wait_at(line: &Line) -> Option<u64> {
        match line {
            Line::Signal(kept) => match kept.signal() {
                Signal::Tick { now } => Some(*now),
                _ => None,
            },
            _ => None,
        }
    }

    fn handle<K: Sink, L: Link, N: Noise>(
        &mut self,
        alloc: Global,
        line: Line,
        pad: Pad,
        sink: &mut K,
        link: &mut L,
        noise: &mut N,
    ) -> Result<Pad, Status> {
        handle_line(alloc, self, line, pad, sink, link, noise)
    }
}
