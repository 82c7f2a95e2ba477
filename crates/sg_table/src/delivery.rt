//! One datagram: it goes to the call that has its port.

ghost use Rattle.std.specs.Prelude.{◌≡◌, All, IsSome};
ghost use Rattle.sg_gateway.specs.PlainOf.{plain_at};
ghost use Rattle.sg_gateway.specs.World.{World};
ghost use Rattle.sg_table.specs.Batches.{IsBatched, IsDelivered};
ghost use Rattle.sg_table.specs.Handling.{IsHandled};
ghost use Rattle.sg_table.specs.Standing.{TableStandsFor};

use crate::arrival::Arrival;
use crate::octets::holds_octets;
use crate::ports::place;
use crate::table::Table;
use sg_base::{Address, DropCause, Pad};
use sg_call::{End, Handled};
use sg_gateway::{calls_in_order, each_call_by_itself};

impl Table {
    /// Handles a datagram that comes to a port. Its call is found by its slot, without a search. It doesn't
    /// allocate.
    pub fn datagram(&mut self, port: u16, from: Address, pad: Pad) -> Handled
        ensures { (w : World) → TableStandsFor self.old w → IsHandled w port from pad result self.new }
    {
        calls_in_order();
        each_call_by_itself();
        holds_octets(&pad);
        let calls = self.calls.by_slot.as_mut_slice();
        match place(calls, &self.places, port) {
            None => Handled {
                pad,
                end: End::Dropped(DropCause::PortUnused),
            },
            Some(i) => calls[i].datagram(port, from, pad, self.calls.moment),
        }
    }

    /// Handles arrivals one at a time, in order. It doesn't allocate.
    pub(crate) fn in_turn(&mut self, arrivals: &mut [Arrival])
        requires { All (λ a. IsSome a.pad) arrivals.old }
        ensures { (w : World) → TableStandsFor self.old w → IsBatched w arrivals.old arrivals.new self.new }
    {
        for arrival in arrivals.iter_mut() {
            self.deliver(arrival);
        }
    }

    /// Handles an arrival as a datagram by itself.
    fn deliver(&mut self, arrival: &mut Arrival)
        requires { IsSome arrival.old.pad }
        ensures { (w : World) → TableStandsFor self.old w → IsDelivered w arrival.old arrival.new self.new }
    {
        let Some(pad) = arrival.pad.take() else {
            unreachable!()
        };
        holds_octets(&pad);
        let handled = self.datagram(arrival.port, arrival.from, pad);
        arrival.pad = Some(handled.pad);
        arrival.end = Some(handled.end);
    }

    /// The plain address of the session on a plain port, for packets of its kind; none where no current generation
    /// has a session there. It doesn't allocate.
    pub fn plain_of(&self, port: u16) -> Option<Address>
        ensures { (w : World) → TableStandsFor self.now w → result ≡ plain_at w port }
    {
        calls_in_order();
        let calls = self.calls.by_slot.as_slice();
        match place(calls, &self.places, port) {
            None => None,
            Some(i) => calls[i].plain_of(port),
        }
    }
}
