//! The routes of a call, in the two generations that can open.

ghost use Rattle.std.specs.Prelude.{◌≡◌, ◌==◌, [], ℕ, filter, position};
ghost use Rattle.sg_gateway.specs.World as world;
ghost use Rattle.sg_call.specs.Adding.{opens_route};
ghost use Rattle.sg_call.specs.Handling.{IsPassed, OnDrop, unused};
ghost use Rattle.sg_call.specs.Onward.{plain_by};
ghost use Rattle.sg_call.specs.Standing.{SessionsStand};

use crate::handled::{End, Handled};
use crate::route::{Route, pass_either};
use sg_base::{Address, DropCause, Pad};
use std::alloc::Global;
use std::marker::Model;
use std::mem;

/// The routes of the current generation, and of the one before those that still open. Their memory is taken before
/// they come here, and no function hands the allocator of the lists on.
#[derive(Drop)]
pub struct Routes {
    current: Vec<Route>,
    earlier: Vec<Route>,
}

impl Model for Routes {
    ghost use Rattle.sg_call.specs.Values.{RoutesValue};

    ghost Value = { RoutesValue };

    ghost view = { λ r. record { current = r.current.items; earlier = r.earlier.items } };
}

impl Routes {
    /// No route. It doesn't allocate.
    pub(crate) fn make(alloc: Global) -> Routes
        ensures { (result.current ≡ []) × (result.earlier ≡ []) }
    {
        Routes {
            current: Vec::new(alloc),
            earlier: Vec::new(alloc),
        }
    }

    /// Hands a datagram to the route at its port, in the current generation and in the earlier one. Dropped, it comes
    /// back as it was, and so are all routes.
    pub(crate) fn pass(&mut self, is_new: bool, port: u16, from: Address, pad: Pad) -> Handled
        ensures passed { (now : ℕ) (c : world.Call) → (c.generations == 0) ≡ is_new → SessionsStand self.old.current self.old.earlier c
            → IsPassed now port from pad c result self.new.current self.new.earlier }
        ensures refused { OnDrop result.end ((result.pad ≡ pad) × (self.new ≡ self.old)) }
    {
        let current = self.current.as_mut_slice();
        let earlier = self.earlier.as_mut_slice();
        match (place(current, port), place(earlier, port)) {
            (None, None) => Handled {
                pad,
                end: End::Dropped(unused(is_new)),
            },
            (None, Some(j)) => earlier[j].pass(from, pad),
            (Some(i), None) => current[i].pass(from, pad),
            (Some(i), Some(j)) => pass_either(&mut current[i], &mut earlier[j], from, pad),
        }
    }

    /// The plain address of the current generation's session on a plain port.
    pub(crate) fn plain_of(&self, port: u16) -> Option<Address>
        ensures { result ≡ plain_by port self.now.current }
    {
        let current = self.current.as_slice();
        for route in current {
            if route.opens() && route.out == port {
                return Some(route.to);
            }
        }
        None
    }

    /// A new generation's routes come; of the one before, what opens is kept. It doesn't allocate.
    pub(crate) fn renew(&mut self, routes: Vec<Route>)
        ensures { self.new ≡ record { current = routes.items; earlier = filter opens_route self.old.current } }
    {
        let mut former = mem::replace(&mut self.current, routes);
        keep_opening(&mut former);
        self.earlier = former;
    }

    /// The earlier generation opens no longer.
    pub(crate) fn drop_earlier(&mut self)
        ensures { self.new ≡ record self.old { earlier = [] } }
    {
        self.earlier.clear();
    }
}

/// The cause where no session is at a port.
fn unused(is_new: bool) -> DropCause
    ensures { result ≡ unused is_new }
{
    if is_new {
        DropCause::NotLive
    } else {
        DropCause::PortUnused
    }
}

/// The place of the route at a port.
fn place(routes: &[Route], port: u16) -> Option<usize>
    ensures { result ≡ position (λ route. route.port == port) routes.now }
{
    routes.iter().position(|route| route.port == port)
}

/// Keeps the routes that open.
fn keep_opening(routes: &mut Vec<Route>)
    ensures { routes.new.items ≡ filter opens_route routes.old.items }
{
    routes.retain(|route| route.opens());
}
