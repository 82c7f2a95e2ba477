//! The call of a port.

ghost use Rattle.std.specs.Prelude.{◌≡◌, ◌<◌, ℕ, length, position, Some, None, IfSome, slice_index_or, Option};
ghost use Rattle.sg_call.specs.Values.{CallValue};
ghost use Rattle.sg_table.specs.Slots.{slot_at};
ghost use Rattle.sg_table.specs.Values.{AreIndexed, AreRising, shapes_of, has_call_port};

use sg_base::{CALLS_MOST, FIRST_PORT, SLOT_PORTS};
use sg_call::Call;
use sg_gateway::port_at;

/// The slot to which a port belongs.
fn slot_at(port: u16) -> Option<usize>
    ensures value { result ≡ slot_at port }
    ensures within { IfSome result (λ s. s < 256) }
{
    if port < FIRST_PORT {
        return None;
    }
    let slot = usize::from((port - FIRST_PORT) / SLOT_PORTS);
    if slot < CALLS_MOST { Some(slot) } else { None }
}

/// The position of the call that has a port, by its slot.
pub(crate) fn place(calls: &[Call], places: &[Option<u8>], port: u16) -> Option<usize>
    requires indexed { AreIndexed places.now (shapes_of calls.now) }
    requires rising { AreRising (shapes_of calls.now) }
    ensures { result ≡ position (has_call_port port) calls.now }
{
    match slot_at(port) {
        None => None,
        Some(slot) => match places[slot] {
            None => None,
            Some(i) => {
                if has_port(calls, usize::from(i), port) {
                    Some(usize::from(i))
                } else {
                    None
                }
            }
        },
    }
}

/// Whether the call at this position has a port.
fn has_port(calls: &[Call], i: usize, port: u16) -> bool
    requires { i < length calls.now }
    ensures { (d : CallValue) → result ≡ has_call_port port (slice_index_or calls.now i d) }
{
    is_port_of(&calls[i], port)
}

/// Whether a port is one of the call's media.
fn is_port_of(call: &Call, port: u16) -> bool
    ensures { result ≡ has_call_port port call.now }
{
    port_at(call.slot(), 0, 0) <= port && port < port_at(call.slot(), call.media(), 0)
}
