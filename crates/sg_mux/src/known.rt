//! What is known of a call whose legs may share their ports.

ghost use Rattle.std.specs.Prelude.{◌≡◌};
ghost use Rattle.sg_mux.specs.Legs.{muxes, same_side};
ghost use Rattle.sg_mux.specs.Muxed.{changed_at, fresh};
ghost use Rattle.sg_mux.specs.Texts.{both};

use crate::texts::{Marks, NO_MARKS, both, mark};
use sg_base::{CallId, Side};

/// Of a call: its id, which media of the offer that it accepted last have the line `a=rtcp-mux`, and of its current
/// generation the side that offered and the media that share their ports there.
#[derive(Clone, Copy)]
pub struct Known {
    pub id: CallId,
    pub offered: Marks,
    pub side: Side,
    pub muxed: Marks,
}

/// A call that was made.
pub(crate) fn fresh(id: CallId) -> Known
    ensures { result ≡ fresh id }
{
    Known {
        id,
        offered: NO_MARKS,
        side: Side::Secure,
        muxed: NO_MARKS,
    }
}

/// Notes the offer that the call of this id accepted, where it is this one.
pub(crate) fn offer(known: &mut Option<Known>, id: CallId, marks: Marks)
    ensures { known.new ≡ changed_at id (λ k. record k { offered = marks }) known.old }
{
    if let Some(k) = known {
        if k.id == id {
            k.offered = marks;
        }
    }
}

/// Notes an answer to the side that offered, whose media with a port are marked, in the call of this id, where it is this
/// one.
pub(crate) fn settle(known: &mut Option<Known>, id: CallId, side: Side, ports: Marks)
    ensures { known.new ≡ changed_at id (λ k. record k { side = side; muxed = both ports k.offered }) known.old }
{
    if let Some(k) = known {
        if k.id == id {
            k.side = side;
            k.muxed = both(&ports, &k.offered);
        }
    }
}

fn is_same_side(some: Side, other: Side) -> bool
    ensures { result ≡ same_side some other }
{
    match (some, other) {
        (Side::Secure, Side::Secure) => true,
        (Side::Plain, Side::Plain) => true,
        _ => false,
    }
}

/// Whether the call muxes this medium on this side.
pub(crate) fn muxes(known: &Option<Known>, medium: usize, side: Side) -> bool
    ensures { result ≡ muxes known.now medium side }
{
    match known {
        None => false,
        Some(k) => is_same_side(k.side, side) && mark(&k.muxed, medium),
    }
}
