//! The routes of a new generation.

ghost use Rattle.std.specs.Prelude.{◌≡◌, ◌≤◌, ◌<◌, ◌+◌, [], ◌∷◌, length, vec_len, vec_capacity};
ghost use Rattle.sg_base.specs.declared.addresses.Address as base;
ghost use Rattle.sg_leg.specs.Planned.{IsPlanned, planned_side, planned_sides};
ghost use Rattle.sg_media.specs.Sides.{CanBeMade};
ghost use Rattle.sg_session.specs.Session.{Session};
ghost use Rattle.sg_session.specs.declared.names.Direction.TheVariants as direction;
ghost use Rattle.sg_call.specs.Adding.{Adds, as_planned};
ghost use Rattle.sg_call.specs.Standing.{RouteStandsFor};

use crate::route::{MediaSide, Route};
use sg_base::{Address, Kind};
use sg_gateway::{leg_of, next_port, port_at};
use sg_keys::SessionSpec;
use sg_leg::SideSpec;
use sg_media::{OpenSide, SealSide};
use sg_session::Direction;

/// The route that opens what comes to the secure side, whose packets go to the plain side's address.
fn opening(slot: u8, medium: u8, spec: SessionSpec, plain: Address) -> Route
    requires can { CanBeMade spec }
    requires next { spec.kind ≡ Kind.Rtcp → plain.port < 65535 }
    ensures { (secure : base.Address) (s : Session) → IsPlanned (as_planned medium direction.Opening spec secure plain) s → RouteStandsFor slot result s }
{
    let kind = spec.kind;
    Route {
        port: port_at(slot, medium, leg_of(Direction::Opening, kind)),
        out: port_at(slot, medium, leg_of(Direction::Sealing, kind)),
        to: next_port(kind, plain),
        plain,
        side: MediaSide::Opens(OpenSide::make(spec)),
    }
}

/// The route that seals what comes to the plain side, whose datagrams go to the secure side's address.
fn sealing(slot: u8, medium: u8, spec: SessionSpec, secure: Address, plain: Address) -> Route
    requires can { CanBeMade spec }
    requires next { spec.kind ≡ Kind.Rtcp → secure.port < 65535 }
    ensures { (s : Session) → IsPlanned (as_planned medium direction.Sealing spec secure plain) s → RouteStandsFor slot result s }
{
    let kind = spec.kind;
    Route {
        port: port_at(slot, medium, leg_of(Direction::Sealing, kind)),
        out: port_at(slot, medium, leg_of(Direction::Opening, kind)),
        to: next_port(kind, secure),
        plain,
        side: MediaSide::Seals(SealSide::make(spec)),
    }
}

/// Adds the route that opens. A route has some 20,000 octets, so it is made in a frame of its own.
#[inline(never)]
fn add_opening(slot: u8, medium: u8, spec: SessionSpec, plain: Address, routes: &mut Vec<Route>)
    requires can { CanBeMade spec }
    requires next { spec.kind ≡ Kind.Rtcp → plain.port < 65535 }
    requires room { vec_len routes.old < vec_capacity routes.old }
    ensures adds { (secure : base.Address) → Adds slot (as_planned medium direction.Opening spec secure plain ∷ []) routes.old.items routes.new.items }
    ensures one { vec_len routes.new ≡ vec_len routes.old + 1 }
    ensures capacity { vec_capacity routes.new ≡ vec_capacity routes.old }
{
    routes.push_reserved(opening(slot, medium, spec, plain));
}

/// Adds the route that seals. A route has some 20,000 octets, so it is made in a frame of its own.
#[inline(never)]
fn add_sealing(
    slot: u8,
    medium: u8,
    spec: SessionSpec,
    secure: Address,
    plain: Address,
    routes: &mut Vec<Route>,
)
    requires can { CanBeMade spec }
    requires next { spec.kind ≡ Kind.Rtcp → secure.port < 65535 }
    requires room { vec_len routes.old < vec_capacity routes.old }
    ensures adds { Adds slot (as_planned medium direction.Sealing spec secure plain ∷ []) routes.old.items routes.new.items }
    ensures one { vec_len routes.new ≡ vec_len routes.old + 1 }
    ensures capacity { vec_capacity routes.new ≡ vec_capacity routes.old }
{
    routes.push_reserved(sealing(slot, medium, spec, secure, plain));
}

/// Adds the route of a side.
fn add_side(slot: u8, side: SideSpec, routes: &mut Vec<Route>)
    requires room { vec_len routes.old < vec_capacity routes.old }
    ensures adds { Adds slot (planned_side side ∷ []) routes.old.items routes.new.items }
    ensures one { vec_len routes.new ≡ vec_len routes.old + 1 }
    ensures capacity { vec_capacity routes.new ≡ vec_capacity routes.old }
{
    let SideSpec {
        medium,
        direction,
        spec,
        secure,
        plain,
    } = side;
    match direction {
        Direction::Opening => add_opening(slot, medium, spec, plain, routes),
        Direction::Sealing => add_sealing(slot, medium, spec, secure, plain, routes),
    }
}

/// Adds the routes of all sides of a generation. It isn't inlined, so that its frame, some 16 KB, is no part of a caller's.
#[inline(never)]
pub(crate) fn add_all(slot: u8, sides: Vec<SideSpec>, routes: &mut Vec<Route>)
    requires room { vec_len routes.old + length sides.items ≤ vec_capacity routes.old }
    ensures { Adds slot (planned_sides sides.items) routes.old.items routes.new.items }
{
    for side in sides {
        add_side(slot, side, routes);
    }
}
