//! The law of a relay's ports: its contract is the law, and its body calls laws alone.

ghost use Rattle.std.specs.Prelude.{Bool, List};
ghost use Rattle.sg_gateway.specs.Step.{Event};
ghost use Rattle.sg_pairs.specs.Bridged.{Said};
ghost use Rattle.sg_relay.specs.Held.{PortsAreOfCalls};
ghost use Rattle.sg_relay.specs.Joined as joined;
ghost use Rattle.sg_relay.specs.Plain as plain;

use sg_agreement::offers_fit_their_calls;
use sg_gateway::calls_in_order;

/// After any events the ports that they ask to bind, and not to give up again, are the four of each medium of each call
/// that is there. Each is bound while it isn't held, and given up while it is, and packets are sent from ports that are
/// held, also where a packet leaves by a port that its leg shares.
pub fn ports_are_of_calls()
    ensures { (muxes : Bool) (events : List Event) → PortsAreOfCalls (plain.acts muxes events) (plain.world muxes events) }
{
    calls_in_order();
    offers_fit_their_calls();
}

/// So it is where calls are joined.
pub fn ports_of_joined_calls_are_of_calls()
    ensures { (said : List Said) → PortsAreOfCalls (joined.acts said) (joined.world said) }
{
    ports_are_of_calls();
}
