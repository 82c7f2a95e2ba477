//! What holds of every batch.

ghost use Rattle.std.specs.Prelude.{List};
ghost use Rattle.sg_gateway.specs.Runs.{world_after};
ghost use Rattle.sg_gateway.specs.Step.{Event};
ghost use Rattle.sg_gateway.specs.World.{empty};
ghost use Rattle.sg_table.specs.Orders.{OnlyItsOwnCount, SameInEveryOrder};

use sg_gateway::{calls_in_order, each_call_by_itself};

/// In every world of a run an arrival tells after others what it tells after those at the ports of its own call
/// alone.
pub fn only_its_own_call_counts()
    ensures { (events : List Event) → OnlyItsOwnCount (world_after empty events) }
{
    each_call_by_itself();
}

/// In every world of a run each arrival tells the same, and the world after them is the same, in every order that
/// keeps each call's own; those at no call's port may stand in any.
pub fn every_order_gives_the_same()
    ensures { (events : List Event) → SameInEveryOrder (world_after empty events) }
{
    calls_in_order();
    each_call_by_itself();
}
