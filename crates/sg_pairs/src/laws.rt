//! What is so of every run of a bridge.

ghost use Rattle.std.specs.Prelude.{◌≡◌, ◌↔◌, ◌≤◌, ℕ, List, Some, length};
ghost use Rattle.sg_gateway.specs.Step.{Event};
ghost use Rattle.sg_pairs.specs.BridgeHolds.{BridgeHolds};
ghost use Rattle.sg_pairs.specs.BridgeOutcomeOf.{FitsBridgeOutcome, bridge_outcome_of};
ghost use Rattle.sg_pairs.specs.BridgeText.{bridge_outcome_line};
ghost use Rattle.sg_pairs.specs.Bridged.{EachCrossingIsSealed, EachGoesBothWays, JoinedStayInside, Said};
ghost use Rattle.sg_pairs.specs.Calls.{EachIsAsTold, EachJoinsAndPartsSo, MembersAreTheCalls};
ghost use Rattle.sg_pairs.specs.Happening.{EachComesBehind, EachLineHappens};
ghost use Rattle.sg_pairs.specs.Lasting.{EachPairLasts};
ghost use Rattle.sg_pairs.specs.Lost.{EachLostIsRefused, EachOpenedIsSettled};
ghost use Rattle.sg_pairs.specs.LostCauses.{EachLostShowsCause};
ghost use Rattle.sg_pairs.specs.Telling.{EachSignalIsTold};
ghost use Rattle.sg_pairs.specs.Unjoined.{IsToldAsItIs};
ghost use Rattle.sg_pairs.specs.declared.outcomes.BridgeOutcome.{BridgeOutcome};

use sg_agreement::offers_fit_their_calls;
use sg_conduct::drops_show_causes;
use sg_gateway::calls_in_order;
use sg_outcome::outcomes_have_one_spelling;

/// Nothing is told as put out on a plain port of a joined call. What is told as put out on a secure port of one was opened
/// in the other call of its pair, at the plain port of the same medium and kind, by the event right before; and its octets
/// and its address are those of the sealing of that packet, under a key of the session at that port.
pub fn joined_calls_stay_inside()
    ensures inside { (said : List Said) → JoinedStayInside said }
    ensures crossing { (said : List Said) → EachCrossingIsSealed said }
{}

/// A plain port of a joined call goes on to the one that goes on to it: so what the two peers send crosses both ways.
pub fn joined_ports_go_both_ways()
    ensures { (said : List Said) → EachGoesBothWays said }
{}

/// A packet that is opened for a joined call is put out in the other call, or lost, and that is all that is told. What is
/// told as lost was opened in the other call, and there is no plain address for it (`PortUnused`), or it is refused with
/// that cause.
pub fn lost_is_refused()
    ensures settled { (said : List Said) → EachOpenedIsSettled said }
    ensures refused { (said : List Said) → EachLostIsRefused said }
{}

/// What is told as lost shows its cause in the other call, in the world behind its opening: no session there puts out by that port
/// (`PortUnused`); or what comes to it from the plain side's address shows it, as a drop does.
pub fn lost_shows_its_cause()
    ensures { (said : List Said) → EachLostShowsCause said }
{
    lost_is_refused();
    each_line_happens();
    drops_show_causes();
}

/// Before and after each line the calls that a bridge knows are those of the world: in each slot the number of the call
/// that is there, how many media it has, and whether it has a generation.
pub fn members_are_the_calls()
    ensures { (said : List Said) → MembersAreTheCalls said }
{
    calls_in_order();
    offers_fit_their_calls();
}

/// A line that joins or parts tells that it is done, or the first cause why not, by the calls of the world and the pairs
/// that are there. Two calls that are told as joined are in one pair then, and one that a line parts is in none.
pub fn joins_have_their_causes()
    ensures causes { (said : List Said) → EachJoinsAndPartsSo said }
    ensures told { (said : List Said) → EachIsAsTold said }
{
    calls_in_order();
    offers_fit_their_calls();
}

/// A pair stays in force until one of its calls ends, which is told right before that it is parted, or until a line parts it.
/// It comes of a line that joins its two calls. What is told as parted was in force, and isn't any more.
pub fn pairs_last_until_parted()
    ensures { (said : List Said) → EachPairLasts said }
{
    calls_in_order();
    offers_fit_their_calls();
}

/// Where no line joins or parts, each event happens as it is, and what the gateway tells of it is told.
pub fn unjoined_calls_are_told_as_they_are()
    ensures { (events : List Event) → IsToldAsItIs events }
{}

/// Each line's event happens, but for a datagram at a plain port of a joined call, which is dropped; and where a datagram opens
/// nothing for a joined call, what the gateway tells of it is told, and nothing more happens. Each line is handled in the world
/// that the events of the lines before it have made, with the pairs that they have left.
pub fn each_line_happens()
    ensures lines { (said : List Said) → EachLineHappens said }
    ensures worlds { (said : List Said) → EachComesBehind said }
{}

/// Of a signal each thing is told that the gateway tells of it, in order; right behind the end of a call of a pair that was in
/// force it is told, once, that this pair is parted; and nothing more is told.
pub fn signals_are_told()
    ensures { (said : List Said) → EachSignalIsTold said }
{
    calls_in_order();
    offers_fit_their_calls();
}

/// All of these of every run, but for the one of unjoined calls.
pub fn the_bridge_holds()
    ensures { (said : List Said) → BridgeHolds said }
{
    joined_calls_stay_inside();
    joined_ports_go_both_ways();
    lost_is_refused();
    lost_shows_its_cause();
    members_are_the_calls();
    joins_have_their_causes();
    pairs_last_until_parted();
    each_line_happens();
    signals_are_told();
}

/// A line is read exactly where it has at most 70,000 octets and an outcome is spelled so whose numbers are in their ranges, as
/// that outcome.
pub fn bridge_outcomes_have_one_spelling()
    ensures { (line : List ℕ) (o : BridgeOutcome) → (bridge_outcome_of line ≡ Some o) ↔ (FitsBridgeOutcome o × (line ≡ bridge_outcome_line o) × (length line ≤ 70000)) }
{
    outcomes_have_one_spelling();
}
