//! What is done for outcomes: ports are bound and given up, packets are sent, and lines are written.

ghost use Rattle.std.specs.Prelude.{◌≡◌, ◌∷◌, [], ℕ, List, IfErr, map};
ghost use Rattle.sg_edge.specs.Links.{Called, LinkCall};
ghost use Rattle.sg_edge.specs.Told.{HasCause, Wrote};
ghost use Rattle.sg_pairs.specs.BridgeText.{bridge_outcome_line};
ghost use Rattle.sg_outcome.specs.OutcomeText.{outcome_line};
ghost use Rattle.sg_relay.specs.Asked.{Sends, Tells, act_of, hold, ports_of};
ghost use Rattle.sg_relay.specs.Joined.{act_of_bridge};
ghost use Rattle.sg_relay.specs.Causes.{IsDueTo, IsDueToLink, IsOfOutcomes, IsOfWriting};
ghost use Rattle.sg_relay.specs.Parts.{AreCarriedOut, IsHeld};
ghost use Rattle.sg_table.specs.Handling.{outcome_of};

use sg_base::{Address, Failed, MEDIUM_PORTS};
use sg_edge::{Link, Sink};
use sg_gateway::port_at;
use sg_outcome::Outcome;
use sg_pairs::{BridgeOutcome, print_bridge};
use sg_table::{End, Handled};
use sg_trace::{Status, tell_at_once, write_at_once};
use std::alloc::Global;

/// Binds a port, or gives it up.
fn hold_port<L: Link>(link: &mut L, bound: bool, port: u16) -> Result<(), Failed>
    ensures held { (calls : List LinkCall) × Called (L.told link.old) (L.told link.new) calls × IsHeld result (hold bound port ∷ []) calls }
    ensures cause { HasCause (L.faults link.old) (L.faults link.new) result }
{
    if bound {
        return link.bind(port);
    }
    link.unbind(port)
}

/// Binds the ports of a call's media, or gives them up, in ascending order.
fn hold_ports<L: Link>(link: &mut L, bound: bool, slot: u8, media: u8) -> Result<(), Failed>
    ensures held { (calls : List LinkCall) × Called (L.told link.old) (L.told link.new) calls × IsHeld result (map (hold bound) (ports_of slot media)) calls }
    ensures cause { HasCause (L.faults link.old) (L.faults link.new) result }
{
    let first = port_at(slot, 0, 0);
    for i in 0..MEDIUM_PORTS * u16::from(media) {
        match hold_port(link, bound, first + i) {
            Err(Failed) => return Err(Failed),
            Ok(()) => {}
        }
    }
    Ok(())
}

/// Binds a call's ports, or gives them up, and then writes the line of its outcome.
fn hold_and_tell<K: Sink, L: Link>(
    alloc: Global,
    outcome: &Outcome,
    bound: bool,
    slot: u8,
    media: u8,
    sink: &mut K,
    link: &mut L,
) -> Result<(), Status>
    requires is { act_of outcome.now ≡ Tells (map (hold bound) (ports_of slot media)) (outcome_line outcome.now) }
    ensures done { (calls : List LinkCall) × (out : List ℕ) × Called (L.told link.old) (L.told link.new) calls × Wrote (K.written sink.old) (K.written sink.new) out
        × AreCarriedOut result (act_of outcome.now ∷ []) calls out }
    ensures only { IfErr result IsOfOutcomes }
    ensures write { IsDueTo Status.Write result (K.faults sink.old) (K.faults sink.new) (K.failed sink.new) }
    ensures link { IsDueToLink result (L.faults link.old) (L.faults link.new) }
{
    match hold_ports(link, bound, slot, media) {
        Err(Failed) => Err(Status::Link),
        Ok(()) => tell_at_once(alloc, outcome, sink),
    }
}

/// Sends a packet, and writes that it is unsent where that fails.
pub(crate) fn send_out<K: Sink, L: Link>(
    alloc: Global,
    port: u16,
    to: Address,
    octets: &[u8],
    sink: &mut K,
    link: &mut L,
) -> Result<(), Status>
    ensures done { (calls : List LinkCall) × (out : List ℕ) × Called (L.told link.old) (L.told link.new) calls × Wrote (K.written sink.old) (K.written sink.new) out
        × AreCarriedOut result (Sends port to octets.now ∷ []) calls out }
    ensures only { IfErr result IsOfOutcomes }
    ensures write { IsDueTo Status.Write result (K.faults sink.old) (K.faults sink.new) (K.failed sink.new) }
    ensures link { IsDueToLink result (L.faults link.old) (L.faults link.new) }
{
    match link.send(port, to, octets) {
        Ok(()) => Ok(()),
        Err(Failed) => tell_at_once(alloc, &Outcome::Unsent { port, to }, sink),
    }
}

/// Does what an outcome asks for, and writes its line.
pub(crate) fn carry_out<K: Sink, L: Link>(
    alloc: Global,
    outcome: &Outcome,
    sink: &mut K,
    link: &mut L,
) -> Result<(), Status>
    ensures done { (calls : List LinkCall) × (out : List ℕ) × Called (L.told link.old) (L.told link.new) calls × Wrote (K.written sink.old) (K.written sink.new) out
        × AreCarriedOut result (act_of outcome.now ∷ []) calls out }
    ensures only { IfErr result IsOfOutcomes }
    ensures write { IsDueTo Status.Write result (K.faults sink.old) (K.faults sink.new) (K.failed sink.new) }
    ensures link { IsDueToLink result (L.faults link.old) (L.faults link.new) }
{
    match outcome {
        Outcome::Made { slot, media, .. } => {
            hold_and_tell(alloc, outcome, true, *slot, *media, sink, link)
        }
        Outcome::Ended { slot, media, .. } => {
            hold_and_tell(alloc, outcome, false, *slot, *media, sink, link)
        }
        Outcome::Out { port, to, octets } => {
            send_out(alloc, *port, *to, octets.as_slice(), sink, link)
        }
        // No other outcome asks anything of the link: it has no medium whose ports are bound.
        _ => hold_and_tell(alloc, outcome, true, 0, 0, sink, link),
    }
}

/// Does what outcomes ask for, and writes their lines, one outcome after the other.
pub(crate) fn carry_out_all<K: Sink, L: Link>(
    alloc: Global,
    outcomes: &[Outcome],
    sink: &mut K,
    link: &mut L,
) -> Result<(), Status>
    ensures done { (calls : List LinkCall) × (out : List ℕ) × Called (L.told link.old) (L.told link.new) calls × Wrote (K.written sink.old) (K.written sink.new) out
        × AreCarriedOut result (map act_of outcomes.now) calls out }
    ensures only { IfErr result IsOfOutcomes }
    ensures write { IsDueTo Status.Write result (K.faults sink.old) (K.faults sink.new) (K.failed sink.new) }
    ensures link { IsDueToLink result (L.faults link.old) (L.faults link.new) }
{
    for outcome in outcomes {
        match carry_out(alloc, outcome, sink, link) {
            Err(status) => return Err(status),
            Ok(()) => {}
        }
    }
    Ok(())
}

/// Sends the packet that has become of a datagram at this port, or writes why it is dropped.
pub(crate) fn pass_on<K: Sink, L: Link>(
    alloc: Global,
    port: u16,
    handled: &Handled,
    sink: &mut K,
    link: &mut L,
) -> Result<(), Status>
    ensures done { (calls : List LinkCall) × (out : List ℕ) × Called (L.told link.old) (L.told link.new) calls × Wrote (K.written sink.old) (K.written sink.new) out
        × AreCarriedOut result (act_of (outcome_of port handled.now) ∷ []) calls out }
    ensures only { IfErr result IsOfOutcomes }
    ensures write { IsDueTo Status.Write result (K.faults sink.old) (K.faults sink.new) (K.failed sink.new) }
    ensures link { IsDueToLink result (L.faults link.old) (L.faults link.new) }
{
    match handled.end {
        End::Out { port, to } => send_out(alloc, port, to, handled.pad.octets(), sink, link),
        End::Dropped(cause) => carry_out(alloc, &Outcome::Dropped { port, cause }, sink, link),
    }
}

/// Does what an outcome of a bridge asks for, and writes its line: what the table tells is carried out as ever.
pub(crate) fn carry_out_bridge<K: Sink, L: Link>(
    alloc: Global,
    outcome: &BridgeOutcome,
    sink: &mut K,
    link: &mut L,
) -> Result<(), Status>
    ensures done { (calls : List LinkCall) × (out : List ℕ) × Called (L.told link.old) (L.told link.new) calls × Wrote (K.written sink.old) (K.written sink.new) out
        × AreCarriedOut result (act_of_bridge outcome.now ∷ []) calls out }
    ensures only { IfErr result IsOfOutcomes }
    ensures write { IsDueTo Status.Write result (K.faults sink.old) (K.faults sink.new) (K.failed sink.new) }
    ensures link { IsDueToLink result (L.faults link.old) (L.faults link.new) }
{
    match outcome {
        BridgeOutcome::Table(outcome) => carry_out(alloc, outcome, sink, link),
        _ => tell_bridge(alloc, outcome, sink),
    }
}

/// Writes the line of what a bridge tells besides what its table does, once it is printed, and has it passed on at once.
fn tell_bridge<K: Sink>(alloc: Global, outcome: &BridgeOutcome, sink: &mut K) -> Result<(), Status>
    requires is { act_of_bridge outcome.now ≡ Tells [] (bridge_outcome_line outcome.now) }
    ensures done { (out : List ℕ) × Wrote (K.written sink.old) (K.written sink.new) out × AreCarriedOut result (act_of_bridge outcome.now ∷ []) [] out }
    ensures only { IfErr result IsOfWriting }
    ensures write { IsDueTo Status.Write result (K.faults sink.old) (K.faults sink.new) (K.failed sink.new) }
{
    let line = match print_bridge(alloc, outcome) {
        Err(_) => return Err(Status::NoMemory),
        Ok(line) => line,
    };
    write_at_once(line.as_slice(), sink)
}
