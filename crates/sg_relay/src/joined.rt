//! The calls of a relay of which some may be joined: a switchboard. Its ports stay bound while calls are joined: what comes
//! from outside to a plain port of a joined call is dropped before the table.

ghost use Rattle.std.specs.Prelude.{◌≡◌, ◌∷◌, [], ℕ, List, IfErr, OnOk};
ghost use Rattle.sg_edge.specs.Links.{Called, LinkCall};
ghost use Rattle.sg_edge.specs.Told.{Wrote};
ghost use Rattle.sg_pairs.specs.Bridged.{told_and_parted};
ghost use Rattle.sg_pairs.specs.Pairs.{after_outcome};
ghost use Rattle.sg_relay.specs.Causes.{IsDueTo, IsDueToLink, IsOfOutcomes};
ghost use Rattle.sg_relay.specs.Joined.{act_of_bridge, acts_next, acts_of_all};
ghost use Rattle.sg_relay.specs.Parts.{AreCarriedOut, ended_as};
ghost use Rattle.sg_switchboard.specs.Switching.{outcome_of};

use crate::carrying_out::{carry_out, carry_out_bridge, send_out};
use crate::exchange::{Exchange, Handling, handle_line};
use sg_base::{Address, NoMemory, Pad};
use sg_edge::{Link, Noise, Sink};
use sg_lines::{Line, Signal};
use sg_outcome::Outcome;
use sg_pairs::{BridgeLine, BridgeOutcome};
use sg_switchboard::{Switchboard, Switched, SwitchedEnd};
use sg_table::Outcomes;
use sg_trace::Status;
use std::alloc::Global;

impl Handling for Switchboard {
    ghost use Rattle.std.specs.Prelude.{refl};
    ghost use Rattle.sg_pairs.specs.Bridged.{Said};
    ghost use Rattle.sg_relay.specs.Joined.{acting, arrives, gives, happen_all, ticks, waits};
    ghost use Rattle.sg_switchboard.specs.Switching.{StandsFor, State};

    type Line = BridgeLine;

    ghost Deed = { Said };

    ghost State = { State };

    ghost waits = { waits };

    ghost gives = { gives };

    ghost ticks = { ticks };

    ghost arrives = { arrives };

    ghost gives_of = { happen_all };

    ghost acting = { acting };

    ghost stands = { StandsFor };

    fn obey<K: Sink, L: Link>(
        &mut self,
        alloc: Global,
        signal: &Signal,
        sink: &mut K,
        link: &mut L,
    ) -> Result<(), Status> {
        let mut told = Outcomes::new();
        match self.take(alloc, signal, &mut told) {
            Err(NoMemory) => Err(Status::NoMemory),
            Ok(()) => carry_out_noted(alloc, self, told.as_slice(), sink, link),
        }
    }

    /// A tick that tells nothing makes no list of outcomes.
    fn tick<K: Sink, L: Link>(
        &mut self,
        alloc: Global,
        moment: u64,
        sink: &mut K,
        link: &mut L,
    ) -> Result<(), Status> {
        if self.tick_quietly(moment) {
            return Ok(());
        }
        self.obey(alloc, &Signal::Tick { now: moment }, sink, link)
    }

    fn arrive<K: Sink, L: Link>(
        &mut self,
        alloc: Global,
        port: u16,
        from: Address,
        pad: Pad,
        sink: &mut K,
        link: &mut L,
    ) -> Result<Pad, Status> {
        let switched = self.datagram(port, from, pad);
        match put_out(alloc, &switched, sink, link) {
            Err(status) => Err(status),
            Ok(()) => Ok(switched.pad),
        }
    }

    fn are_in_order() {}

    ghost silent = { refl };

    ghost datagrams = { λ port from octets. refl };
}

impl Exchange for Switchboard {
    fn wait_at(line: &BridgeLine) -> Option<u64> {
        match line {
            BridgeLine::Script(Line::Signal(kept)) => match kept.signal() {
                Signal::Tick { now } => Some(*now),
                _ => None,
            },
            _ => None,
        }
    }

    fn handle<K: Sink, L: Link, N: Noise>(
        &mut self,
        alloc: Global,
        line: BridgeLine,
        pad: Pad,
        sink: &mut K,
        link: &mut L,
        noise: &mut N,
    ) -> Result<Pad, Status> {
        match line {
            BridgeLine::Script(line) => handle_line(alloc, self, line, pad, sink, link, noise),
            BridgeLine::Join { first, second } => {
                let joined = self.join(first, second);
                hand_back(alloc, &joined, pad, sink, link)
            }
            BridgeLine::Part { call } => {
                let parted = self.part(call);
                hand_back(alloc, &parted, pad, sink, link)
            }
        }
    }
}

/// Does what an outcome asks for, and writes its line; hands the pad back.
fn hand_back<K: Sink, L: Link>(
    alloc: Global,
    outcome: &BridgeOutcome,
    pad: Pad,
    sink: &mut K,
    link: &mut L,
) -> Result<Pad, Status>
    ensures done { (calls : List LinkCall) × (out : List ℕ) × Called (L.told link.old) (L.told link.new) calls × Wrote (K.written sink.old) (K.written sink.new) out
        × AreCarriedOut (ended_as result) (act_of_bridge outcome.now ∷ []) calls out }
    ensures only { IfErr result IsOfOutcomes }
    ensures write { IsDueTo Status.Write result (K.faults sink.old) (K.faults sink.new) (K.failed sink.new) }
    ensures link { IsDueToLink result (L.faults link.old) (L.faults link.new) }
{
    match carry_out_bridge(alloc, outcome, sink, link) {
        Err(status) => Err(status),
        Ok(()) => Ok(pad),
    }
}

/// Does what outcomes of the table ask for, and writes their lines, one after the other, each end of a joined call with the pair
/// that it parts.
fn carry_out_noted<K: Sink, L: Link>(
    alloc: Global,
    switchboard: &mut Switchboard,
    outcomes: &[Outcome],
    sink: &mut K,
    link: &mut L,
) -> Result<(), Status>
    ensures done { (calls : List LinkCall) × (out : List ℕ) × Called (L.told link.old) (L.told link.new) calls × Wrote (K.written sink.old) (K.written sink.new) out
        × AreCarriedOut result (acts_of_all (told_and_parted switchboard.old.calls outcomes.now).told) calls out }
    ensures noted { OnOk result (switchboard.new ≡ record switchboard.old { calls = (told_and_parted switchboard.old.calls outcomes.now).calls }) }
    ensures only { IfErr result IsOfOutcomes }
    ensures write { IsDueTo Status.Write result (K.faults sink.old) (K.faults sink.new) (K.failed sink.new) }
    ensures link { IsDueToLink result (L.faults link.old) (L.faults link.new) }
{
    for outcome in outcomes {
        match carry_out_next(alloc, switchboard, outcome, sink, link) {
            Err(status) => return Err(status),
            Ok(()) => {}
        }
    }
    Ok(())
}

/// The same of one outcome.
fn carry_out_next<K: Sink, L: Link>(
    alloc: Global,
    switchboard: &mut Switchboard,
    outcome: &Outcome,
    sink: &mut K,
    link: &mut L,
) -> Result<(), Status>
    ensures done { (calls : List LinkCall) × (out : List ℕ) × Called (L.told link.old) (L.told link.new) calls × Wrote (K.written sink.old) (K.written sink.new) out
        × AreCarriedOut result (acts_next switchboard.old.calls outcome.now) calls out }
    ensures noted { OnOk result (switchboard.new ≡ record switchboard.old { calls = (after_outcome switchboard.old.calls outcome.now).calls }) }
    ensures only { IfErr result IsOfOutcomes }
    ensures write { IsDueTo Status.Write result (K.faults sink.old) (K.faults sink.new) (K.failed sink.new) }
    ensures link { IsDueToLink result (L.faults link.old) (L.faults link.new) }
{
    match carry_out(alloc, outcome, sink, link) {
        Err(status) => return Err(status),
        Ok(()) => {}
    }
    match switchboard.note(outcome) {
        None => Ok(()),
        Some(parted) => carry_out_bridge(alloc, &parted, sink, link),
    }
}

/// Sends the packet that a datagram has become, or writes why it is dropped or lost.
fn put_out<K: Sink, L: Link>(
    alloc: Global,
    switched: &Switched,
    sink: &mut K,
    link: &mut L,
) -> Result<(), Status>
    ensures done { (calls : List LinkCall) × (out : List ℕ) × Called (L.told link.old) (L.told link.new) calls × Wrote (K.written sink.old) (K.written sink.new) out
        × AreCarriedOut result (act_of_bridge (outcome_of switched.now) ∷ []) calls out }
    ensures only { IfErr result IsOfOutcomes }
    ensures write { IsDueTo Status.Write result (K.faults sink.old) (K.faults sink.new) (K.failed sink.new) }
    ensures link { IsDueToLink result (L.faults link.old) (L.faults link.new) }
{
    match switched.end {
        SwitchedEnd::Out { port, to } => {
            send_out(alloc, port, to, switched.pad.octets(), sink, link)
        }
        SwitchedEnd::Dropped { port, cause } => {
            carry_out(alloc, &Outcome::Dropped { port, cause }, sink, link)
        }
        SwitchedEnd::Lost { port, cause } => {
            carry_out_bridge(alloc, &BridgeOutcome::Lost { port, cause }, sink, link)
        }
    }
}
