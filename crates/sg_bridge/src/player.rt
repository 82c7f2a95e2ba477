//! What plays the lines of a bridge's script.

ghost use Rattle.std.specs.Prelude.{◌≡◌, ◌≤◌, ◌∷◌, [], ℕ, IfErr, IfOk, false, length};
ghost use Rattle.sg_bridge.specs.Steps.{AreDone, IsLinePlayed};
ghost use Rattle.sg_gateway.specs.Events.{signal_lacks_noise, signal_of};
ghost use Rattle.sg_gateway.specs.Octets.{as_octets};
ghost use Rattle.sg_gateway.specs.Signals.{Tick};
ghost use Rattle.sg_gateway.specs.Step.{Datagram, Signalled};
ghost use Rattle.sg_lines.specs.LineText.{FitsLine};
ghost use Rattle.sg_pairs.specs.Bridged.{Happens};
ghost use Rattle.sg_pairs.specs.declared.lines.BridgeLine.TheVariants as lines;
ghost use Rattle.sg_switchboard.specs.Switching.{StandsFor, State, start};
ghost use Rattle.sg_table.specs.Telling.{IsTimely};
ghost use Rattle.sg_trace.specs.Causes.{IsCaused};
ghost use Rattle.sg_trace.specs.Loop.{IsWant};

use crate::telling::{tell_all, tell_bridge, tell_switched};
use sg_base::{Address, NoMemory, Pad};
use sg_edge::{Noise, Sink};
use sg_lines::{Line, Signal};
use sg_pairs::BridgeLine;
use sg_switchboard::Switchboard;
use sg_table::Outcomes;
use sg_trace::{Play, Status, supply};
use std::alloc::Global;
use std::marker::Model;

/// A switchboard, seen as such, with memory that is used again.
#[derive(Drop)]
pub(crate) struct BridgePlayer {
    switchboard: Switchboard,
    /// The pad that datagrams are handled in, one after the other.
    spare: Option<Pad>,
    /// The outcomes that the last signal told.
    told: Outcomes,
}

impl Model for BridgePlayer {
    ghost use Rattle.sg_switchboard.specs.Switching.{SwitchboardValue};

    ghost Value = { SwitchboardValue };

    ghost view = { λ p. p.switchboard };
}

impl<K: Sink, N: Noise> Play<K, N> for BridgePlayer {
    ghost use Rattle.std.specs.Prelude.{[], true, refl};
    ghost use Rattle.sg_bridge.specs.Bridge.{gives};
    ghost use Rattle.sg_bridge.specs.Steps.{effects};
    ghost use Rattle.sg_pairs.specs.Bridged.{Said};
    ghost use Rattle.sg_switchboard.specs.Switching.{StandsFor, State};

    type Line = BridgeLine;

    ghost Deed = { Said };

    ghost State = { State };

    ghost gives = { gives };

    ghost effects = { effects };

    ghost stands = { StandsFor };

    ghost waits = { λ _. [] };

    ghost batch = { 2 };

    ghost is_prompt = { true };

    /// The noise that a signal lacks is drawn.
    fn play(
        &mut self,
        alloc: Global,
        line: BridgeLine,
        sink: &mut K,
        noise: &mut N,
    ) -> Result<(), Status> {
        match line {
            BridgeLine::Script(line) => self.play_line(alloc, line, sink, noise),
            BridgeLine::Join { first, second } => {
                tell_bridge(alloc, self.switchboard.join(first, second), sink)
            }
            BridgeLine::Part { call } => tell_bridge(alloc, self.switchboard.part(call), sink),
        }
    }

    fn settle(&mut self, _alloc: Global, _sink: &mut K) -> Result<(), Status> {
        Ok(())
    }

    fn are_in_order() {}

    ghost at_once = { λ _ _. refl };
}

impl BridgePlayer {
    /// An empty table, and no call is joined.
    pub(crate) fn make(alloc: Global) -> Result<BridgePlayer, NoMemory>
        ensures { IfOk result (λ player. StandsFor player start) }
    {
        let switchboard = Switchboard::make(alloc)?;
        let pad = Pad::make(alloc)?;
        Ok(BridgePlayer {
            switchboard,
            spare: Some(pad),
            told: Outcomes::new(),
        })
    }

    /// Handles a line that every script may have.
    fn play_line<K: Sink, N: Noise>(
        &mut self,
        alloc: Global,
        line: Line,
        sink: &mut K,
        noise: &mut N,
    ) -> Result<(), Status>
        requires { (version number : ℕ) × FitsLine version number line }
        ensures played { (s : State) → StandsFor self.old s
            → IsLinePlayed result (lines.Script line) s self.new (N.given noise.old) (N.given noise.new) (K.written sink.old) (K.written sink.new) }
        ensures write { IsCaused Status.Write result (K.faults sink.old) (K.faults sink.new) (K.failed sink.new) }
        ensures noise { IsCaused Status.Noise result (N.faults noise.old) (N.faults noise.new) (N.failed noise.new) }
    {
        match line {
            Line::Header | Line::HeaderTwo => Ok(()),
            Line::Datagram { port, from, octets } => {
                self.datagram(alloc, port, from, octets.as_slice(), sink)
            }
            Line::DatagramAt {
                now,
                port,
                from,
                octets,
            } => {
                match self.tick(alloc, now, sink) {
                    Err(status) => return Err(status),
                    Ok(()) => {}
                }
                self.datagram(alloc, port, from, octets.as_slice(), sink)
            }
            Line::Signal(kept) => match supply(noise, kept.into_signal()) {
                Err(status) => Err(status),
                Ok(signal) => self.obey(alloc, &signal, sink),
            },
        }
    }

    /// Handles a tick. One that tells nothing takes no memory.
    fn tick<K: Sink>(&mut self, alloc: Global, now: u64, sink: &mut K) -> Result<(), Status>
        requires { now ≤ 2085978495999 }
        ensures ticked { (s : State) → StandsFor self.old s
            → AreDone result s (Happens (Signalled (Tick now)) ∷ []) self.new (K.written sink.old) (K.written sink.new) }
        ensures only { IfErr result (λ status. IsWant status) }
        ensures write { IsCaused Status.Write result (K.faults sink.old) (K.faults sink.new) (K.failed sink.new) }
    {
        if self.switchboard.tick_quietly(now) {
            return Ok(());
        }
        self.obey(alloc, &Signal::Tick { now }, sink)
    }

    /// Handles a signal that has its noise, and writes what it tells.
    fn obey<K: Sink>(&mut self, alloc: Global, signal: &Signal, sink: &mut K) -> Result<(), Status>
        requires ready { signal_lacks_noise signal.now ≡ false }
        requires timely { IsTimely signal.now }
        ensures obeyed { (s : State) → StandsFor self.old s
            → AreDone result s (Happens (Signalled (signal_of signal.now)) ∷ []) self.new (K.written sink.old) (K.written sink.new) }
        ensures only { IfErr result (λ status. IsWant status) }
        ensures write { IsCaused Status.Write result (K.faults sink.old) (K.faults sink.new) (K.failed sink.new) }
    {
        match self.switchboard.take(alloc, signal, &mut self.told) {
            Err(NoMemory) => return Err(Status::NoMemory),
            Ok(()) => {}
        }
        tell_all(alloc, &mut self.switchboard, self.told.as_slice(), sink)
    }

    /// Handles a datagram of at most 4,352 octets, and writes what it tells.
    fn datagram<K: Sink>(
        &mut self,
        alloc: Global,
        port: u16,
        from: Address,
        octets: &[u8],
        sink: &mut K,
    ) -> Result<(), Status>
        requires { length octets.now ≤ 4352 }
        ensures arrived { (s : State) → StandsFor self.old s
            → AreDone result s (Happens (Datagram port from (as_octets octets.now)) ∷ []) self.new (K.written sink.old) (K.written sink.new) }
        ensures only { IfErr result (λ status. IsWant status) }
        ensures write { IsCaused Status.Write result (K.faults sink.old) (K.faults sink.new) (K.failed sink.new) }
    {
        let mut pad = match self.take_pad(alloc) {
            Err(NoMemory) => return Err(Status::NoMemory),
            Ok(pad) => pad,
        };
        let _ = pad.fill(octets);
        let switched = self.switchboard.datagram(port, from, pad);
        let told = tell_switched(alloc, &switched, sink);
        self.spare = Some(switched.pad);
        told
    }

    /// A pad, whatever it holds.
    fn take_pad(&mut self, alloc: Global) -> Result<Pad, NoMemory>
        ensures { self.new ≡ self.old }
    {
        match self.spare.take() {
            Some(pad) => Ok(pad),
            None => Pad::make(alloc),
        }
    }
}
