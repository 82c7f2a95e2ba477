//! What a relay has handle its lines, its ticks and the datagrams that come.

ghost use Rattle.std.specs.Prelude.{◌≡◌, ◌≤◌, ℕ, false, None, Option, List, [], IfErr, IfSome, length};
ghost use Rattle.sg_base.specs.declared.addresses.Address.{Address};
ghost use Rattle.sg_edge.specs.Links.{Added, Called, LinkCall};
ghost use Rattle.sg_edge.specs.Told.{Wrote};
ghost use Rattle.sg_gateway.specs.Events.{events_of_signal, signal_lacks_noise};
ghost use Rattle.sg_gateway.specs.Step.{Event};
ghost use Rattle.sg_lines.specs.LineText.{FitsLine};
ghost use Rattle.sg_relay.specs.Acting.{Acting, GoInOrder};
ghost use Rattle.sg_relay.specs.Causes.{IsDueTo, IsDueToLink, IsOfOutcomes, IsOfSignals};
ghost use Rattle.sg_relay.specs.Parts.{AreHandled, IsGiven};
ghost use Rattle.sg_relay.specs.Plain as plain;
ghost use Rattle.sg_table.specs.Telling.{IsTimely};
ghost use Rattle.sg_trace.specs.Course.{Given};
ghost use Rattle.sg_trace.specs.Trace.{last_moment};

use sg_base::{Address, Pad};
use sg_edge::{Link, Noise, Sink};
use sg_lines::{Line, Signal};
use sg_trace::{ScriptLine, Status, supply};
use std::alloc::Global;

/// What handles signals, ticks and the datagrams that come, and does at once what they tell: by the kind of lines of a relay's
/// script that it stands for.
pub(crate) trait Handling {
    type Line: ScriptLine + Drop;

    /// What a line, a tick or a datagram gives, as an event.
    ghost Deed: { Type 0 };

    ghost State: { Type 0 };

    /// For how many milliseconds the relay waits at a line, from its beginning on.
    ghost waits: { Self.Line → Option ℕ };

    /// What another line gives of the noise that comes.
    ghost gives: { Self.Line → List ℕ → Option (Given Deed) };

    ghost ticks: { ℕ → List Deed };

    ghost arrives: { ℕ → Address → List ℕ → List Deed };

    /// What events of the gateway give.
    ghost gives_of: { List Event → List Deed };

    /// What is done for deeds, and the state after them.
    ghost acting: { Acting State Deed };

    /// The states for which it stands.
    ghost stands: { Self → State → Type 0 };

    /// Handles a signal that has its noise, and does what its outcomes ask for.
    fn obey<K: Sink, L: Link>(
        &mut self,
        alloc: Global,
        signal: &Signal,
        sink: &mut K,
        link: &mut L,
    ) -> Result<(), Status>
        requires noise { signal_lacks_noise signal.now ≡ false }
        requires timely { IsTimely signal.now }
        ensures obeyed { (s : State) → stands self.old s → (calls : List LinkCall) × (out : List ℕ)
            × Called (L.told link.old) (L.told link.new) calls × Wrote (K.written sink.old) (K.written sink.new) out
            × AreHandled result acting s (gives_of (events_of_signal signal.now)) (stands self.new) calls out }
        ensures only { IfErr result IsOfOutcomes }
        ensures write { IsDueTo Status.Write result (K.faults sink.old) (K.faults sink.new) (K.failed sink.new) }
        ensures link { IsDueToLink result (L.faults link.old) (L.faults link.new) };

    /// Handles a tick to this moment.
    fn tick<K: Sink, L: Link>(
        &mut self,
        alloc: Global,
        moment: u64,
        sink: &mut K,
        link: &mut L,
    ) -> Result<(), Status>
        requires timely { moment ≤ last_moment }
        ensures ticked { (s : State) → stands self.old s → (calls : List LinkCall) × (out : List ℕ)
            × Called (L.told link.old) (L.told link.new) calls × Wrote (K.written sink.old) (K.written sink.new) out
            × AreHandled result acting s (ticks moment) (stands self.new) calls out }
        ensures only { IfErr result IsOfOutcomes }
        ensures write { IsDueTo Status.Write result (K.faults sink.old) (K.faults sink.new) (K.failed sink.new) }
        ensures link { IsDueToLink result (L.faults link.old) (L.faults link.new) };

    /// Handles the datagram in the pad, which came to this port, and hands the pad back.
    fn arrive<K: Sink, L: Link>(
        &mut self,
        alloc: Global,
        port: u16,
        from: Address,
        pad: Pad,
        sink: &mut K,
        link: &mut L,
    ) -> Result<Pad, Status>
        ensures arrived { (s : State) → stands self.old s → (calls : List LinkCall) × (out : List ℕ)
            × Called (L.told link.old) (L.told link.new) calls × Wrote (K.written sink.old) (K.written sink.new) out
            × AreHandled result acting s (arrives port from pad) (stands self.new) calls out }
        ensures only { IfErr result IsOfOutcomes }
        ensures write { IsDueTo Status.Write result (K.faults sink.old) (K.faults sink.new) (K.failed sink.new) }
        ensures link { IsDueToLink result (L.faults link.old) (L.faults link.new) };

    /// Deeds are done in order.
    fn are_in_order()
        ensures { GoInOrder acting };

    ghost silent: { gives_of [] ≡ [] };

    ghost datagrams: { (port : ℕ) (from : Address) (octets : List ℕ) → arrives port from octets ≡ gives_of (plain.arrives port from octets) };
}

/// What handles those lines, too.
pub(crate) trait Exchange: Handling {
    /// For how many milliseconds the relay waits at the line, from its beginning on; none where it doesn't.
    fn wait_at(line: &Self::Line) -> Option<u64>
        requires fits { (version number : ℕ) × Self.Line.fits version number line.now }
        ensures is { result ≡ Self.waits line.now }
        ensures timely { IfSome result (λ moment. moment ≤ last_moment) };

    /// Handles a line at which the relay doesn't wait, and hands the pad back. `Noise` where the noise that it lacks can't be drawn.
    fn handle<K: Sink, L: Link, N: Noise>(
        &mut self,
        alloc: Global,
        line: Self::Line,
        pad: Pad,
        sink: &mut K,
        link: &mut L,
        noise: &mut N,
    ) -> Result<Pad, Status>
        requires fits { (version number : ℕ) × Self.Line.fits version number line }
        requires plays { Self.waits line ≡ None }
        ensures handled { (s : Self.State) → Self.stands self.old s → (calls : List LinkCall) × (draws : List ℕ) × (out : List ℕ)
            × Called (L.told link.old) (L.told link.new) calls × Added (N.given noise.old) (N.given noise.new) draws × Wrote (K.written sink.old) (K.written sink.new) out
            × IsGiven result (Self.gives line) Self.acting s (Self.stands self.new) calls draws out }
        ensures only { IfErr result IsOfSignals }
        ensures write { IsDueTo Status.Write result (K.faults sink.old) (K.faults sink.new) (K.failed sink.new) }
        ensures link { IsDueToLink result (L.faults link.old) (L.faults link.new) }
        ensures noise { IsDueTo Status.Noise result (N.faults noise.old) (N.faults noise.new) (N.failed noise.new) };
}

/// Handles a line that every script may have, and hands the pad back. The moment of a datagram line isn't used: a relay's
/// moments are those of its clock.
pub(crate) fn handle_line<H: Handling, K: Sink, L: Link, N: Noise>(
    alloc: Global,
    handling: &mut H,
    line: Line,
    pad: Pad,
    sink: &mut K,
    link: &mut L,
    noise: &mut N,
) -> Result<Pad, Status>
    requires fits { (version number : ℕ) × FitsLine version number line }
    ensures handled { (state : H.State) → H.stands handling.old state → (calls : List LinkCall) × (draws : List ℕ) × (out : List ℕ)
        × Called (L.told link.old) (L.told link.new) calls × Added (N.given noise.old) (N.given noise.new) draws × Wrote (K.written sink.old) (K.written sink.new) out
        × IsGiven result (plain.gives_by H.gives_of line) H.acting state (H.stands handling.new) calls draws out }
    ensures only { IfErr result IsOfSignals }
    ensures write { IsDueTo Status.Write result (K.faults sink.old) (K.faults sink.new) (K.failed sink.new) }
    ensures link { IsDueToLink result (L.faults link.old) (L.faults link.new) }
    ensures noise { IsDueTo Status.Noise result (N.faults noise.old) (N.faults noise.new) (N.failed noise.new) }
{
    H::are_in_order();
    match line {
        Line::Header | Line::HeaderTwo => Ok(pad),
        Line::Datagram { port, from, octets }
        | Line::DatagramAt {
            port,
            from,
            octets,
            ..
        } => {
            let pad = filled(pad, octets.as_slice());
            handling.arrive(alloc, port, from, pad, sink, link)
        }
        Line::Signal(kept) => match supply(noise, kept.into_signal()) {
            Err(status) => Err(status),
            Ok(signal) => match handling.obey(alloc, &signal, sink, link) {
                Err(status) => Err(status),
                Ok(()) => Ok(pad),
            },
        },
    }
}

/// The pad with a datagram of a line in it.
pub(crate) fn filled(pad: Pad, octets: &[u8]) -> Pad
    requires { length octets.now ≤ 4352 }
    ensures { result ≡ octets.now }
{
    let mut pad = pad;
    pad.cut_to(0);
    pad.append(octets);
    pad
}
