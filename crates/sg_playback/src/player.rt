//! What plays the lines of a script.

ghost use Rattle.std.specs.Prelude.{◌≡◌, ◌≢◌, ◌≤◌, ◌<◌, ◌∷◌, ◌++◌, [], ℕ, List, IfErr, IfOk, OnOk, true, false, length};
ghost use Rattle.sg_trace.specs.Causes.{HasFailed, IsCaused};
ghost use Rattle.sg_trace.specs.Loop.{Closes, IsPlayed, IsSettled, IsWant};
ghost use Rattle.sg_edge.specs.Links.{Added};
ghost use Rattle.sg_edge.specs.Told.{Wrote};
ghost use Rattle.sg_front.specs.States.{FrontStandsFor, IsTold, State, start};
ghost use Rattle.sg_gateway.specs.Events.{events_of_signal, signal_lacks_noise};
ghost use Rattle.sg_gateway.specs.Octets.{as_octets};
ghost use Rattle.sg_gateway.specs.Signals.{Tick};
ghost use Rattle.sg_gateway.specs.Step.{Datagram, Signalled};
ghost use Rattle.sg_lines.specs.LineText.{FitsLine};
ghost use Rattle.sg_lines.specs.declared.lines.Line.TheVariants as lines;
ghost use Rattle.sg_playback.specs.Playing.{HasCome, HasRoom, IsStepped, effects, waiting};
ghost use Rattle.sg_playback.specs.Replay.{gives};
ghost use Rattle.sg_table.specs.Telling.{IsTimely};

use crate::writing::{tell_all, tell_ends};
use sg_base::{Address, BATCH_MOST, NoMemory, Pad};
use sg_edge::{Noise, Sink};
use sg_front::Front;
use sg_lanes::Gate;
use sg_lines::{Line, Signal};
use sg_table::{Arrival, Outcomes};
use sg_trace::{Status, pass_on, supply};
use std::alloc::Global;
use std::marker::Model;
use std::mem;
use std::thread::Threads;

/// What shares out a batch: threads, how many of them at once (one, where none is asked for), and the gate that each passes.
#[derive(Drop)]
pub struct Workers<'a, R, G> {
    pub rt: &'a R,
    pub count: usize,
    pub gate: &'a G,
}

/// Plays the lines of a script, or ticks and datagrams one by one. It is seen as a front, and the datagrams that
/// wait for their batch, in order of arrival.
#[derive(Drop)]
pub struct Player {
    front: Front,
    arrivals: Vec<Arrival>,
    /// Pads of earlier batches, to be used again.
    spare: Vec<Pad>,
    /// The lines that the last batch told, whose room is used again.
    lines: Vec<u8>,
    /// The outcomes that the last signal told, whose room is used again.
    told: Outcomes,
    /// The moment of the last line that was a datagram with its moment.
    line_moment: Option<u64>,
}

impl Model for Player {
    ghost use Rattle.std.specs.Prelude.{◌≤◌, All, IsSome, length};
    ghost use Rattle.sg_playback.specs.Playing.{Playing};

    ghost Value = { Playing };

    ghost view = { λ p. record { front = p.front; waits = p.arrivals.items } };

    ghost invariant = { λ p. (length p.arrivals.items ≤ 256) × All (λ a. IsSome a.pad) p.arrivals.items };
}

impl Player {
    /// A front without calls, whose legs may share their ports or may not, and no datagram waits. `NoMemory` where there is
    /// none for it.
    pub fn make(alloc: Global, muxes: bool) -> Result<Player, NoMemory>
        ensures { IfOk result (λ player. FrontStandsFor player.front (start muxes) × (player.waits ≡ [])) }
    {
        Ok(Player {
            front: Front::make(alloc, muxes)?,
            arrivals: Vec::new(alloc),
            spare: Vec::new(alloc),
            lines: Vec::new(alloc),
            told: Outcomes::new(),
            line_moment: None,
        })
    }

    /// Handles a line. A datagram waits for its batch, and what waits is handled before a signal, before a datagram
    /// of another moment than the line before it, and before one for which the batch has no room; the noise that a
    /// signal lacks is drawn. `Noise` where it can't be, `Write` where the sink fails, `NoMemory` where memory runs out.
    pub fn play<R: Threads + Sync, K: Sink, N: Noise, G: Gate + Sync>(
        &mut self,
        workers: &Workers<R, G>,
        alloc: Global,
        line: Line,
        sink: &mut K,
        noise: &mut N,
    ) -> Result<(), Status>
        requires { (version number : ℕ) × FitsLine version number line }
        ensures played { (s : State) → FrontStandsFor self.old.front s → (draws out : List ℕ)
            × Added (N.given noise.old) (N.given noise.new) draws × Wrote (K.written sink.old) (K.written sink.new) out
            × IsPlayed result effects (gives line) 258 s (waiting self.old) (waiting self.new) (FrontStandsFor self.new.front) draws out }
        ensures few { length self.old.waits ≤ 256 }
        ensures rest { OnOk result (length self.new.waits ≤ 256) }
        ensures write { IsCaused Status.Write result (K.faults sink.old) (K.faults sink.new) (K.failed sink.new) }
        ensures noise { IsCaused Status.Noise result (N.faults noise.old) (N.faults noise.new) (N.failed noise.new) }
    {
        let _ = &self.arrivals;
        match line {
            Line::Header | Line::HeaderTwo => Ok(()),
            Line::Datagram { port, from, octets } => {
                self.arrive(workers, alloc, port, from, octets.as_slice(), sink)
            }
            Line::DatagramAt {
                now,
                port,
                from,
                octets,
            } => {
                match self.come_to(workers, alloc, now, sink) {
                    Err(status) => return Err(status),
                    Ok(()) => {}
                }
                self.arrive(workers, alloc, port, from, octets.as_slice(), sink)
            }
            Line::Signal(kept) => { self.obey(workers, alloc, kept.into_signal(), sink, noise) }
        }
    }

    /// Handles a signal, once what waits is told and its noise is there.
    fn obey<R: Threads + Sync, K: Sink, N: Noise, G: Gate + Sync>(
        &mut self,
        workers: &Workers<R, G>,
        alloc: Global,
        signal: Signal,
        sink: &mut K,
        noise: &mut N,
    ) -> Result<(), Status>
        requires { IsTimely signal }
        ensures played { (s : State) → FrontStandsFor self.old.front s → (draws out : List ℕ)
            × Added (N.given noise.old) (N.given noise.new) draws × Wrote (K.written sink.old) (K.written sink.new) out
            × IsPlayed result effects (gives (lines.Signal signal)) 258 s (waiting self.old) (waiting self.new) (FrontStandsFor self.new.front) draws out }
        ensures none { OnOk result (self.new.waits ≡ []) }
        ensures write { IsCaused Status.Write result (K.faults sink.old) (K.faults sink.new) (K.failed sink.new) }
        ensures noise { IsCaused Status.Noise result (N.faults noise.old) (N.faults noise.new) (N.failed noise.new) }
    {
        match self.settle(workers, alloc, sink) {
            Err(status) => return Err(status),
            Ok(()) => {}
        }
        match supply(noise, signal) {
            Err(status) => Err(status),
            Ok(supplied) => self.step(alloc, &supplied, sink),
        }
    }

    /// The tick before a datagram that has its moment. It is left out where it would be one to the last moment, which
    /// changes nothing, and the line before had this moment too: so the datagrams of one moment share a batch.
    fn come_to<R: Threads + Sync, K: Sink, G: Gate + Sync>(
        &mut self,
        workers: &Workers<R, G>,
        alloc: Global,
        now: u64,
        sink: &mut K,
    ) -> Result<(), Status>
        requires { now ≤ 2085978495999 }
        ensures came { (s : State) → FrontStandsFor self.old.front s → (out : List ℕ)
            × Wrote (K.written sink.old) (K.written sink.new) out × HasCome result now s (waiting self.old) (waiting self.new) (FrontStandsFor self.new.front) out }
        ensures only { IfErr result (λ status. IsWant status) }
        ensures write { IsCaused Status.Write result (K.faults sink.old) (K.faults sink.new) (K.failed sink.new) }
    {
        if self.line_moment == Some(now) && self.front.moment() == now {
            return Ok(());
        }
        self.line_moment = Some(now);
        self.tick(workers, alloc, now, sink)
    }

    /// Handles and tells what waits, then a tick, at most 2,085,978,495,999 ms since 1970. `Write` where the sink fails,
    /// `NoMemory` where memory runs out.
    pub fn tick<R: Threads + Sync, K: Sink, G: Gate + Sync>(
        &mut self,
        workers: &Workers<R, G>,
        alloc: Global,
        now: u64,
        sink: &mut K,
    ) -> Result<(), Status>
        requires { now ≤ 2085978495999 }
        ensures ticked { (s : State) → FrontStandsFor self.old.front s → (out : List ℕ)
            × Wrote (K.written sink.old) (K.written sink.new) out
            × IsStepped result s (waiting self.old ++ Signalled (Tick now) ∷ []) (FrontStandsFor self.new.front) out }
        ensures none { OnOk result (self.new.waits ≡ []) }
        ensures only { IfErr result (λ status. IsWant status) }
        ensures write { IsCaused Status.Write result (K.faults sink.old) (K.faults sink.new) (K.failed sink.new) }
    {
        match self.settle(workers, alloc, sink) {
            Err(status) => return Err(status),
            Ok(()) => {}
        }
        self.step(alloc, &Signal::Tick { now }, sink)
    }

    /// The last moment, in milliseconds since 1970; 0 before the first tick.
    pub fn moment(&self) -> u64
        ensures { result ≡ self.now.front.table.moment }
    {
        self.front.moment()
    }

    /// A datagram of at most 4,352 octets waits for its batch; where the batch is full, that is handled and told first.
    /// `Write` where the sink fails, `NoMemory` where memory runs out.
    pub fn arrive<R: Threads + Sync, K: Sink, G: Gate + Sync>(
        &mut self,
        workers: &Workers<R, G>,
        alloc: Global,
        port: u16,
        from: Address,
        octets: &[u8],
        sink: &mut K,
    ) -> Result<(), Status>
        requires { length octets.now ≤ 4352 }
        ensures came { (s : State) → FrontStandsFor self.old.front s → (out : List ℕ)
            × Wrote (K.written sink.old) (K.written sink.new) out
            × HasRoom result s (waiting self.old ++ Datagram port from (as_octets octets.now) ∷ []) (waiting self.new) (FrontStandsFor self.new.front) out }
        ensures few { OnOk result (length self.new.waits ≤ 256) }
        ensures only { IfErr result (λ status. IsWant status) }
        ensures write { IsCaused Status.Write result (K.faults sink.old) (K.faults sink.new) (K.failed sink.new) }
    {
        match self.make_room(workers, alloc, sink) {
            Err(status) => return Err(status),
            Ok(()) => {}
        }
        self.wait(alloc, port, from, octets)
    }

    /// Where the batch is full, it is handled and told.
    fn make_room<R: Threads + Sync, K: Sink, G: Gate + Sync>(
        &mut self,
        workers: &Workers<R, G>,
        alloc: Global,
        sink: &mut K,
    ) -> Result<(), Status>
        ensures made { (s : State) → FrontStandsFor self.old.front s → (out : List ℕ)
            × Wrote (K.written sink.old) (K.written sink.new) out × HasRoom result s (waiting self.old) (waiting self.new) (FrontStandsFor self.new.front) out }
        ensures room { OnOk result (length self.new.waits < 256) }
        ensures only { IfErr result (λ status. IsWant status) }
        ensures write { IsCaused Status.Write result (K.faults sink.old) (K.faults sink.new) (K.failed sink.new) }
    {
        if self.arrivals.len() < BATCH_MOST {
            return Ok(());
        }
        self.settle(workers, alloc, sink)
    }

    /// Handles the datagrams that wait, and writes what becomes of them in order of arrival. `Write` where the sink fails,
    /// `NoMemory` where memory runs out: then a prefix of that is written.
    pub fn settle<R: Threads + Sync, K: Sink, G: Gate + Sync>(
        &mut self,
        workers: &Workers<R, G>,
        alloc: Global,
        sink: &mut K,
    ) -> Result<(), Status>
        ensures settled { (s : State) → FrontStandsFor self.old.front s → (out : List ℕ)
            × Wrote (K.written sink.old) (K.written sink.new) out × IsSettled result effects 258 s (waiting self.old) (waiting self.new) (FrontStandsFor self.new.front) out }
        ensures few { length self.old.waits ≤ 256 }
        ensures none { OnOk result (self.new.waits ≡ []) }
        ensures only { IfErr result (λ status. IsWant status) }
        ensures write { IsCaused Status.Write result (K.faults sink.old) (K.faults sink.new) (K.failed sink.new) }
    {
        if self.arrivals.as_slice().is_empty() {
            return Ok(());
        }
        let mut arrivals = mem::replace(&mut self.arrivals, Vec::new(alloc));
        let count = workers.count.min(arrivals.len()).max(1);
        self.front
            .batch(workers.rt, arrivals.as_mut_slice(), count, workers.gate);
        match tell_ends(&arrivals, &mut self.lines, sink) {
            Err(status) => return Err(status),
            Ok(()) => {}
        }
        keep_pads(&mut self.spare, &mut arrivals);
        self.arrivals = arrivals;
        Ok(())
    }

    /// The same, and the sink passes on what it holds, of which no clause tells.
    pub fn settle_at_once<R: Threads + Sync, K: Sink, G: Gate + Sync>(
        &mut self,
        workers: &Workers<R, G>,
        alloc: Global,
        sink: &mut K,
    ) -> Result<(), Status>
        ensures settled { (s : State) → FrontStandsFor self.old.front s → (out : List ℕ)
            × Wrote (K.written sink.old) (K.written sink.new) out × IsSettled result effects 258 s (waiting self.old) (waiting self.new) (FrontStandsFor self.new.front) out }
        ensures few { length self.old.waits ≤ 256 }
        ensures none { OnOk result (self.new.waits ≡ []) }
        ensures only { IfErr result (λ status. IsWant status) }
        ensures write { IsCaused Status.Write result (K.faults sink.old) (K.faults sink.new) (K.failed sink.new) }
    {
        match self.settle(workers, alloc, sink) {
            Err(status) => return Err(status),
            Ok(()) => {}
        }
        pass_on(false, sink)
    }

    /// The status of a run of which nothing more is read, for this reason: what waits is handled and told first, and passed
    /// on, of which no clause tells. `Write` where the sink fails, `NoMemory` where memory runs out.
    pub fn close<R: Threads + Sync, K: Sink, G: Gate + Sync>(
        &mut self,
        workers: &Workers<R, G>,
        alloc: Global,
        end: Status,
        sink: &mut K,
    ) -> Status
        requires { end ≢ Status.Write }
        ensures closed { (s : State) → FrontStandsFor self.old.front s → (out : List ℕ)
            × Wrote (K.written sink.old) (K.written sink.new) out × Closes end result effects 258 s (waiting self.old) out }
        ensures write { HasFailed (result ≡ Status.Write) (K.faults sink.old) (K.faults sink.new) (K.failed sink.new) }
    {
        match self.settle_at_once(workers, alloc, sink) {
            Err(status) => status,
            Ok(()) => end,
        }
    }

    /// A datagram waits.
    fn wait(&mut self, alloc: Global, port: u16, from: Address, octets: &[u8]) -> Result<(), Status>
        requires room { length self.old.waits < 256 }
        requires short { length octets.now ≤ 4352 }
        ensures waits { OnOk result (waiting self.new ≡ waiting self.old ++ Datagram port from (as_octets octets.now) ∷ []) }
        ensures front { self.new.front ≡ self.old.front }
        ensures only { IfErr result (λ status. status ≡ Status.NoMemory) }
        ensures few { OnOk result (length self.new.waits ≤ 256) }
    {
        let mut pad = match self.take_pad(alloc) {
            Err(NoMemory) => return Err(Status::NoMemory),
            Ok(pad) => pad,
        };
        let _ = pad.fill(octets);
        let arrival = Arrival {
            port,
            from,
            pad: Some(pad),
            end: None,
        };
        match self.arrivals.push(arrival) {
            Err(_) => Err(Status::NoMemory),
            Ok(()) => Ok(()),
        }
    }

    /// A pad, whatever it holds.
    fn take_pad(&mut self, alloc: Global) -> Result<Pad, NoMemory>
        ensures { self.new ≡ self.old }
    {
        match self.spare.pop() {
            Some(pad) => Ok(pad),
            None => Pad::make(alloc),
        }
    }

    /// Takes a signal that is a tick and tells nothing; else nothing is done, and it is false.
    fn passes_quietly(&mut self, signal: &Signal) -> bool
        requires { IsTimely signal.now }
        ensures told { result ≡ true → (s : State) → FrontStandsFor self.old.front s → IsTold [] self.new.front s (events_of_signal signal.now) }
        ensures same { result ≡ false → self.new.front ≡ self.old.front }
        ensures waits { self.new.waits ≡ self.old.waits }
    {
        match signal {
            Signal::Tick { now } => self.front.tick_quietly(*now),
            _ => false,
        }
    }

    /// Handles a signal that has its noise, and writes what it tells.
    fn step<K: Sink>(&mut self, alloc: Global, signal: &Signal, sink: &mut K) -> Result<(), Status>
        requires ready { signal_lacks_noise signal.now ≡ false }
        requires timely { IsTimely signal.now }
        ensures stepped { (s : State) → FrontStandsFor self.old.front s → (out : List ℕ)
            × Wrote (K.written sink.old) (K.written sink.new) out × IsStepped result s (events_of_signal signal.now) (FrontStandsFor self.new.front) out }
        ensures waits { self.new.waits ≡ self.old.waits }
        ensures only { IfErr result (λ status. IsWant status) }
        ensures write { IsCaused Status.Write result (K.faults sink.old) (K.faults sink.new) (K.failed sink.new) }
    {
        if self.passes_quietly(signal) {
            return Ok(());
        }
        match self.front.take(alloc, signal, &mut self.told) {
            Err(NoMemory) => return Err(Status::NoMemory),
            Ok(()) => {}
        }
        tell_all(alloc, self.told.as_slice(), sink)
    }
}

/// Keeps the pads of datagrams that are told, to be used again; none of them is left.
fn keep_pads(spare: &mut Vec<Pad>, told: &mut Vec<Arrival>)
    ensures { told.new.items ≡ [] }
{
    'told: while let Some(arrival) = told.pop() {
        if let Some(pad) = arrival.pad {
            let _ = spare.push(pad);
        }
    }
}
