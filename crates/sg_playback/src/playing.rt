//! A script is played by a player and its workers.

ghost use Rattle.std.specs.Prelude.{◌≡◌, ◌≤◌, ◌+◌, ◌^◌, ℕ, true, false, List, [], Option, Some, IfErr, IfSome, IsOk, OnOk, length};
ghost use Rattle.sg_edge.specs.Links.{Added};
ghost use Rattle.sg_edge.specs.Told.{Wrote};
ghost use Rattle.sg_front.specs.States.{FrontStandsFor, State};
ghost use Rattle.sg_gateway.specs.Step.{Event};
ghost use Rattle.sg_lines.specs.LineText.{FitsLine};
ghost use Rattle.sg_lines.specs.declared.lines.Line.{Line};
ghost use Rattle.sg_playback.specs.Playing.{effects, waiting};
ghost use Rattle.sg_playback.specs.Scripts.{HasPlayed, HasSettled, IsScriptPlayed, IsStaffed, gives_of};
ghost use Rattle.sg_trace.specs.Causes.{EndedBy, IsCaused};
ghost use Rattle.sg_trace.specs.Loop.{GoInOrder, IsPlayed, IsSettled, IsWant, ways_of};

use crate::player::{Player, Workers};
use sg_edge::{Noise, Sink, Source};
use sg_lanes::Gate;
use sg_lines::Line;
use sg_trace::{Play, ScriptLine, ScriptReader, Status};
use std::alloc::Global;
use std::marker::PhantomData;
use std::thread::Threads;

/// A line of a kind of script that a player plays.
pub trait PlayedLine: ScriptLine + Drop {
    /// What a player plays of it; nothing of the last, behind which no line stands.
    ghost played: { Self → Option Line };

    /// What a player plays of it.
    fn into_line(self) -> Option<Line>
        requires { (version number : ℕ) × Self.fits version number self }
        ensures played { result ≡ played self }
        ensures fits { IfSome result (λ line. (version number : ℕ) × FitsLine version number line) };
}

impl PlayedLine for Line {
    ghost played = { λ line. Some line };

    fn into_line(self) -> Option<Line> {
        Some(self)
    }
}

/// Plays the script of the source, from its first line to the last, by a player for which nothing waits, and gives it back.
/// Then all that the lines tell is told and passed on, and the reader is behind the last line. Where the run ends before, that
/// is its status: whatever ends the reading, what waits is told then, and where that fails it is that fault's. What is told is
/// passed on before a read that may wait, of which no clause tells.
pub fn play_lines<L: PlayedLine, R: Threads + Sync, S: Source, K: Sink, N: Noise, G: Gate + Sync>(
    workers: &Workers<R, G>,
    alloc: Global,
    player: Player,
    script: &mut ScriptReader,
    source: &mut S,
    sink: &mut K,
    noise: &mut N,
) -> Result<Player, Status>
    requires front { (s : State) × FrontStandsFor player.front s }
    requires waits { player.waits ≡ [] }
    requires start { script.old ≡ record { waits = []; version = 1; number = 1; offset = 0; budget = 2 ^ 30 + 1 } }
    ensures ran { (s : State) → FrontStandsFor player.front s → (octets draws out : List ℕ)
        × IsScriptPlayed result (ways_of L.spelled L.followed L.last (λ l. gives_of (L.played l))) s
        (record { left = S.left source.old; written = K.written sink.old; drawn = N.given noise.old })
        (record { left = S.left source.new; written = K.written sink.new; drawn = N.given noise.new })
        script.new octets draws out }
    ensures given { (S.left source.new).count + script.new.budget ≤ (S.left source.old).count + (2 ^ 30 + 1) }
    ensures read { IfErr result (λ status. EndedBy (status ≡ Status.Read) (IsWant status) (S.faults source.old) (S.faults source.new) (S.failed source.new)) }
    ensures sound { OnOk result (S.faults source.new ≡ S.faults source.old) }
    ensures write { IsCaused Status.Write result (K.faults sink.old) (K.faults sink.new) (K.failed sink.new) }
    ensures noise { IsCaused Status.Noise result (N.faults noise.old) (N.faults noise.new) (N.failed noise.new) }
{
    let mut staffed = Staffed {
        player,
        playing: |player: &mut Player, line: Line, sink: &mut K, noise: &mut N| -> Result<
            (),
            Status,
        >
            requires { (version number : ℕ) × FitsLine version number line }
            ensures { HasPlayed line result player.old player.new (K.written sink.old) (K.written sink.new) (N.given noise.old) (N.given noise.new)
                (K.faults sink.old) (K.faults sink.new) (K.failed sink.new) (N.faults noise.old) (N.faults noise.new) (N.failed noise.new) }
        { player.play(workers, alloc, line, sink, noise) },
        settling: |player: &mut Player, sink: &mut K| -> Result<(), Status>
            ensures { HasSettled result player.old player.new (K.written sink.old) (K.written sink.new) (K.faults sink.old) (K.faults sink.new) (K.failed sink.new) }
        { player.settle_at_once(workers, alloc, sink) },
        lines: PhantomData::<L>,
    };
    match sg_trace::play_lines(alloc, &mut staffed, script, source, sink, noise) {
        Err(status) => Err(status),
        Ok(()) => Ok(staffed.player),
    }
}

/// A player, and how it plays a line and tells what waits by its workers: no method of a trait can hand on what they need.
#[derive(Drop)]
struct Staffed<L, F, E> {
    player: Player,
    playing: F,
    settling: E,
    lines: PhantomData<L>,
}

impl<
    K: Sink,
    N: Noise,
    L: PlayedLine,
    F: Fn(&mut Player, Line, &mut K, &mut N) -> Result<(), Status>,
    E: Fn(&mut Player, &mut K) -> Result<(), Status>,
> Play<K, N> for Staffed<L, F, E> {
    type Line = L;

    ghost Deed = { Event };

    ghost State = { State };

    ghost gives = { λ l. gives_of (L.played l) };

    ghost effects = { effects };

    ghost stands = { λ s state. IsStaffed (F.pre s.playing) (F.post s.playing) (E.pre s.settling) (E.post s.settling) (λ p. p.now)
        (λ k. K.written k.now) (λ k. K.faults k.now) (λ k. K.failed k.now) (λ n. N.given n.now) (λ n. N.faults n.now) (λ n. N.failed n.now) s.player state };

    ghost waits = { λ s. waiting s.player };

    ghost batch = { 258 };

    ghost is_prompt = { false };

    fn play(&mut self, _alloc: Global, line: L, sink: &mut K, noise: &mut N) -> Result<(), Status>
        requires fits { (version number : ℕ) × L.fits version number line }
        requires stands { (s : State) × IsStaffed (F.pre self.old.playing) (F.post self.old.playing) (E.pre self.old.settling) (E.post self.old.settling) (λ p. p.now)
            (λ k. K.written k.now) (λ k. K.faults k.now) (λ k. K.failed k.now) (λ n. N.given n.now) (λ n. N.faults n.now) (λ n. N.failed n.now) self.old.player s }
        ensures played { (s : State) → IsStaffed (F.pre self.old.playing) (F.post self.old.playing) (E.pre self.old.settling) (E.post self.old.settling) (λ p. p.now)
            (λ k. K.written k.now) (λ k. K.faults k.now) (λ k. K.failed k.now) (λ n. N.given n.now) (λ n. N.faults n.now) (λ n. N.failed n.now) self.old.player s
            → (draws out : List ℕ) × Added (N.given noise.old) (N.given noise.new) draws × Wrote (K.written sink.old) (K.written sink.new) out
            × IsPlayed result effects (gives_of (L.played line)) 258 s (waiting self.old.player) (waiting self.new.player)
            (IsStaffed (F.pre self.new.playing) (F.post self.new.playing) (E.pre self.new.settling) (E.post self.new.settling) (λ p. p.now)
            (λ k. K.written k.now) (λ k. K.faults k.now) (λ k. K.failed k.now) (λ n. N.given n.now) (λ n. N.faults n.now) (λ n. N.failed n.now) self.new.player) draws out }
        ensures few { OnOk result (length (waiting self.new.player) ≤ 258) }
        ensures write { IsCaused Status.Write result (K.faults sink.old) (K.faults sink.new) (K.failed sink.new) }
        ensures noise { IsCaused Status.Noise result (N.faults noise.old) (N.faults noise.new) (N.failed noise.new) }
    {
        match line.into_line() {
            None => Ok(()),
            Some(line) => (self.playing)(&mut self.player, line, sink, noise),
        }
    }

    fn settle(&mut self, _alloc: Global, sink: &mut K) -> Result<(), Status>
        requires { (s : State) × IsStaffed (F.pre self.old.playing) (F.post self.old.playing) (E.pre self.old.settling) (E.post self.old.settling) (λ p. p.now)
            (λ k. K.written k.now) (λ k. K.faults k.now) (λ k. K.failed k.now) (λ n. N.given n.now) (λ n. N.faults n.now) (λ n. N.failed n.now) self.old.player s }
        ensures settled { (s : State) → IsStaffed (F.pre self.old.playing) (F.post self.old.playing) (E.pre self.old.settling) (E.post self.old.settling) (λ p. p.now)
            (λ k. K.written k.now) (λ k. K.faults k.now) (λ k. K.failed k.now) (λ n. N.given n.now) (λ n. N.faults n.now) (λ n. N.failed n.now) self.old.player s
            → (out : List ℕ) × Wrote (K.written sink.old) (K.written sink.new) out
            × IsSettled result effects 258 s (waiting self.old.player) (waiting self.new.player)
            (IsStaffed (F.pre self.new.playing) (F.post self.new.playing) (E.pre self.new.settling) (E.post self.new.settling) (λ p. p.now)
            (λ k. K.written k.now) (λ k. K.faults k.now) (λ k. K.failed k.now) (λ n. N.given n.now) (λ n. N.faults n.now) (λ n. N.failed n.now) self.new.player) out }
        ensures only { IfErr result (λ status. IsWant status) }
        ensures sure { false ≡ true → IsOk result }
        ensures write { IsCaused Status.Write result (K.faults sink.old) (K.faults sink.new) (K.failed sink.new) }
    {
        (self.settling)(&mut self.player, sink)
    }

    fn are_in_order()
        ensures { GoInOrder effects }
    {}

    ghost at_once = { λ is _. absurd cc };
}
