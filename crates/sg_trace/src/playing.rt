//! What plays a script, and the loop that hands it the lines.

ghost use Rattle.std.specs.Prelude.{◌≡◌, ◌≢◌, ◌≤◌, ◌+◌, ◌^◌, ℕ, Bool, true, false, [], List, Option, IfErr, IsOk, OnOk, length};
ghost use Rattle.sg_edge.specs.Links.{Added};
ghost use Rattle.sg_edge.specs.Told.{Rose, Wrote};
ghost use Rattle.sg_trace.specs.Causes.{EndedBy, HasFailed, IsCaused};
ghost use Rattle.sg_trace.specs.Course.{Given};
ghost use Rattle.sg_trace.specs.Loop.{Closes, Effects, GoInOrder, IsCompleteRun, IsPlayed, IsRun, IsScriptPlayed, IsSettled, IsWant, ways_of};

use crate::passing_on::{pass_on, passed_on};
use crate::script_line::ScriptLine;
use crate::script_reader::ScriptReader;
use crate::status::Status;
use sg_edge::{Noise, Sink, Source};
use std::alloc::Global;

/// What plays the lines of a script, and tells a sink of them. It may tell of a line later than it takes it: what isn't
/// told yet waits.
pub trait Play<K: Sink, N: Noise> {
    type Line: ScriptLine + Drop;

    /// What a line gives, as an event.
    ghost Deed: { Type 0 };

    ghost State: { Type 0 };

    /// What a line gives of the noise that comes.
    ghost gives: { Self.Line → List ℕ → Option (Given Deed) };

    ghost effects: { Effects State Deed };

    /// The states for which it stands.
    ghost stands: { Self → State → Type 0 };

    /// What waits, and how many deeds may be under way.
    ghost waits: { Self → List Deed };

    ghost batch: { ℕ };

    /// Whether it tells each line at once.
    ghost is_prompt: { Bool };

    /// Takes a line. `Noise` where the noise that it lacks can't be drawn, `Write` where the sink fails, and `NoMemory` where
    /// memory runs out.
    fn play(
        &mut self,
        alloc: Global,
        line: Self::Line,
        sink: &mut K,
        noise: &mut N,
    ) -> Result<(), Status>
        requires fits { (version number : ℕ) × Self.Line.fits version number line }
        requires stands { (s : State) × stands self.old s }
        ensures played { (s : State) → stands self.old s → (draws out : List ℕ)
            × Added (N.given noise.old) (N.given noise.new) draws × Wrote (K.written sink.old) (K.written sink.new) out
            × IsPlayed result effects (gives line) batch s (waits self.old) (waits self.new) (stands self.new) draws out }
        ensures few { OnOk result (length (waits self.new) ≤ batch) }
        ensures write { IsCaused Status.Write result (K.faults sink.old) (K.faults sink.new) (K.failed sink.new) }
        ensures noise { IsCaused Status.Noise result (N.faults noise.old) (N.faults noise.new) (N.failed noise.new) };

    /// Tells what waits, and has it passed on. `Write` where the sink fails, and `NoMemory` where memory runs out; neither
    /// where it tells each line at once.
    fn settle(&mut self, alloc: Global, sink: &mut K) -> Result<(), Status>
        requires { (s : State) × stands self.old s }
        ensures settled { (s : State) → stands self.old s → (out : List ℕ) × Wrote (K.written sink.old) (K.written sink.new) out
            × IsSettled result effects batch s (waits self.old) (waits self.new) (stands self.new) out }
        ensures only { IfErr result (λ status. IsWant status) }
        ensures sure { is_prompt ≡ true → IsOk result }
        ensures write { IsCaused Status.Write result (K.faults sink.old) (K.faults sink.new) (K.failed sink.new) };

    /// Deeds are done in order.
    fn are_in_order()
        ensures { GoInOrder effects };

    ghost at_once: { is_prompt ≡ true → (player : Self) → waits player ≡ [] };
}

/// Plays the script of the source, line by line, by something for which nothing waits: a script of which no line is the last.
/// Whatever ends the reading, what waits is told then; where that fails, the status is that fault's. What is told is passed on
/// before a read that may wait, and at the end, of which no clause tells. It ends with `Done` at the source's end; with
/// `Script` at the first line outside the grammar; with `Read`, `Write` or `Noise` where the source, the sink or the noise
/// fails; or with `NoMemory`.
pub fn run_script<K: Sink, N: Noise, P: Play<K, N>, S: Source>(
    alloc: Global,
    player: &mut P,
    source: &mut S,
    sink: &mut K,
    noise: &mut N,
) -> Status
    requires stands { (s : P.State) × P.stands player.old s }
    requires waits { P.waits player.old ≡ [] }
    requires lines { (line : P.Line) → P.Line.last line ≡ false }
    ensures ran { (s : P.State) → P.stands player.old s → (octets draws out : List ℕ)
        × IsRun (ways_of P.Line.spelled P.Line.followed P.Line.last P.gives) (P.effects.tells s) P.batch P.is_prompt result
        (record { left = S.left source.old; written = K.written sink.old; drawn = N.given noise.old })
        (record { left = S.left source.new; written = K.written sink.new; drawn = N.given noise.new })
        octets draws out }
    ensures given { (S.left source.new).count ≤ (S.left source.old).count + (2 ^ 30 + 1) }
    ensures read { EndedBy (result ≡ Status.Read) (IsWant result) (S.faults source.old) (S.faults source.new) (S.failed source.new) }
    ensures prompt { P.is_prompt ≡ true → HasFailed (result ≡ Status.Read) (S.faults source.old) (S.faults source.new) (S.failed source.new) }
    ensures write { HasFailed (result ≡ Status.Write) (K.faults sink.old) (K.faults sink.new) (K.failed sink.new) }
    ensures noise { HasFailed (result ≡ Status.Noise) (N.faults noise.old) (N.faults noise.new) (N.failed noise.new) }
    ensures complete { ¬ Rose (S.faults source.old) (S.faults source.new) → ¬ Rose (K.faults sink.old) (K.faults sink.new) → ¬ Rose (N.faults noise.old) (N.faults noise.new)
        → IsCompleteRun (ways_of P.Line.spelled P.Line.followed P.Line.last P.gives) result (S.left source.old) (S.left source.new) }
{
    let mut script = ScriptReader::new(alloc);
    match play_lines(alloc, player, &mut script, source, sink, noise) {
        Err(status) => passed_on(status, sink),
        // no line is the last
        Ok(()) => unreachable!(),
    }
}

/// Plays the script of the source, from its first line to the last, by something for which nothing waits. Then all that the
/// lines tell is told and passed on, and the reader is behind the last line. Where the run ends before, that is its status, and
/// the sink may hold the last of what is told.
pub fn play_lines<K: Sink, N: Noise, P: Play<K, N>, S: Source>(
    alloc: Global,
    player: &mut P,
    script: &mut ScriptReader,
    source: &mut S,
    sink: &mut K,
    noise: &mut N,
) -> Result<(), Status>
    requires stands { (s : P.State) × P.stands player.old s }
    requires waits { P.waits player.old ≡ [] }
    requires start { script.old ≡ record { waits = []; version = 1; number = 1; offset = 0; budget = 2 ^ 30 + 1 } }
    ensures ran { (s : P.State) → P.stands player.old s → (octets draws out : List ℕ)
        × IsScriptPlayed result (ways_of P.Line.spelled P.Line.followed P.Line.last P.gives) P.effects s P.batch P.is_prompt
        (record { left = S.left source.old; written = K.written sink.old; drawn = N.given noise.old })
        (record { left = S.left source.new; written = K.written sink.new; drawn = N.given noise.new })
        script.new (P.stands player.new) octets draws out }
    ensures none { OnOk result (P.waits player.new ≡ []) }
    ensures given { (S.left source.new).count + script.new.budget ≤ (S.left source.old).count + (2 ^ 30 + 1) }
    ensures read { IfErr result (λ status. EndedBy (status ≡ Status.Read) (IsWant status) (S.faults source.old) (S.faults source.new) (S.failed source.new)) }
    ensures prompt { P.is_prompt ≡ true → IfErr result (λ status. HasFailed (status ≡ Status.Read) (S.faults source.old) (S.faults source.new) (S.failed source.new)) }
    ensures sound { OnOk result (S.faults source.new ≡ S.faults source.old) }
    ensures write { IsCaused Status.Write result (K.faults sink.old) (K.faults sink.new) (K.failed sink.new) }
    ensures noise { IsCaused Status.Noise result (N.faults noise.old) (N.faults noise.new) (N.failed noise.new) }
{
    P::are_in_order();
    'lines: loop {
        match pass_on(script.holds_line(), sink) {
            Err(status) => return Err(status),
            Ok(()) => {}
        }
        let line = match script.next::<P::Line, S>(alloc, source) {
            Err(status) => return Err(close(alloc, player, status, sink)),
            Ok(None) => return Err(close(alloc, player, Status::Done, sink)),
            Ok(Some(line)) => line,
        };
        if line.is_last() {
            return player.settle(alloc, sink);
        }
        match player.play(alloc, line, sink, noise) {
            Err(status) => return Err(status),
            Ok(()) => {}
        }
    }
}

/// The status of a run of which nothing more is read, for this reason: what waits is told first.
fn close<K: Sink, N: Noise, P: Play<K, N>>(
    alloc: Global,
    player: &mut P,
    end: Status,
    sink: &mut K,
) -> Status
    requires not_write { end ≢ Status.Write }
    requires stands { (s : P.State) × P.stands player.old s }
    ensures closed { (s : P.State) → P.stands player.old s → (out : List ℕ) × Wrote (K.written sink.old) (K.written sink.new) out
        × Closes end result P.effects P.batch s (P.waits player.old) out }
    ensures sure { P.is_prompt ≡ true → result ≡ end }
    ensures write { HasFailed (result ≡ Status.Write) (K.faults sink.old) (K.faults sink.new) (K.failed sink.new) }
{
    match player.settle(alloc, sink) {
        Err(status) => status,
        Ok(()) => end,
    }
}
