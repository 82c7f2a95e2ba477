//! The command `capture`: the lines of a script, and then a capture.

ghost use Rattle.std.specs.Prelude.{◌≡◌, ◌≤◌, ◌+◌, ◌^◌, ℕ, List, []};
ghost use Rattle.sg_capture.specs.Capturing.{IsCapture, IsCompleteCapture};
ghost use Rattle.sg_capture.specs.Meeting.{StandsFor};
ghost use Rattle.sg_edge.specs.Told.{Rose};
ghost use Rattle.sg_gateway.specs.World.{empty};
ghost use Rattle.sg_trace.specs.Causes.{EndedBy, HasFailed};
ghost use Rattle.sg_trace.specs.Loop.{IsWant};

use crate::lines::CaptureLine;
use crate::records::play_capture;
use sg_base::NoMemory;
use sg_edge::{Noise, Sink, Source};
use sg_lanes::Gate;
use sg_playback::{Player, Workers, play_lines};
use sg_trace::{CaptureReader, ScriptReader, Status, passed_on};
use std::alloc::Global;
use std::thread::Threads;

/// Plays the script of the source, and then the capture behind its line `capture`: its UDP datagrams at the moments of their
/// records, the first of which has the script's last moment. What they tell is written to the sink, with a line for each
/// record whose datagram can't be had. Without that line it is a replay by one worker. It ends with `Done` at the source's
/// end; with `Script` or `Capture` at the first fault, of a line or of the capture; with `Read` where the source fails, once
/// all whole lines and records that were read are told; with `Noise` where no noise can be drawn; with `Write` where the sink
/// fails; or with `NoMemory`. What is told is passed on before a read that may wait, and at the end, of which no clause
/// tells.
/// It isn't inlined, so no other command has its frame.
#[inline(never)]
pub fn capture<R: Threads + Sync, S: Source, K: Sink, N: Noise, G: Gate + Sync>(
    rt: &R,
    alloc: Global,
    source: &mut S,
    sink: &mut K,
    noise: &mut N,
    gate: &G,
) -> Status
    ensures ran { (octets draws out : List ℕ)
        × IsCapture result
        (record { left = S.left source.old; written = K.written sink.old; drawn = N.given noise.old })
        (record { left = S.left source.new; written = K.written sink.new; drawn = N.given noise.new })
        octets draws out }
    ensures given { (S.left source.new).count ≤ (S.left source.old).count + (2 ^ 30 + 1) }
    ensures read { EndedBy (result ≡ Status.Read) (IsWant result) (S.faults source.old) (S.faults source.new) (S.failed source.new) }
    ensures write { HasFailed (result ≡ Status.Write) (K.faults sink.old) (K.faults sink.new) (K.failed sink.new) }
    ensures noise { HasFailed (result ≡ Status.Noise) (N.faults noise.old) (N.faults noise.new) (N.failed noise.new) }
    ensures complete { ¬ Rose (S.faults source.old) (S.faults source.new) → ¬ Rose (K.faults sink.old) (K.faults sink.new) → ¬ Rose (N.faults noise.old) (N.faults noise.new)
        → IsCompleteCapture result (S.left source.old) (S.left source.new) }
{
    match Player::make(alloc, false) {
        Err(NoMemory) => Status::NoMemory,
        Ok(player) => {
            let workers = Workers { rt, count: 1, gate };
            let end = play_source(&workers, alloc, player, source, sink, noise);
            passed_on(end, sink)
        }
    }
}

/// The same by a player that has played nothing.
fn play_source<R: Threads + Sync, S: Source, K: Sink, N: Noise, G: Gate + Sync>(
    workers: &Workers<R, G>,
    alloc: Global,
    player: Player,
    source: &mut S,
    sink: &mut K,
    noise: &mut N,
) -> Status
    requires front { StandsFor player.front empty }
    requires waits { player.waits ≡ [] }
    ensures ran { (octets draws out : List ℕ)
        × IsCapture result
        (record { left = S.left source.old; written = K.written sink.old; drawn = N.given noise.old })
        (record { left = S.left source.new; written = K.written sink.new; drawn = N.given noise.new })
        octets draws out }
    ensures given { (S.left source.new).count ≤ (S.left source.old).count + (2 ^ 30 + 1) }
    ensures read { EndedBy (result ≡ Status.Read) (IsWant result) (S.faults source.old) (S.faults source.new) (S.failed source.new) }
    ensures write { HasFailed (result ≡ Status.Write) (K.faults sink.old) (K.faults sink.new) (K.failed sink.new) }
    ensures noise { HasFailed (result ≡ Status.Noise) (N.faults noise.old) (N.faults noise.new) (N.failed noise.new) }
{
    let mut script = ScriptReader::new(alloc);
    match play_lines::<CaptureLine, R, S, K, N, G>(
        workers,
        alloc,
        player,
        &mut script,
        source,
        sink,
        noise,
    ) {
        Err(status) => status,
        Ok(mut player) => {
            let mut reader = CaptureReader::new(alloc, script);
            play_capture(workers, alloc, &mut player, &mut reader, source, sink)
        }
    }
}
