//! The command `replay`: the lines of a script, in order.

ghost use Rattle.std.specs.Prelude.{◌≡◌, ◌≤◌, ◌+◌, ◌^◌, ℕ, List};
ghost use Rattle.sg_trace.specs.Causes.{EndedBy, HasFailed};
ghost use Rattle.sg_trace.specs.Loop.{IsWant};
ghost use Rattle.sg_edge.specs.Told.{Rose};
ghost use Rattle.sg_playback.specs.Replay.{IsCompleteReplay, IsReplay};

use crate::player::{Player, Workers};
use crate::playing::play_lines;
use sg_base::NoMemory;
use sg_edge::{Noise, Sink, Source};
use sg_lanes::Gate;
use sg_lines::Line;
use sg_trace::{ScriptReader, Status, passed_on};
use std::alloc::Global;
use std::thread::Threads;

/// Plays the script of the source: its lines in order, from a table without calls, and what they tell is written to
/// the sink. With `muxes` legs share their ports where their descriptions agree on it (RFC 5761). In a script of version
/// 2 a tick to its moment comes before a datagram. Consecutive datagram lines form batches of at most 256, which in
/// version 2 also end before a line whose moment isn't that of the line before. The workers share out a batch, each of
/// them passing the gate; what is written is the same for every number of workers and every gate, unless the sink fails or
/// memory runs out. Where a signal lacks its noise, 304 octets are drawn. It ends with `Done` at the source's end; with
/// `Script` at the first line outside the grammar; with `Read` where the source fails, once all whole lines that were read
/// are told; with `Noise` where no noise can be drawn; with `Write` where the sink fails; or with `NoMemory`. What is told is
/// passed on before a read that may wait, and at the end, of which no clause tells.
/// It isn't inlined, so no other command has its frame.
#[inline(never)]
pub fn replay<R: Threads + Sync, S: Source, K: Sink, N: Noise, G: Gate + Sync>(
    workers: &Workers<R, G>,
    alloc: Global,
    muxes: bool,
    source: &mut S,
    sink: &mut K,
    noise: &mut N,
) -> Status
    ensures ran { (octets draws out : List ℕ)
        × IsReplay muxes result
        (record { left = S.left source.old; written = K.written sink.old; drawn = N.given noise.old })
        (record { left = S.left source.new; written = K.written sink.new; drawn = N.given noise.new })
        octets draws out }
    ensures given { (S.left source.new).count ≤ (S.left source.old).count + (2 ^ 30 + 1) }
    ensures read { EndedBy (result ≡ Status.Read) (IsWant result) (S.faults source.old) (S.faults source.new) (S.failed source.new) }
    ensures write { HasFailed (result ≡ Status.Write) (K.faults sink.old) (K.faults sink.new) (K.failed sink.new) }
    ensures noise { HasFailed (result ≡ Status.Noise) (N.faults noise.old) (N.faults noise.new) (N.failed noise.new) }
    ensures complete { ¬ Rose (S.faults source.old) (S.faults source.new) → ¬ Rose (K.faults sink.old) (K.faults sink.new) → ¬ Rose (N.faults noise.old) (N.faults noise.new)
        → IsCompleteReplay result (S.left source.old) (S.left source.new) }
{
    match Player::make(alloc, muxes) {
        Err(NoMemory) => Status::NoMemory,
        Ok(player) => {
            let mut script = ScriptReader::new(alloc);
            match play_lines::<Line, R, S, K, N, G>(
                workers,
                alloc,
                player,
                &mut script,
                source,
                sink,
                noise,
            ) {
                Err(status) => passed_on(status, sink),
                // no line is the last
                Ok(_) => unreachable!(),
            }
        }
    }
}
