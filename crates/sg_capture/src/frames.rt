//! What a record's frame gives.

ghost use Rattle.std.specs.Prelude.{◌≡◌, ◌≤◌, ◌∷◌, [], ℕ, List, IfErr, OnOk, length, map};
ghost use Rattle.sg_capture.specs.Meeting.{IsMet, StandsFor};
ghost use Rattle.sg_edge.specs.Told.{Wrote};
ghost use Rattle.sg_gateway.specs.World.{World};
ghost use Rattle.sg_pcap.specs.Frames.{frame_of};
ghost use Rattle.sg_playback.specs.Playing.{waiting};
ghost use Rattle.sg_trace.specs.Captured.{Happens, Skipped, frame_occurs};
ghost use Rattle.sg_trace.specs.Causes.{IsCaused};
ghost use Rattle.sg_pcap.specs.Skips.{skip_line};
ghost use Rattle.sg_trace.specs.Output.{IsWritten};
ghost use Rattle.sg_trace.specs.Trace.{ticks_at};

use sg_base::PAD_MOST;
use sg_edge::{Sink, write_all};
use sg_lanes::Gate;
use sg_pcap::{Frame, SkipCause, print_skip, read_frame};
use sg_playback::{Player, Workers};
use sg_trace::Status;
use std::alloc::Global;
use std::thread::Threads;

/// A tick to the record's moment, where it is greater than all before.
pub(crate) fn come_to<R: Threads + Sync, K: Sink, G: Gate + Sync>(
    workers: &Workers<R, G>,
    alloc: Global,
    player: &mut Player,
    top: u64,
    moment: u64,
    sink: &mut K,
) -> Result<(), Status>
    requires moment { moment ≤ 2085978495999 }
    requires few { length player.old.waits ≤ 256 }
    ensures met { (w : World) → StandsFor player.old.front w → (out : List ℕ) × Wrote (K.written sink.old) (K.written sink.new) out
        × IsMet result w (waiting player.old) (waiting player.new) (map Happens (ticks_at top moment)) (StandsFor player.new.front) out }
    ensures few { OnOk result (length player.new.waits ≤ 256) }
    ensures write { IsCaused Status.Write result (K.faults sink.old) (K.faults sink.new) (K.failed sink.new) }
{
    if moment <= top {
        return Ok(());
    }
    player.tick(workers, alloc, moment, sink)
}

/// The datagram of the record's frame waits for its batch, or the line of the record is told.
pub(crate) fn play_frame<R: Threads + Sync, K: Sink, G: Gate + Sync>(
    workers: &Workers<R, G>,
    alloc: Global,
    player: &mut Player,
    number: u64,
    frame: &[u8],
    sink: &mut K,
) -> Result<(), Status>
    requires { length player.old.waits ≤ 256 }
    ensures met { (w : World) → StandsFor player.old.front w → (out : List ℕ) × Wrote (K.written sink.old) (K.written sink.new) out
        × IsMet result w (waiting player.old) (waiting player.new) (frame_occurs number (frame_of frame.now)) (StandsFor player.new.front) out }
    ensures few { OnOk result (length player.new.waits ≤ 256) }
    ensures write { IsCaused Status.Write result (K.faults sink.old) (K.faults sink.new) (K.failed sink.new) }
{
    match read_frame(frame) {
        Frame::Passed => Ok(()),
        Frame::Skip(cause) => tell_skip(workers, alloc, player, number, cause, sink),
        Frame::Datagram { port, from, octets } => {
            let counted = octets.len().min(PAD_MOST);
            player.arrive(workers, alloc, port, from, &octets[..counted], sink)
        }
    }
}

/// Writes the line of a record that is skipped, once what waits is told.
fn tell_skip<R: Threads + Sync, K: Sink, G: Gate + Sync>(
    workers: &Workers<R, G>,
    alloc: Global,
    player: &mut Player,
    number: u64,
    cause: SkipCause,
    sink: &mut K,
) -> Result<(), Status>
    ensures met { (w : World) → StandsFor player.old.front w → (out : List ℕ) × Wrote (K.written sink.old) (K.written sink.new) out
        × IsMet result w (waiting player.old) (waiting player.new) (Skipped number cause ∷ []) (StandsFor player.new.front) out }
    ensures few { OnOk result (length player.new.waits ≤ 256) }
    ensures write { IsCaused Status.Write result (K.faults sink.old) (K.faults sink.new) (K.failed sink.new) }
{
    match player.settle(workers, alloc, sink) {
        Err(status) => return Err(status),
        Ok(()) => {}
    }
    write_skip(alloc, number, cause, sink)
}

/// Writes the line of a record that is skipped.
fn write_skip<K: Sink>(
    alloc: Global,
    number: u64,
    cause: SkipCause,
    sink: &mut K,
) -> Result<(), Status>
    ensures told { IsWritten result (K.written sink.old) (K.written sink.new) (skip_line number cause) }
    ensures cause { IsCaused Status.Write result (K.faults sink.old) (K.faults sink.new) (K.failed sink.new) }
{
    let line = print_skip(alloc, number, cause).map_err(|_| Status::NoMemory)?;
    write_all(sink, line.as_slice()).map_err(|_| Status::Write)
}
