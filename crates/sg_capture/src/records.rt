//! The records of a capture, in order.

ghost use Rattle.std.specs.Prelude.{◌≡◌, ◌≤◌, ◌<◌, ◌+◌, ◌^◌, ◌++◌, ℕ, List, OnOk, length};
ghost use Rattle.sg_capture.specs.Meeting.{EndsReading, IsMet, StandsFor, first_of, record_occurs};
ghost use Rattle.sg_edge.specs.Told.{TookIn, Wrote};
ghost use Rattle.sg_gateway.specs.World.{World};
ghost use Rattle.sg_pcap.specs.Capture.{capture_of, records_in};
ghost use Rattle.sg_playback.specs.Playing.{waiting};
ghost use Rattle.sg_trace.specs.Causes.{EndedBy, HasFailed, IsCaused};
ghost use Rattle.sg_trace.specs.Loop.{IsWant};

use crate::frames::{come_to, play_frame};
use crate::progress::Progress;
use sg_edge::{Sink, Source};
use sg_lanes::Gate;
use sg_pcap::Form;
use sg_playback::{Player, Workers};
use sg_trace::{CaptureReader, Status, pass_on};
use std::alloc::Global;
use std::thread::Threads;

/// Plays a capture, of which nothing was read, to its end or its first fault.
pub(crate) fn play_capture<R: Threads + Sync, S: Source, K: Sink, G: Gate + Sync>(
    workers: &Workers<R, G>,
    alloc: Global,
    player: &mut Player,
    reader: &mut CaptureReader,
    source: &mut S,
    sink: &mut K,
) -> Status
    requires stands { (w : World) × StandsFor player.old.front w }
    requires start { reader.old.at ≡ 0 }
    requires most { reader.old.most ≤ 2 ^ 30 }
    requires few { length player.old.waits ≤ 256 }
    requires near { length reader.old.waits ≤ 4096 }
    ensures ran { (got : List ℕ) × TookIn (S.left source.old) (S.left source.new) got × (length got ≤ reader.old.budget)
        × ((w : World) → StandsFor player.old.front w → (out : List ℕ) × Wrote (K.written sink.old) (K.written sink.new) out
        × EndsReading result w (waiting player.old) player.old.front.table.moment (capture_of reader.old.most) (reader.old.waits ++ got) out (S.left source.new)) }
    ensures given { (S.left source.new).count ≤ (S.left source.old).count + reader.old.budget }
    ensures read { EndedBy (result ≡ Status.Read) (IsWant result) (S.faults source.old) (S.faults source.new) (S.failed source.new) }
    ensures write { HasFailed (result ≡ Status.Write) (K.faults sink.old) (K.faults sink.new) (K.failed sink.new) }
{
    match reader.header(source) {
        Err(status) => player.close(workers, alloc, status, sink),
        Ok(form) => play_records(workers, alloc, player, reader, form, source, sink),
    }
}

/// Plays the records that come next.
fn play_records<R: Threads + Sync, S: Source, K: Sink, G: Gate + Sync>(
    workers: &Workers<R, G>,
    alloc: Global,
    player: &mut Player,
    reader: &mut CaptureReader,
    form: Form,
    source: &mut S,
    sink: &mut K,
) -> Status
    requires stands { (w : World) × StandsFor player.old.front w }
    requires start { 1 ≤ reader.old.at }
    requires within { reader.old.at ≤ reader.old.most }
    requires most { reader.old.most ≤ 2 ^ 30 }
    requires few { length player.old.waits ≤ 256 }
    requires near { length reader.old.waits ≤ 4096 }
    ensures ran { (got : List ℕ) × TookIn (S.left source.old) (S.left source.new) got × (length got ≤ reader.old.budget)
        × ((w : World) → StandsFor player.old.front w → (out : List ℕ) × Wrote (K.written sink.old) (K.written sink.new) out
        × EndsReading result w (waiting player.old) player.old.front.table.moment (records_in reader.old.most form reader.old.at) (reader.old.waits ++ got) out (S.left source.new)) }
    ensures given { (S.left source.new).count ≤ (S.left source.old).count + reader.old.budget }
    ensures read { EndedBy (result ≡ Status.Read) (IsWant result) (S.faults source.old) (S.faults source.new) (S.failed source.new) }
    ensures write { HasFailed (result ≡ Status.Write) (K.faults sink.old) (K.faults sink.new) (K.failed sink.new) }
{
    let last = player.moment();
    let mut progress = Progress {
        last,
        first: None,
        top: last,
        number: 1,
    };
    'records: loop {
        match pass_on(reader.holds_record(form), sink) {
            Err(status) => return status,
            Ok(()) => {}
        }
        let record = match reader.next(source, form) {
            Err(status) => return player.close(workers, alloc, status, sink),
            Ok(None) => return player.close(workers, alloc, Status::Done, sink),
            Ok(Some(record)) => record,
        };
        match play_record(
            workers,
            alloc,
            player,
            progress,
            record.millis,
            reader.frame(),
            sink,
        ) {
            Err(status) => return status,
            Ok(()) => {}
        }
        progress = progress.after(record.millis);
    }
}

/// Plays the next record: its tick, and then what its frame gives.
fn play_record<R: Threads + Sync, K: Sink, G: Gate + Sync>(
    workers: &Workers<R, G>,
    alloc: Global,
    player: &mut Player,
    progress: Progress,
    millis: u64,
    frame: &[u8],
    sink: &mut K,
) -> Result<(), Status>
    requires { length player.old.waits ≤ 256 }
    ensures met { (w : World) → StandsFor player.old.front w → (out : List ℕ) × Wrote (K.written sink.old) (K.written sink.new) out
        × IsMet result w (waiting player.old) (waiting player.new) (record_occurs progress.last (first_of progress.first millis) progress.top progress.number (record { millis = millis; frame = frame.now })) (StandsFor player.new.front) out }
    ensures few { OnOk result (length player.new.waits ≤ 256) }
    ensures write { IsCaused Status.Write result (K.faults sink.old) (K.faults sink.new) (K.failed sink.new) }
{
    let moment = progress.moment_of(millis);
    match come_to(workers, alloc, player, progress.top, moment, sink) {
        Err(status) => return Err(status),
        Ok(()) => {}
    }
    play_frame(workers, alloc, player, progress.number, frame, sink)
}
