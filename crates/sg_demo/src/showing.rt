//! The command that shows a demonstration.

ghost use Rattle.std.specs.Prelude.{◌≡◌, ◌≤◌, ◌<◌};
ghost use Rattle.sg_trace.specs.Causes.{HasFailed, IsCaused};
ghost use Rattle.sg_trace.specs.Output.{IsWritten};
ghost use Rattle.sg_demo.specs.Demonstration.{demonstration};
ghost use Rattle.sg_demo.specs.Text.{IsShown};
ghost use Rattle.sg_demo.specs.Text as lines;

use crate::demonstration::gated_traffic;
use crate::text::summary_text;
use sg_edge::Sink;
use sg_lanes::Gate;
use sg_table::Table;
use sg_trace::{Status, write_at_once};
use std::alloc::Global;
use std::thread::Threads;

/// Shows a demonstration of 1 to 256 calls whose keys and traffic are drawn from a number: the nine lines of its
/// numbers are written. `Write` where the sink fails, `NoMemory` where memory runs out: then a prefix of them is written.
/// Its peers are large, so it isn't inlined: no other command has them in its frame.
#[inline(never)]
pub fn demo<R: Threads + Sync, K: Sink, G: Gate + Sync>(
    rt: &R,
    alloc: Global,
    calls: u16,
    start: u64,
    workers: usize,
    sink: &mut K,
    gate: &G,
) -> Status
    requires some { 0 < calls }
    requires most { calls ≤ 256 }
    requires workers { 0 < workers }
    ensures shown { IsShown result (K.written sink.old) (K.written sink.new) (lines.summary_text (demonstration calls start)) }
    ensures write { HasFailed (result ≡ Status.Write) (K.faults sink.old) (K.faults sink.new) (K.failed sink.new) }
{
    match write_numbers(rt, alloc, calls, start, workers, sink, gate) {
        Ok(()) => Status::Done,
        Err(status) => status,
    }
}

/// Writes the lines of a demonstration's numbers, once it is over.
#[tactic(auto, using(sg_trace::proofs::Writings::none_written))]
fn write_numbers<R: Threads + Sync, K: Sink, G: Gate + Sync>(
    rt: &R,
    alloc: Global,
    calls: u16,
    start: u64,
    workers: usize,
    sink: &mut K,
    gate: &G,
) -> Result<(), Status>
    requires some { 0 < calls }
    requires most { calls ≤ 256 }
    requires workers { 0 < workers }
    ensures written { IsWritten result (K.written sink.old) (K.written sink.new) (lines.summary_text (demonstration calls start)) }
    ensures cause { IsCaused Status.Write result (K.faults sink.old) (K.faults sink.new) (K.failed sink.new) }
{
    let Ok(mut table) = Table::make(alloc) else {
        return Err(Status::NoMemory);
    };
    let counted = gated_traffic(rt, alloc, calls, start, &mut table, workers, gate);
    drop(table);
    let Ok(summary) = counted else {
        return Err(Status::NoMemory);
    };
    let Ok(text) = summary_text(alloc, &summary) else {
        return Err(Status::NoMemory);
    };
    write_at_once(text.as_slice(), sink)
}
