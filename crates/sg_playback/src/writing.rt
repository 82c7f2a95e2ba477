//! What is written of datagrams and of signals.

ghost use Rattle.std.specs.Prelude.{◌≡◌, ◌∷◌, ◌++◌, [], OnOk};
ghost use Rattle.sg_trace.specs.Causes.{IsCaused};
ghost use Rattle.sg_trace.specs.Output.{IsWritten, text};
ghost use Rattle.sg_outcome.specs.OutcomeText.{outcome_line};
ghost use Rattle.sg_table.specs.Batches.{told_of};
ghost use Rattle.sg_table.specs.Handling.{outcome_by};

use sg_base::{NoMemory, Pad};
use sg_edge::{Sink, write_all};
use sg_outcome::{Outcome, push_out, push_outcome};
use sg_table::{Arrival, End};
use sg_trace::{Status, tell};
use std::alloc::Global;

/// Writes what became of datagrams, in order, once all of it is printed: in the room of `lines`, whose text is gone.
/// `Write` where the sink fails, `NoMemory` where memory runs out: then a prefix of it is written.
pub fn tell_ends<K: Sink>(
    arrivals: &[Arrival],
    lines: &mut Vec<u8>,
    sink: &mut K,
) -> Result<(), Status>
    ensures told { IsWritten result (K.written sink.old) (K.written sink.new) (text (told_of arrivals.now)) }
    ensures write { IsCaused Status.Write result (K.faults sink.old) (K.faults sink.new) (K.failed sink.new) }
{
    lines.clear();
    match add_lines(arrivals, lines) {
        Err(NoMemory) => Err(Status::NoMemory),
        Ok(()) => write_all(sink, lines.as_slice()).map_err(|_| Status::Write),
    }
}

/// Adds the lines of what became of datagrams, in order.
fn add_lines(arrivals: &[Arrival], lines: &mut Vec<u8>) -> Result<(), NoMemory>
    ensures { OnOk result (lines.new.items ≡ lines.old.items ++ text (told_of arrivals.now)) }
{
    for arrival in arrivals {
        match add_line(arrival, lines) {
            Err(NoMemory) => return Err(NoMemory),
            Ok(()) => {}
        }
    }
    Ok(())
}

/// Adds the line of what became of a datagram.
fn add_line(arrival: &Arrival, lines: &mut Vec<u8>) -> Result<(), NoMemory>
    ensures { OnOk result (lines.new.items ≡ lines.old.items ++ text (told_of (arrival.now ∷ []))) }
{
    match (&arrival.pad, arrival.end) {
        (Some(pad), Some(end)) => add_end(arrival.port, pad, end, lines),
        _ => Ok(()),
    }
}

/// Adds the line of a datagram that came to this port and ended so, in this pad.
fn add_end(port: u16, pad: &Pad, end: End, lines: &mut Vec<u8>) -> Result<(), NoMemory>
    ensures { OnOk result (lines.new.items ≡ lines.old.items ++ outcome_line (outcome_by port pad.now end)) }
{
    match end {
        End::Dropped(cause) => push_outcome(lines, &Outcome::Dropped { port, cause }),
        End::Out { port, to } => push_out(lines, port, &to, pad.octets()),
    }
}

/// Writes the outcomes of a signal, in order. `Write` where the sink fails, `NoMemory` where memory runs out: then a
/// prefix of their lines is written.
pub fn tell_all<K: Sink>(alloc: Global, outcomes: &[Outcome], sink: &mut K) -> Result<(), Status>
    ensures told { IsWritten result (K.written sink.old) (K.written sink.new) (text outcomes.now) }
    ensures write { IsCaused Status.Write result (K.faults sink.old) (K.faults sink.new) (K.failed sink.new) }
{
    for outcome in outcomes {
        match tell(alloc, outcome, sink) {
            Err(status) => return Err(status),
            Ok(()) => {}
        }
    }
    Ok(())
}
