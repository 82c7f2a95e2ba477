//! What is written of an outcome.

ghost use Rattle.sg_trace.specs.Causes.{IsCaused};
ghost use Rattle.sg_trace.specs.Output.{IsWritten};
ghost use Rattle.sg_outcome.specs.OutcomeText.{outcome_line};

use crate::passing_on::write_at_once;
use crate::status::Status;
use sg_edge::{Sink, write_all};
use sg_outcome::{Outcome, print_outcome};
use std::alloc::Global;

/// Writes the line of an outcome, once it is printed; the sink may hold it. `Write` where the sink fails, and `NoMemory`
/// where memory runs out: then a prefix of the line is written.
pub fn tell<K: Sink>(alloc: Global, outcome: &Outcome, sink: &mut K) -> Result<(), Status>
    ensures told { IsWritten result (K.written sink.old) (K.written sink.new) (outcome_line outcome.now) }
    ensures cause { IsCaused Status.Write result (K.faults sink.old) (K.faults sink.new) (K.failed sink.new) }
{
    let line = print_outcome(alloc, outcome).map_err(|_| Status::NoMemory)?;
    write_all(sink, line.as_slice()).map_err(|_| Status::Write)
}

/// The same, and the sink passes it on at once, of which no clause tells.
pub fn tell_at_once<K: Sink>(alloc: Global, outcome: &Outcome, sink: &mut K) -> Result<(), Status>
    ensures told { IsWritten result (K.written sink.old) (K.written sink.new) (outcome_line outcome.now) }
    ensures cause { IsCaused Status.Write result (K.faults sink.old) (K.faults sink.new) (K.failed sink.new) }
{
    let line = print_outcome(alloc, outcome).map_err(|_| Status::NoMemory)?;
    write_at_once(line.as_slice(), sink)
}
