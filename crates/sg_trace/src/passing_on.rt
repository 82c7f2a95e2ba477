//! What a sink holds is passed on: before a read that may wait, and at the end of a run.

ghost use Rattle.std.specs.Prelude.{◌≡◌, IfErr};
ghost use Rattle.sg_trace.specs.Causes.{IsCaused, IsPassedOn};
ghost use Rattle.sg_trace.specs.Output.{IsWritten};

use crate::status::Status;
use sg_base::Failed;
use sg_edge::{Sink, write_all};

/// Has the sink pass on what it holds, unless what comes next is read already: the next read may wait. `Write` where that
/// fails. What is written stays as it is.
pub fn pass_on<K: Sink>(is_read: bool, sink: &mut K) -> Result<(), Status>
    ensures kept { K.written sink.new ≡ K.written sink.old }
    ensures only { IfErr result (λ status. status ≡ Status.Write) }
    ensures cause { IsCaused Status.Write result (K.faults sink.old) (K.faults sink.new) (K.failed sink.new) }
{
    if is_read {
        return Ok(());
    }
    match sink.flush() {
        Err(Failed) => Err(Status::Write),
        Ok(()) => Ok(()),
    }
}

/// How a run ends that comes to this end, once the sink has passed on what it holds: `Write` where that fails. Where the
/// end is `Read`, `Write` or `Noise`, it stays, and the sink isn't asked.
pub fn passed_on<K: Sink>(end: Status, sink: &mut K) -> Status
    ensures kept { K.written sink.new ≡ K.written sink.old }
    ensures passed { IsPassedOn end result K.faults K.failed sink.old sink.new }
{
    match end {
        Status::Read => Status::Read,
        Status::Write => Status::Write,
        Status::Noise => Status::Noise,
        _ => match sink.flush() {
            Err(Failed) => Status::Write,
            Ok(()) => end,
        },
    }
}

/// Writes octets, and has the sink pass them on, of which no clause tells. `Write` where the sink fails: then a prefix of
/// the octets is written.
pub fn write_at_once<K: Sink>(octets: &[u8], sink: &mut K) -> Result<(), Status>
    ensures told { IsWritten result (K.written sink.old) (K.written sink.new) octets.now }
    ensures cause { IsCaused Status.Write result (K.faults sink.old) (K.faults sink.new) (K.failed sink.new) }
{
    match write_all(sink, octets) {
        Err(Failed) => return Err(Status::Write),
        Ok(()) => {}
    }
    match sink.flush() {
        Err(Failed) => Err(Status::Write),
        Ok(()) => Ok(()),
    }
}
