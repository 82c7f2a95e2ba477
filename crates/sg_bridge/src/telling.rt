//! What is written of a bridge's outcomes.

ghost use Rattle.std.specs.Prelude.{◌≡◌, OnOk};
ghost use Rattle.std.specs.List.{flat_map};
ghost use Rattle.sg_outcome.specs.OutcomeText.{outcome_line};
ghost use Rattle.sg_outcome.specs.declared.outcomes.Outcome.TheVariants.{Out};
ghost use Rattle.sg_pairs.specs.BridgeText.{bridge_outcome_line};
ghost use Rattle.sg_pairs.specs.Bridged.{told_and_parted};
ghost use Rattle.sg_pairs.specs.Pairs.{after_outcome};
ghost use Rattle.sg_switchboard.specs.Switching.{outcome_of, told_next};
ghost use Rattle.sg_trace.specs.Causes.{IsCaused};
ghost use Rattle.sg_trace.specs.Output.{IsWritten};

use sg_base::{Address, Failed, NoMemory};
use sg_edge::{Sink, write_all};
use sg_outcome::{Outcome, push_out};
use sg_pairs::{BridgeOutcome, print_bridge};
use sg_switchboard::{Switchboard, Switched, SwitchedEnd};
use sg_trace::{Status, tell};
use std::alloc::Global;

/// Writes the line of an outcome, once it is printed. Where that fails, a prefix of it is written.
pub(crate) fn tell_bridge<K: Sink>(
    alloc: Global,
    outcome: BridgeOutcome,
    sink: &mut K,
) -> Result<(), Status>
    ensures told { IsWritten result (K.written sink.old) (K.written sink.new) (bridge_outcome_line outcome) }
    ensures cause { IsCaused Status.Write result (K.faults sink.old) (K.faults sink.new) (K.failed sink.new) }
{
    let line = print_bridge(alloc, &outcome).map_err(|_| Status::NoMemory)?;
    write_all(sink, line.as_slice()).map_err(|_| Status::Write)
}

/// Writes the line of a packet that goes out.
fn tell_out<K: Sink>(
    alloc: Global,
    port: u16,
    to: &Address,
    octets: &[u8],
    sink: &mut K,
) -> Result<(), Status>
    ensures told { IsWritten result (K.written sink.old) (K.written sink.new) (outcome_line (Out port to.now octets.now)) }
    ensures cause { IsCaused Status.Write result (K.faults sink.old) (K.faults sink.new) (K.failed sink.new) }
{
    let mut line = Vec::new(alloc);
    match push_out(&mut line, port, to, octets) {
        Err(NoMemory) => return Err(Status::NoMemory),
        Ok(()) => {}
    }
    match write_all(sink, line.as_slice()) {
        Err(Failed) => Err(Status::Write),
        Ok(()) => Ok(()),
    }
}

/// Writes what a datagram has become.
#[tactic(auto, unfolding(sg_pairs::specs::BridgeText::bridge_outcome_line))]
pub(crate) fn tell_switched<K: Sink>(
    alloc: Global,
    switched: &Switched,
    sink: &mut K,
) -> Result<(), Status>
    ensures told { IsWritten result (K.written sink.old) (K.written sink.new) (bridge_outcome_line (outcome_of switched.now)) }
    ensures cause { IsCaused Status.Write result (K.faults sink.old) (K.faults sink.new) (K.failed sink.new) }
{
    match switched.end {
        SwitchedEnd::Out { port, to } => tell_out(alloc, port, &to, switched.pad.octets(), sink),
        SwitchedEnd::Dropped { port, cause } => {
            tell(alloc, &Outcome::Dropped { port, cause }, sink)
        }
        SwitchedEnd::Lost { port, cause } => {
            tell_bridge(alloc, BridgeOutcome::Lost { port, cause }, sink)
        }
    }
}

/// Writes what the table tells, and which pair that parts.
fn tell_next<K: Sink>(
    alloc: Global,
    switchboard: &mut Switchboard,
    outcome: &Outcome,
    sink: &mut K,
) -> Result<(), Status>
    ensures told { IsWritten result (K.written sink.old) (K.written sink.new) (flat_map bridge_outcome_line (told_next switchboard.old.calls outcome.now)) }
    ensures noted { OnOk result (switchboard.new ≡ record switchboard.old { calls = (after_outcome switchboard.old.calls outcome.now).calls }) }
    ensures write { IsCaused Status.Write result (K.faults sink.old) (K.faults sink.new) (K.failed sink.new) }
{
    match tell(alloc, outcome, sink) {
        Err(status) => return Err(status),
        Ok(()) => {}
    }
    match switchboard.note(outcome) {
        None => Ok(()),
        Some(parted) => tell_bridge(alloc, parted, sink),
    }
}

/// Writes what the table tells of a signal, in order, each end of a joined call with the pair that it parts.
pub(crate) fn tell_all<K: Sink>(
    alloc: Global,
    switchboard: &mut Switchboard,
    outcomes: &[Outcome],
    sink: &mut K,
) -> Result<(), Status>
    ensures told { IsWritten result (K.written sink.old) (K.written sink.new) (flat_map bridge_outcome_line (told_and_parted switchboard.old.calls outcomes.now).told) }
    ensures noted { OnOk result (switchboard.new ≡ record switchboard.old { calls = (told_and_parted switchboard.old.calls outcomes.now).calls }) }
    ensures write { IsCaused Status.Write result (K.faults sink.old) (K.faults sink.new) (K.failed sink.new) }
{
    for outcome in outcomes {
        match tell_next(alloc, switchboard, outcome, sink) {
            Err(status) => return Err(status),
            Ok(()) => {}
        }
    }
    Ok(())
}
