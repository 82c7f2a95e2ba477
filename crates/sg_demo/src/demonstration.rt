//! The whole demonstration.

ghost use Rattle.std.specs.Prelude.{◌≡◌, ◌≤◌, ◌<◌, IfOk, OnOk, OnErr};
ghost use Rattle.sg_gateway.specs.World.{empty};
ghost use Rattle.sg_gateway.specs.Runs.{world_after};
ghost use Rattle.sg_table.specs.Standing.{TableStandsFor};
ghost use Rattle.sg_demo.specs.Demonstration.{demonstration, events_shown, HasTakenPrefix};

use crate::state::Demo;
use crate::summary::Summary;
use sg_base::NoMemory;
use sg_lanes::{Gate, OpenGate};
use sg_table::Table;
use std::alloc::Global;
use std::thread::Threads;

/// How many rounds a demonstration has.
const ROUNDS: u32 = 320;

/// Keys 1 to 256 calls of an empty table with keys that are drawn from a number, lets their peers and their plain
/// sides send for 320 rounds, and counts what became of it. So many workers handle what arrives.
///
/// Out of memory, the table has taken the first of the demonstration's events, up to some of them.
pub fn traffic<R: Threads + Sync>(
    rt: &R,
    alloc: Global,
    calls: u16,
    start: u64,
    table: &mut Table,
    workers: usize,
) -> Result<Summary, NoMemory>
    requires some { 0 < calls }
    requires most { calls ≤ 256 }
    requires workers { 0 < workers }
    requires empty { TableStandsFor table.old empty }
    ensures summary { IfOk result (λ summary. summary ≡ demonstration calls start) }
    ensures table { OnOk result (TableStandsFor table.new (world_after empty (events_shown calls start))) }
    ensures failed { OnErr result (HasTakenPrefix table.new (events_shown calls start)) }
{
    gated_traffic(rt, alloc, calls, start, table, workers, &OpenGate)
}

/// The same, where each call's worker enters a gate first.
pub(crate) fn gated_traffic<R: Threads + Sync, G: Gate + Sync>(
    rt: &R,
    alloc: Global,
    calls: u16,
    start: u64,
    table: &mut Table,
    workers: usize,
    gate: &G,
) -> Result<Summary, NoMemory>
    requires some { 0 < calls }
    requires most { calls ≤ 256 }
    requires workers { 0 < workers }
    requires empty { TableStandsFor table.old empty }
    ensures summary { IfOk result (λ summary. summary ≡ demonstration calls start) }
    ensures table { OnOk result (TableStandsFor table.new (world_after empty (events_shown calls start))) }
    ensures failed { OnErr result (HasTakenPrefix table.new (events_shown calls start)) }
{
    let mut demo = Demo::new(alloc, start);
    for number in 0..calls {
        demo.call(alloc, u32::from(number) + 1, table)?;
    }
    for _count in 0..ROUNDS {
        demo.round(rt, alloc, table, workers, gate)?;
    }
    Ok(demo.summary)
}
