//! How long sealing and opening take, in time of the processor: what other programs take doesn't count.

ghost use Rattle.std.specs.Prelude.{◌≡◌, ◌≤◌};

use crate::fault::Fault;
use crate::packets::{are_packets, packets};
use crate::passing::{open_each, seal_each};
use crate::sides::{Sides, make_sides};
use sg_base::Suite;
use std::time::{CpuClock, Duration};

/// How many rounds are measured.
pub const ROUNDS: u8 = 9;

/// How many batches a round has. The packets of a batch stay in the processor's caches, as one that has
/// just arrived does.
const BATCHES: u16 = 16;

/// How many packets a batch has.
const COUNT: u16 = 128;

/// How many packets a round has.
const PACKETS: u128 = 2048;

/// Nanoseconds.
#[derive(Clone, Copy)]
pub struct Costs {
    pub seal: u128,
    pub open: u128,
}

/// The middle of some numbers, 0 of none.
pub fn median(mut numbers: Vec<u128>) -> u128 {
    numbers.sort_unstable();
    numbers.get(numbers.len() / 2).copied().unwrap_or(0)
}

// The nanoseconds from one reading of the clock to another.
fn between(start: Duration, end: Duration) -> u128 {
    end.saturating_sub(start).as_nanos()
}

// Seals and opens a batch of packets of so many octets, of the numbers from `first` on: nanoseconds of all.
fn one_batch(rt: &HostRuntime, sides: &mut Sides, first: u16, size: usize) -> Result<Costs, Fault>
    requires { size ≤ 1400 }
{
    let plain = packets(rt.alloc(), first, COUNT, size)?;
    let start = rt.thread_cpu_time()?;
    let datagrams = seal_each(rt.alloc(), &mut sides.seal, plain)?;
    let sealed = rt.thread_cpu_time()?;
    let opened = open_each(rt.alloc(), &mut sides.open, datagrams)?;
    let end = rt.thread_cpu_time()?;
    if !are_packets(&opened, first, size) {
        return Err(Fault::Changed);
    }
    Ok(Costs {
        seal: between(start, sealed),
        open: between(sealed, end),
    })
}

// Seals and opens packets of so many octets under a key of its own: nanoseconds a packet.
fn one_round(rt: &HostRuntime, suite: Suite, size: usize, round: u8) -> Result<Costs, Fault>
    requires { size ≤ 1400 }
{
    let Some(mut sides) = make_sides(suite, round) else {
        return Err(Fault::Suite);
    };
    let mut seal = 0u128;
    let mut open = 0u128;
    for batch in 0..BATCHES {
        let costs = one_batch(rt, &mut sides, batch * COUNT, size)?;
        seal = seal.saturating_add(costs.seal);
        open = open.saturating_add(costs.open);
    }
    Ok(Costs {
        seal: seal / PACKETS,
        open: open / PACKETS,
    })
}

/// The medians of nine rounds, in nanoseconds a packet.
pub fn medians(rt: &HostRuntime, suite: Suite, size: usize) -> Result<Costs, Fault>
    requires { size ≤ 1400 }
{
    let mut seal = Vec::new(rt.alloc());
    let mut open = Vec::new(rt.alloc());
    for round in 0..ROUNDS {
        let costs = one_round(rt, suite, size, round)?;
        if seal.push(costs.seal).is_err() || open.push(costs.open).is_err() {
            return Err(Fault::NoMemory);
        }
    }
    Ok(Costs {
        seal: median(seal),
        open: median(open),
    })
}
