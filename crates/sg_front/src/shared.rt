//! A table whose legs share their ports: what comes is taken at other ports there, and what leaves goes by others.

ghost use Rattle.std.specs.Prelude.{◌≡◌, ◌⊎◌, ◌≤◌, ◌<◌, ◌++◌, ℕ, [], All, OnOk, OnErr, IsSome, drop, false, length, map, replicate};
ghost use Rattle.sg_front.specs.Parts.{all_given_back, departed, given_back, shared, sharing, taken};
ghost use Rattle.sg_front.specs.States.{IsBatched, IsHandled, IsTold, IsUntold};
ghost use Rattle.sg_gateway.specs.Early.{MayWant};
ghost use Rattle.sg_gateway.specs.Events.{events_of_signal, signal_lacks_noise, signal_of};
ghost use Rattle.sg_gateway.specs.Octets.{as_octets};
ghost use Rattle.sg_gateway.specs.World.{World};
ghost use Rattle.sg_mux.specs.Legs.{arrived_port};
ghost use Rattle.sg_table.specs.Standing.{TableStandsFor};
ghost use Rattle.sg_table.specs.Telling.{IsTimely};

use sg_base::{Address, BATCH_MOST, NoMemory, Pad};
use sg_lanes::Gate;
use sg_lines::Signal;
use sg_mux::Mux;
use sg_table::{Arrival, End, Handled, Outcomes, Table};
use std::alloc::Global;
use std::thread::Threads;

/// Takes a signal, and tells its outcomes with the lines of shared ports, in the place of what the list held. Out of
/// memory, nothing is told, and the table has taken the signal or is what it was.
pub(crate) fn step(
    table: &mut Table,
    mux: &mut Mux,
    alloc: Global,
    signal: &Signal,
    told: &mut Outcomes,
) -> Result<(), NoMemory>
    requires noise { signal_lacks_noise signal.now ≡ false }
    requires timely { IsTimely signal.now }
    ensures told { OnOk result ((w : World) → TableStandsFor table.old w → IsTold told.new.items (sharing table.new mux.new) (shared w mux.old) (events_of_signal signal.now)) }
    ensures none { OnErr result (told.new.items ≡ []) }
    ensures known { OnErr result (mux.new ≡ mux.old) }
    ensures same { OnErr result ((table.new ≡ table.old) ⊎ ((w : World) → TableStandsFor table.old w → IsUntold table.new w (events_of_signal signal.now))) }
    ensures needs { OnErr result ((w : World) → TableStandsFor table.old w → MayWant w (signal_of signal.now)) }
{
    match table.take(alloc, signal, told) {
        Err(NoMemory) => return Err(NoMemory),
        Ok(()) => {}
    }
    match mux.signal(alloc, signal, told.as_mut_slice()) {
        Err(NoMemory) => {
            told.clear();
            Err(NoMemory)
        }
        Ok(()) => Ok(()),
    }
}

/// Handles a datagram that comes to a port.
pub(crate) fn datagram(table: &mut Table, mux: &Mux, port: u16, from: Address, pad: Pad) -> Handled
    ensures { (w : World) → TableStandsFor table.old w → IsHandled (shared w mux.now) port from pad result (sharing table.new mux.now) }
{
    let at = arrived_port(mux, port, pad.octets());
    let handled = table.datagram(at, from, pad);
    Handled {
        pad: handled.pad,
        end: departed(mux, handled.end),
    }
}

/// Handles up to 256 datagrams. No signal comes within a batch, so the legs stay while it is handled.
pub(crate) fn batch<R: Threads + Sync, G: Gate + Sync>(
    table: &mut Table,
    mux: &Mux,
    rt: &R,
    arrivals: &mut [Arrival],
    workers: usize,
    gate: &G,
)
    requires few { length arrivals.old ≤ 256 }
    requires pads { All (λ a. IsSome a.pad) arrivals.old }
    requires workers { 0 < workers }
    ensures { (w : World) → TableStandsFor table.old w → IsBatched (shared w mux.now) arrivals.old arrivals.new (sharing table.new mux.now) }
{
    let ports = ports_of(arrivals);
    take_all(mux, arrivals);
    table.batch(rt, arrivals, workers, gate);
    give_back_all(mux, arrivals, &ports);
}

/// The port at which the table takes a datagram.
fn arrived_port(mux: &Mux, port: u16, octets: &[u8]) -> u16
    ensures { result ≡ arrived_port mux.now port (as_octets octets.now).items }
{
    mux.arrive(port, octets)
}

/// How a datagram ends, as the packet leaves.
fn departed(mux: &Mux, end: End) -> End
    ensures { result ≡ departed mux.now end }
{
    match end {
        End::Out { port, to } => {
            let (port, to) = mux.depart(port, to);
            End::Out { port, to }
        }
        End::Dropped(cause) => End::Dropped(cause),
    }
}

/// The ports at which datagrams came, in order.
fn ports_of(arrivals: &[Arrival]) -> [u16; BATCH_MOST]
    requires { length arrivals.now ≤ 256 }
    ensures { result ≡ map (λ a. a.port) arrivals.now ++ drop (length arrivals.now) (replicate 256 0) }
{
    let mut ports = [0; BATCH_MOST];
    for (k, arrival) in arrivals.iter().enumerate() {
        ports[k] = arrival.port;
    }
    ports
}

/// Each datagram comes to the port at which the table takes it.
fn take_all(mux: &Mux, arrivals: &mut [Arrival])
    ensures { arrivals.new ≡ map (taken mux.now) arrivals.old }
{
    for arrival in arrivals {
        take(mux, arrival);
    }
}

/// A datagram comes to the port at which the table takes it.
fn take(mux: &Mux, arrival: &mut Arrival)
    ensures { arrival.new ≡ taken mux.now arrival.old }
{
    if let Some(pad) = &arrival.pad {
        arrival.port = arrived_port(mux, arrival.port, pad.octets());
    }
}

/// Each datagram has the port again at which it came, and its end, as the packet leaves.
fn give_back_all(mux: &Mux, arrivals: &mut [Arrival], ports: &[u16])
    requires { length arrivals.old ≤ length ports.now }
    ensures { arrivals.new ≡ all_given_back mux.now ports.now arrivals.old }
{
    for (k, arrival) in arrivals.iter_mut().enumerate() {
        give_back(mux, arrival, ports[k]);
    }
}

/// A datagram has this port, and its end, as the packet leaves.
fn give_back(mux: &Mux, arrival: &mut Arrival, port: u16)
    ensures { arrival.new ≡ given_back mux.now port arrival.old }
{
    arrival.port = port;
    if let Some(end) = arrival.end {
        arrival.end = Some(departed(mux, end));
    }
}
