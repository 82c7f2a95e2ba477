//! Seals packets at one side of a session and opens them at the other: counts and a digest of what was
//! sealed or, with the word `time`, how long it takes.
#![tactic(auto)]

mod fault;
mod packets;
mod parts;
mod passing;
mod rounds;
mod sides;
mod summary;

ghost use Rattle.std.specs.Prelude.{◌≤◌};

use crate::fault::Fault;
use crate::parts::{Bench, PARTS};
use crate::rounds::{Costs, medians};
use crate::summary::seal_and_open;
use sg_base::Suite;

/// The suites that encrypt.
const SUITES: [Suite; 6] = [
    Suite::Cm128Tag80,
    Suite::Cm128Tag32,
    Suite::Cm192Tag80,
    Suite::Cm192Tag32,
    Suite::Cm256Tag80,
    Suite::Cm256Tag32,
];

fn main(rt: HostRuntime) -> Result<(), Fault> {
    let is_timed = is_timed(&rt)?;
    for suite in &SUITES {
        // A plain packet of 20 milliseconds of G.711 with its head, and a full Ethernet frame.
        show(&rt, is_timed, *suite, 172)?;
        show(&rt, is_timed, *suite, 1400)?;
    }
    if is_timed {
        time_parts(&rt)?;
    }
    Ok(())
}

// Whether the first word is `time`.
fn is_timed(rt: &HostRuntime) -> Result<bool, Fault> {
    match std::env::args(rt)?.nth(1) {
        Some(word) => Ok(word.as_str() == "time"),
        None => Ok(false),
    }
}

// Packets of so many octets under a suite: what is sealed of them, or how long it takes.
fn show(rt: &HostRuntime, is_timed: bool, suite: Suite, size: usize) -> Result<(), Fault>
    requires { size ≤ 1400 }
{
    if is_timed {
        time_packets(rt, suite, size)
    } else {
        digest(rt, suite, size)
    }
}

fn digest(rt: &HostRuntime, suite: Suite, size: usize) -> Result<(), Fault>
    requires { size ≤ 1400 }
{
    let summary = seal_and_open(rt.alloc(), suite, size)?;
    let sha1 = hex::encode(rt.alloc(), &summary.sha1)?;
    let name = suite_name(suite);
    let sealed = summary.sealed;
    let octets = summary.octets;
    let opened = summary.opened;
    println!(rt; "{name} {size} sealed {sealed} octets {octets} sha1 {sha1} opened {opened}")?;
    Ok(())
}

fn time_packets(rt: &HostRuntime, suite: Suite, size: usize) -> Result<(), Fault>
    requires { size ≤ 1400 }
{
    let Costs { seal, open } = medians(rt, suite, size)?;
    let name = suite_name(suite);
    println!(rt; "srtpgw {name} {size} seal {seal}")?;
    println!(rt; "srtpgw {name} {size} open {open}")?;
    Ok(())
}

fn time_parts(rt: &HostRuntime) -> Result<(), Fault> {
    let Some(mut bench) = Bench::new() else {
        return Err(Fault::Suite);
    };
    for (part, name) in &PARTS {
        let cost = bench.cost(rt, *part)?;
        println!(rt; "part {name} {cost}")?;
    }
    Ok(())
}

// The name of a suite (RFC 4568, 6.2; RFC 6188, 2).
fn suite_name(suite: Suite) -> &'static str {
    match suite {
        Suite::Raw80 => "RAW80",
        Suite::Cm128Tag80 => "AES_CM_128_HMAC_SHA1_80",
        Suite::Cm128Tag32 => "AES_CM_128_HMAC_SHA1_32",
        Suite::Cm192Tag80 => "AES_192_CM_HMAC_SHA1_80",
        Suite::Cm192Tag32 => "AES_192_CM_HMAC_SHA1_32",
        Suite::Cm256Tag80 => "AES_256_CM_HMAC_SHA1_80",
        Suite::Cm256Tag32 => "AES_256_CM_HMAC_SHA1_32",
    }
}
