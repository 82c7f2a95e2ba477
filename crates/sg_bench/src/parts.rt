//! How long the parts of a packet take: blocks of the cipher, a keystream and a code.
//!
//! What one call gives goes into the next, so that none can be left out.

use crate::fault::Fault;
use crate::rounds::{ROUNDS, median};
use sg_aes::Schedule;
use sg_ctr::apply;
use sg_hmac::MacKey;
use std::time::CpuClock;

/// How many calls a round has.
const CALLS: u32 = 20000;

/// A part of what a packet costs.
#[derive(Clone, Copy)]
pub enum Part {
    /// Four blocks of AES under a key of 16 octets.
    Blocks,
    /// A keystream of 160 octets onto as many.
    Keystream,
    /// HMAC-SHA-1 of 176 octets under a key whose pads are hashed already.
    Code,
}

/// The parts with their names.
pub const PARTS: [(Part, &str); 3] = [
    (Part::Blocks, "four-blocks-of-AES"),
    (Part::Keystream, "keystream-of-160-octets"),
    (Part::Code, "HMAC-of-176-octets"),
];

fn run_blocks(schedule: &Schedule, blocks: &mut [[u8; 16]; 4]) {
    for _ in 0..CALLS {
        schedule.four(blocks);
    }
}

fn run_keystreams(schedule: &Schedule, part: &mut [u8; 160]) {
    for index in 0..CALLS {
        apply(schedule, &[3; 14], 0xcafebabe, u64::from(index), part);
    }
}

fn run_codes(key: &MacKey, text: &mut [u8; 176]) {
    for _ in 0..CALLS {
        let mut mac = key.start();
        mac.update(text);
        let code = mac.finish();
        text[..20].copy_from_slice(&code);
    }
}

/// What the parts are run over.
#[derive(Drop)]
pub struct Bench {
    schedule: Schedule,
    key: MacKey,
    blocks: [[u8; 16]; 4],
    octets: [u8; 160],
    text: [u8; 176],
}

impl Bench {
    /// None where a key of 16 octets is none of the cipher.
    pub fn new() -> Option<Bench> {
        Some(Bench {
            schedule: Schedule::new(&[1; 16])?,
            key: MacKey::new(&[1; 20]),
            blocks: [[2; 16]; 4],
            octets: [2; 160],
            text: [2; 176],
        })
    }

    fn run(&mut self, part: Part) {
        match part {
            Part::Blocks => run_blocks(&self.schedule, &mut self.blocks),
            Part::Keystream => run_keystreams(&self.schedule, &mut self.octets),
            Part::Code => run_codes(&self.key, &mut self.text),
        }
    }

    /// The median of the rounds, in nanoseconds a call.
    pub fn cost(&mut self, rt: &HostRuntime, part: Part) -> Result<u128, Fault> {
        let mut costs = Vec::new(rt.alloc());
        for _ in 0..ROUNDS {
            let start = rt.thread_cpu_time()?;
            self.run(part);
            let end = rt.thread_cpu_time()?;
            let cost = end.saturating_sub(start).as_nanos() / u128::from(CALLS);
            if costs.push(cost).is_err() {
                return Err(Fault::NoMemory);
            }
        }
        Ok(median(costs))
    }
}
