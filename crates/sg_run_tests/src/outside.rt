//! What a run is given in memory, and what it leaves there.

use sg_base::{Address, Octets};
use sg_edge::{MemClock, MemLink, MemNoise, MemSink, MemSource};
use sg_lanes::Gate;
use sg_run::{Status, run};
use std::alloc::Global;
use std::process::Abort;
use std::thread::Threads;

/// A datagram that comes: its port, whom it is from, its octets.
pub type Datagram<'a> = (u16, Address, &'a [u8]);

/// The words of a run, how many octets a call of the source gives and of the sink takes, what the clock reads, which
/// datagrams come, and which calls fail, counted from 1.
#[derive(Clone, Copy)]
pub struct Given<'a> {
    pub words: &'a [&'a str],
    pub most: usize,
    pub readings: &'a [u64],
    pub datagrams: &'a [Datagram<'a>],
    pub reads_fail: &'a [u64],
    pub writes_fail: &'a [u64],
    pub link_fails: &'a [u64],
    pub clock_fails: &'a [u64],
    pub draws_fail: &'a [u64],
}

/// A replay in which nothing fails.
pub const REPLAY: Given<'static> = Given {
    words: &["replay"],
    most: usize::MAX,
    readings: &[],
    datagrams: &[],
    reads_fail: &[],
    writes_fail: &[],
    link_fails: &[],
    clock_fails: &[],
    draws_fail: &[],
};

/// The words and the outside of a run.
#[derive(Drop)]
pub struct Outside {
    words: Vec<String>,
    source: MemSource,
    sink: MemSink,
    pub link: MemLink,
    clock: MemClock,
    noise: MemNoise,
}

impl Outside {
    /// The script is in parts. The noise is twice 304 octets, the n-th of each n modulo 256.
    pub fn of(rt: &impl Abort, alloc: Global, script: &[&str], given: Given) -> Outside {
        Outside {
            words: words(rt, alloc, given.words),
            source: source(rt, alloc, script, given),
            sink: sink(rt, alloc, given),
            link: link(rt, alloc, given),
            clock: clock(rt, alloc, given),
            noise: noise(rt, alloc, given),
        }
    }

    /// Runs the command.
    pub fn run<G: Gate + Sync>(
        &mut self,
        rt: &(impl Threads + Sync),
        alloc: Global,
        gate: &G,
    ) -> Status {
        run(
            rt,
            alloc,
            &self.words,
            &mut self.source,
            &mut self.sink,
            &mut self.link,
            &mut self.clock,
            &mut self.noise,
            gate,
        )
    }

    /// What the run has written.
    pub fn written(&self) -> &[u8] {
        self.sink.written().unwrap_or(b"no record")
    }
}

/// The texts one behind another.
pub fn joined(rt: &impl Abort, alloc: Global, texts: &[&str]) -> Vec<u8> {
    let mut octets = Vec::new(alloc);
    for text in texts {
        let pushed = octets.extend_from_slice(text.as_bytes());
        pushed.expect(rt, "memory");
    }
    octets
}

fn words(rt: &impl Abort, alloc: Global, texts: &[&str]) -> Vec<String> {
    let mut words = Vec::new(alloc);
    for text in texts {
        let word = String::from_str(alloc, text).expect(rt, "memory");
        words.push(word).expect(rt, "memory");
    }
    words
}

fn source(rt: &impl Abort, alloc: Global, script: &[&str], given: Given) -> MemSource {
    let script = Octets::from_vec(joined(rt, alloc, script));
    let fails = given.reads_fail.to_vec(alloc).expect(rt, "memory");
    MemSource::limited(script, given.most.max(1), fails)
}

fn sink(rt: &impl Abort, alloc: Global, given: Given) -> MemSink {
    let fails = given.writes_fail.to_vec(alloc).expect(rt, "memory");
    MemSink::limited(alloc, given.most.max(1), fails)
}

fn link(rt: &impl Abort, alloc: Global, given: Given) -> MemLink {
    let receipts = copies(rt, alloc, given.datagrams);
    let fails = given.link_fails.to_vec(alloc).expect(rt, "memory");
    MemLink::make(alloc, receipts, fails)
}

fn clock(rt: &impl Abort, alloc: Global, given: Given) -> MemClock {
    let fails = given.clock_fails.to_vec(alloc).expect(rt, "memory");
    let readings = given.readings.to_vec(alloc).expect(rt, "memory");
    MemClock::make(readings, fails)
}

fn copies(
    rt: &impl Abort,
    alloc: Global,
    datagrams: &[Datagram],
) -> Vec<Option<(u16, Address, Octets)>> {
    let mut all = Vec::new(alloc);
    for (port, from, octets) in datagrams {
        let octets = Octets::copy_of(alloc, octets).expect(rt, "memory");
        all.push(Some((*port, *from, octets))).expect(rt, "memory");
    }
    all
}

fn noise(rt: &impl Abort, alloc: Global, given: Given) -> MemNoise {
    let octets = Octets::from_vec(twice_counted(rt, alloc));
    let fails = given.draws_fail.to_vec(alloc).expect(rt, "memory");
    MemNoise::make(octets, fails)
}

fn twice_counted(rt: &impl Abort, alloc: Global) -> Vec<u8> {
    let mut octets = Vec::new(alloc);
    for i in 0..608_u32 {
        let pushed = octets.push((i % 304 % 256) as u8);
        pushed.expect(rt, "memory");
    }
    octets
}
