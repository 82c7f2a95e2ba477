//! A replay by two workers that wait for each other.

use crate::meeting::Meeting;
use crate::outside::{Given, Outside, REPLAY};
use sg_run::Status;
use std::alloc::Global;
use std::process::Abort;
use std::thread::Threads;

/// A call in each of the 256 slots, under raw keys of its own, and a packet of the plain side for the first and the last: a
/// script that begins with this header, whose lines of datagrams begin so.
fn script(rt: &impl Abort, alloc: Global, header: &str, comes: &str) -> String {
    let mut script = String::from_str(alloc, header).expect(rt, "memory");
    for call in 0..256_u32 {
        let line = format!(in alloc;
            "manual {call} 203.0.113.9:40000 198.51.100.7:30000 00000000 64 RAW80:{call:08x}a1000000000000000000000000000000 RAW80:{call:08x}b2000000000000000000000000000000\n"
        );
        let line = line.expect(rt, "memory");
        script.push_str(&line).expect(rt, "memory");
    }
    for port in ["20002", "24082"] {
        let line = format!(in alloc;
            "{comes} {port} 198.51.100.7:30000 8000000000000000000000aa01020304\n"
        );
        let line = line.expect(rt, "memory");
        script.push_str(&line).expect(rt, "memory");
    }
    script
}

/// The two workers of a replay of that script meet, and it is played to its end.
fn meet(rt: &(impl Abort + Threads + Sync), alloc: Global, header: &str, comes: &str) {
    let script = script(rt, alloc, header, comes);
    let given = Given {
        words: &["replay", "--workers", "2"],
        ..REPLAY
    };
    let mut outside = Outside::of(rt, alloc, &[script.as_str()], given);
    let gate = Meeting::new();
    assert!(rt; outside.run(rt, alloc, &gate) == Status::Done);
    assert!(rt; gate.have_met());
}

#[test]
fn the_first_call_and_the_last_meet(rt: HostRuntime) {
    meet(&rt, rt.alloc(), "srtpgw 1\n", "in");
}

/// The lines of datagrams have their moments.
#[test]
fn they_meet_in_version_two(rt: HostRuntime) {
    meet(&rt, rt.alloc(), "srtpgw 2\n", "in 0");
}
