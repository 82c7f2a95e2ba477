//! Replays and relays through the top call, over a source, a sink, a link, a clock and noise in memory that fail. What
//! scripts tell is in `examples` and `interop/rows`, which the gate plays through the program.

use crate::calls::{
    ENDED, ENDED_TOLD, HEADER, KEYED, KEYED_TOLD, KNOWN, KNOWN_LINE, KNOWN_TOLD, OFFERED,
    OFFERED_TOLD, PEER, PLAIN, WHOLE_CALL, WHOLE_CALL_TOLD,
};
use crate::outside::{Datagram, Given, Outside, REPLAY, joined};
use sg_edge::LinkRecord;
use sg_lanes::OpenGate;
use sg_run::Status;
use std::alloc::Global;
use std::process::Abort;
use std::thread::Threads;

/// A run: its script in parts, what it is given, its status, and what it writes, in parts.
struct Run {
    script: &'static [&'static str],
    given: Given<'static>,
    status: Status,
    told: &'static [&'static str],
}

/// A call that is keyed manually, and a packet.
const KEYED_CALL: &[&str] = &[HEADER, KEYED, KNOWN_LINE];

/// The same, and a wait.
const KEYED_WAIT: &[&str] = &[HEADER, KEYED, "tick 1000\n"];

/// A call that is offered, a wait, and its end.
const OFFERED_CALL: &[&str] = &[HEADER, OFFERED, "tick 3\n", ENDED];

const OFFERED_CALL_TOLD: &[&str] = &[OFFERED_TOLD, ENDED_TOLD];

/// A packet from the peer, one from the other side, and a report of each.
const COMING: [Datagram<'static>; 4] = [
    (
        20000,
        PEER,
        b"\x80\x0f\x00\x07\xde\xca\xfb\xad\xca\xfe\xba\xbe\xa0\x76\x57\xaa\x00\x00\x00\x01\x5e\xad\x4f\x01\x00\x8f\x2e\xd3\xbc\x47",
    ),
    (
        20002,
        PLAIN,
        b"\x80\x0f\x00\x07\xde\xca\xfb\xad\xca\xfe\xba\xbe\xab\xab\xab\xab",
    ),
    (
        20001,
        PEER,
        b"\x80\xc8\x00\x06\xca\xfe\xba\xbe\xa6\x53\x3b\xdb\x34\x76\xdc\x49\x7a\x11\xac\xad\xfa\xe9\x30\x32\x5e\xbd\x47\x89\x80\x00\x00\x00\x00\x00\x00\x01\x24\x2d\xc3\xa6\x72\xe8\xf7\x8a\x59\xb6",
    ),
    (
        20003,
        PLAIN,
        b"\x80\xc8\x00\x06\xca\xfe\xba\xbe\xcd\xcd\xcd\xcd\xcd\xcd\xcd\xcd\xcd\xcd\xcd\xcd\xcd\xcd\xcd\xcd\xcd\xcd\xcd\xcd",
    ),
];

/// A replay by reads of 512 octets, of which seven give the whole of the longest script and the eighth finds its end.
const BY_PARTS: Given<'static> = Given {
    most: 512,
    ..REPLAY
};

/// Two equal packets come to a relay. Four calls of its link bind the ports, the 5th receives, the 6th sends, the 7th
/// receives.
const TWICE: Given<'static> = Given {
    words: &["relay", "--turns", "3"],
    readings: &[0, 0, 1000],
    datagrams: &[(20000, PEER, KNOWN), (20000, PEER, KNOWN)],
    ..REPLAY
};

/// A relay with a packet and a report each way. Of the link's calls four bind the ports, then a receive and a send
/// follow four times, and four unbind them.
const BOTH_WAYS: Given<'static> = Given {
    words: &["relay", "--turns=4"],
    readings: &[1000, 1000, 1001, 1002, 1003],
    datagrams: &COMING,
    ..REPLAY
};

/// The call that is keyed manually and another one, joined, and a wait.
const JOINED_WAIT: &[&str] = &[
    HEADER,
    KEYED,
    "manual 2 127.0.0.1:40010 127.0.0.1:41010 00000000 64 RAW80:0c0c0c0c0c0c0c0c0c0c0c0c0c0c0c0c0c0c0c0c RAW80:0d0d0d0d0d0d0d0d0d0d0d0d0d0d0d0d0d0d0d0d\n",
    "join 1 2\n",
    "tick 1000\n",
];

/// Two equal packets of a joined call, and one at its plain port. Eight calls of the link bind the ports, the 9th receives,
/// the 10th sends.
const CROSSING: Given<'static> = Given {
    words: &["relay", "--bridge", "--turns", "3"],
    readings: &[0, 0, 0, 1000],
    datagrams: &[
        (20000, PEER, KNOWN),
        (20000, PEER, KNOWN),
        (20002, PLAIN, KNOWN),
    ],
    link_fails: &[10],
    ..REPLAY
};

const REPLAYS: [Run; 7] = [
    Run {
        script: KEYED_CALL,
        given: Given {
            writes_fail: &[1],
            ..REPLAY
        },
        status: Status::Write,
        told: &[],
    },
    Run {
        script: KEYED_CALL,
        given: Given {
            writes_fail: &[2],
            ..REPLAY
        },
        status: Status::Write,
        told: &["made 1 0 1\n"],
    },
    Run {
        script: KEYED_CALL,
        given: Given {
            writes_fail: &[3],
            ..REPLAY
        },
        status: Status::Write,
        told: &[KEYED_TOLD],
    },
    // Three reads give the whole script, and the fourth fails: what was read is told.
    Run {
        script: KEYED_CALL,
        given: Given {
            most: 100,
            reads_fail: &[4],
            ..REPLAY
        },
        status: Status::Read,
        told: &[KEYED_TOLD, KNOWN_TOLD],
    },
    Run {
        script: &[HEADER, OFFERED],
        given: Given {
            draws_fail: &[1],
            ..REPLAY
        },
        status: Status::Noise,
        told: &[],
    },
    // A ninth read isn't asked for.
    Run {
        script: &[WHOLE_CALL],
        given: Given {
            reads_fail: &[9],
            ..BY_PARTS
        },
        status: Status::Done,
        told: &[WHOLE_CALL_TOLD],
    },
    Run {
        script: &[WHOLE_CALL],
        given: Given { most: 1, ..REPLAY },
        status: Status::Done,
        told: &[WHOLE_CALL_TOLD],
    },
];

const RELAYS: [Run; 11] = [
    // The third port isn't bound.
    Run {
        script: KEYED_WAIT,
        given: Given {
            link_fails: &[3],
            ..TWICE
        },
        status: Status::Link,
        told: &[],
    },
    Run {
        script: KEYED_WAIT,
        given: TWICE,
        status: Status::Done,
        told: &[KEYED_TOLD, "drop 20000 Repeat\n"],
    },
    Run {
        script: KEYED_WAIT,
        given: Given {
            link_fails: &[6],
            ..TWICE
        },
        status: Status::Done,
        told: &[
            KEYED_TOLD,
            "unsent 20002 127.0.0.1:41000\n",
            "drop 20000 Repeat\n",
        ],
    },
    Run {
        script: KEYED_WAIT,
        given: Given {
            link_fails: &[7],
            ..TWICE
        },
        status: Status::Link,
        told: &[KEYED_TOLD],
    },
    Run {
        script: KEYED_WAIT,
        given: Given {
            readings: &[0, 0, 0, 0],
            datagrams: &[],
            ..TWICE
        },
        status: Status::TurnsSpent,
        told: &[KEYED_TOLD],
    },
    Run {
        script: OFFERED_CALL,
        given: BOTH_WAYS,
        status: Status::Done,
        told: OFFERED_CALL_TOLD,
    },
    Run {
        script: OFFERED_CALL,
        given: Given {
            link_fails: &[6],
            ..BOTH_WAYS
        },
        status: Status::Done,
        told: &[OFFERED_TOLD, "unsent 20002 127.0.0.1:41000\n", ENDED_TOLD],
    },
    Run {
        script: OFFERED_CALL,
        given: Given {
            link_fails: &[8],
            ..BOTH_WAYS
        },
        status: Status::Done,
        told: &[OFFERED_TOLD, "unsent 20000 127.0.0.1:40000\n", ENDED_TOLD],
    },
    Run {
        script: OFFERED_CALL,
        given: Given {
            link_fails: &[10],
            ..BOTH_WAYS
        },
        status: Status::Done,
        told: &[OFFERED_TOLD, "unsent 20003 127.0.0.1:41001\n", ENDED_TOLD],
    },
    Run {
        script: OFFERED_CALL,
        given: Given {
            link_fails: &[12],
            ..BOTH_WAYS
        },
        status: Status::Done,
        told: &[OFFERED_TOLD, "unsent 20001 127.0.0.1:40001\n", ENDED_TOLD],
    },
    Run {
        script: JOINED_WAIT,
        given: CROSSING,
        status: Status::Done,
        told: &[
            KEYED_TOLD,
            "made 2 1 1\nlive 2\njoined 1 2\nunsent 20016 127.0.0.1:40010\ndrop 20000 Repeat\ndrop 20002 PortUnused\n",
        ],
    },
];

/// A run is answered so, and writes that.
fn plays(rt: &(impl Abort + Threads + Sync), alloc: Global, row: &Run) {
    let mut outside = Outside::of(rt, alloc, row.script, row.given);
    assert!(rt; outside.run(rt, alloc, &OpenGate) == row.status);
    let told = joined(rt, alloc, row.told);
    assert!(rt; outside.written() == told.as_slice());
}

#[test]
fn reads_writes_and_draws_that_fail(rt: HostRuntime) {
    for row in &REPLAYS {
        plays(&rt, rt.alloc(), row);
    }
}

#[test]
fn sends_receives_and_turns(rt: HostRuntime) {
    for row in &RELAYS {
        plays(&rt, rt.alloc(), row);
    }
}

/// Of the calls of a link one sends: a raw key encrypts nothing, so the known packet goes out without its tag.
fn one_is_sent(rt: &impl Abort, calls: &[LinkRecord]) {
    let mut is_sent = false;
    for call in calls {
        if let LinkRecord::Sent {
            port,
            to,
            octets,
            ok,
        } = call
        {
            assert!(rt; !is_sent && *ok);
            assert!(rt; (*port, *to) == (20002, PLAIN));
            assert!(rt; octets.as_slice() == &KNOWN[..28]);
            is_sent = true;
        }
    }
    assert!(rt; is_sent);
}

#[test]
fn what_a_relay_sends_comes_to_the_link(rt: HostRuntime) {
    let mut outside = Outside::of(&rt, rt.alloc(), KEYED_WAIT, TWICE);
    assert!(rt; outside.run(&rt, rt.alloc(), &OpenGate) == Status::Done);
    one_is_sent(&rt, outside.link.calls().expect(&rt, "a record"));
}

/// What can fail.
#[derive(Clone, Copy)]
enum Call {
    Read,
    Write,
    Link,
    Reading,
    Draw,
}

/// Each of these calls fails, one at a time, counted from 1, and this is answered.
type Failing = (Call, &'static [u64], Status);

const OF_A_REPLAY: [Failing; 1] = [(Call::Read, &[1, 2, 3, 4, 5, 6, 7, 8], Status::Read)];

const OF_A_RELAY: [Failing; 5] = [
    (Call::Read, &[1, 2], Status::Read),
    (Call::Write, &[1, 2, 3, 4, 5], Status::Write),
    (
        Call::Link,
        &[1, 2, 3, 4, 5, 7, 9, 11, 13, 14, 15, 16],
        Status::Link,
    ),
    (Call::Reading, &[1, 2, 3, 4, 5], Status::Clock),
    (Call::Draw, &[1, 2], Status::Noise),
];

fn failing<'a>(given: Given<'a>, call: Call, which: &'a [u64]) -> Given<'a> {
    match call {
        Call::Read => Given {
            reads_fail: which,
            ..given
        },
        Call::Write => Given {
            writes_fail: which,
            ..given
        },
        Call::Link => Given {
            link_fails: which,
            ..given
        },
        Call::Reading => Given {
            clock_fails: which,
            ..given
        },
        Call::Draw => Given {
            draws_fail: which,
            ..given
        },
    }
}

/// A run is answered so, and what it has written is a prefix of the whole.
fn breaks(
    rt: &(impl Abort + Threads + Sync),
    alloc: Global,
    script: &[&str],
    given: Given,
    status: &Status,
    whole: &[u8],
) {
    let mut outside = Outside::of(rt, alloc, script, given);
    assert!(rt; outside.run(rt, alloc, &OpenGate) == *status);
    assert!(rt; whole.starts_with(outside.written()));
}

/// Each of the calls fails once.
fn all_break(
    rt: &(impl Abort + Threads + Sync),
    alloc: Global,
    script: &[&str],
    given: Given,
    rows: &[Failing],
    whole: &[u8],
) {
    for (call, which, status) in rows {
        for number in which.chunks(1) {
            let given = failing(given, *call, number);
            breaks(rt, alloc, script, given, status, whole);
        }
    }
}

#[test]
fn each_read_of_a_replay_fails_once(rt: HostRuntime) {
    let whole = WHOLE_CALL_TOLD.as_bytes();
    all_break(
        &rt,
        rt.alloc(),
        &[WHOLE_CALL],
        BY_PARTS,
        &OF_A_REPLAY,
        whole,
    );
}

#[test]
fn each_call_of_a_relay_fails_once(rt: HostRuntime) {
    let whole = joined(&rt, rt.alloc(), OFFERED_CALL_TOLD);
    all_break(
        &rt,
        rt.alloc(),
        OFFERED_CALL,
        BOTH_WAYS,
        &OF_A_RELAY,
        &whole,
    );
}
