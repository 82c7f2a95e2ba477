//! Keys and policies of another program.

use crate::session_rows::{SESSIONS, Sessions};
use sg_base::{Octets, read_octets};
use sg_csmap::{StreamKeys, streams};
use sg_mikey::{CsEntry, Items, Policy, Tgk, Tgks};
use std::alloc::Global;
use std::process::Abort;

const MAP: [CsEntry; 2] = [
    CsEntry {
        policy: 5,
        ssrc: 0xcafe,
        roc: 3,
    },
    CsEntry {
        policy: 5,
        ssrc: 0,
        roc: 0,
    },
];

fn octets_of(rt: &impl Abort, alloc: Global, text: &[u8]) -> Octets {
    let read = read_octets(alloc, text).expect(rt, "memory");
    read.expect(rt, "hexadecimal digits")
}

fn items_of(rt: &impl Abort, alloc: Global, items: &[(u8, &[u8])]) -> Items<(u8, Octets)> {
    let mut list = Vec::new(alloc);
    for item in items {
        let octets = octets_of(rt, alloc, item.1);
        list.push((item.0, octets)).expect(rt, "memory");
    }
    Items::from_vec(list)
}

fn tgks_of(rt: &impl Abort, alloc: Global, text: &[u8]) -> Tgks {
    let key = octets_of(rt, alloc, text);
    let mut keys = Vec::new(alloc);
    keys.push(Tgk { key, spi: None }).expect(rt, "memory");
    Tgks {
        keys: Items::from_vec(keys),
    }
}

/// The streams of a row's crypto sessions.
fn streams_of(rt: &impl Abort, alloc: Global, row: &Sessions) -> Vec<(StreamKeys, StreamKeys)> {
    let random = octets_of(rt, alloc, row.random);
    let policies = [Policy {
        number: 5,
        items: items_of(rt, alloc, row.items),
    }];
    let tgks = tgks_of(rt, alloc, row.key);
    let random = random.as_slice();
    let made = streams(alloc, 0x10203040, random, &MAP, &policies, &tgks, 1);
    made.ok().expect(rt, row.name)
}

fn has_key(stream: &StreamKeys, octets: &[u8]) -> bool {
    match stream.keys.as_slice() {
        [(_, master)] => {
            let (key, salt) = (master.key(), master.salt());
            octets.starts_with(key)
                && octets.ends_with(salt)
                && octets.len() == key.len() + salt.len()
        }
        _ => false,
    }
}

/// Whether a stream has the row's suite and marks, the source and the one key, whose octets and salt are these.
fn is_of(row: &Sessions, stream: &StreamKeys, source: (u32, u32), octets: &[u8]) -> bool {
    let has_marks = stream.plain_rtp == row.plain_rtp && stream.plain_rtcp == row.plain_rtcp;
    let has_source = (stream.ssrc, stream.roc) == source;
    has_marks && has_source && stream.suite == row.suite && has_key(stream, octets)
}

/// A stream is what its row says.
fn agrees(
    rt: &impl Abort,
    alloc: Global,
    row: &Sessions,
    stream: &StreamKeys,
    source: (u32, u32),
    key: &[u8],
) {
    let octets = octets_of(rt, alloc, key);
    assert!(rt;
        is_of(row, stream, source, octets.as_slice()),
        "{}",
        row.name
    );
}

#[test]
fn keys_of_another_program(rt: HostRuntime) {
    for row in &SESSIONS {
        let made = streams_of(&rt, rt.alloc(), row);
        for (first, second) in made.as_slice() {
            agrees(&rt, rt.alloc(), row, first, (0xcafe, 3), row.first);
            agrees(&rt, rt.alloc(), row, second, (0, 0), row.second);
        }
    }
}
