//! Exchanges with another program.

use crate::exchange_rows::{ACCEPTED, ANSWER, Accepted, OWN};
use sg_base::{Identity, Octets, TICK_MOST, read_octets};
use sg_mikey::{Tgks, read};
use sg_psk::{
    Initial, PskBook, ReplayBook, Waiting, initiate, read_initial, read_response, respond,
};
use std::alloc::Global;
use std::process::Abort;

/// The moment of all stamps.
const NOW: u64 = 1_000_000_000_000;

fn octets_of(rt: &impl Abort, alloc: Global, text: &[u8]) -> Octets {
    let read = read_octets(alloc, text).expect(rt, "memory");
    read.expect(rt, "hexadecimal digits")
}

fn name_of(rt: &impl Abort, octets: &[u8]) -> Identity {
    Identity::new(octets).expect(rt, "a name")
}

// Octets that go up by a step from a first one, modulo 256.
fn stepped<const N: usize>(first: u8, step: u8) -> [u8; N] {
    let mut octets = [0; N];
    let mut next = first;
    for octet in octets.iter_mut() {
        *octet = next;
        next = next.wrapping_add(step);
    }
    octets
}

fn book_of(rt: &impl Abort, alloc: Global) -> PskBook {
    let (own, peer) = (name_of(rt, b"sip:gw@a"), name_of(rt, b"sip:bob@b"));
    let key: [u8; 32] = stepped(100, 1);
    let mut book = PskBook::make(alloc);
    assert!(rt; book.add(alloc, &own, &peer, &key).is_ok());
    book
}

/// What a message is accepted as; a text tells why it isn't.
fn accept(
    alloc: Global,
    octets: &[u8],
    book: &PskBook,
    seen: &ReplayBook,
    now: u64,
) -> Result<Initial, &'static str> {
    if octets.len() > 1_000_000 || now > TICK_MOST {
        return Err("too long, or too late");
    }
    let Ok(message) = read(alloc, octets) else {
        return Err("not read");
    };
    match read_initial(alloc, octets, &message, book, seen, now) {
        Ok(initial) => Ok(initial),
        Err(_) => Err("refused"),
    }
}

/// The message of a row, accepted.
fn accepted(rt: &impl Abort, alloc: Global, book: &PskBook, row: &Accepted) -> Initial {
    let octets = octets_of(rt, alloc, row.message);
    let empty = ReplayBook::make(alloc).expect(rt, "memory");
    let accepted = accept(alloc, octets.as_slice(), book, &empty, row.now);
    accepted.expect(rt, row.name)
}

/// The keys, joined.
fn keys_of(rt: &impl Abort, alloc: Global, tgks: &Tgks) -> Vec<u8> {
    let mut keys = Vec::new(alloc);
    for tgk in tgks.keys.as_slice() {
        let pushed = keys.extend_from_slice(tgk.key.as_slice());
        pushed.expect(rt, "memory");
    }
    keys
}

/// Their SPIs, joined.
fn spis_of(rt: &impl Abort, alloc: Global, tgks: &Tgks) -> Vec<u8> {
    let mut spis = Vec::new(alloc);
    for tgk in tgks.keys.as_slice() {
        if let Some(spi) = &tgk.spi {
            let pushed = spis.extend_from_slice(spi.octets().as_slice());
            pushed.expect(rt, "memory");
        }
    }
    spis
}

fn response_to(
    rt: &impl Abort,
    alloc: Global,
    initial: &Initial,
    book: &PskBook,
    count: usize,
) -> Octets {
    let ssrcs = [0xa0, 0xa1];
    assert!(rt; usize::from(initial.pair) < book.pairs().len());
    assert!(rt; count <= ssrcs.len());
    respond(alloc, initial, book, &ssrcs[..count]).expect(rt, "memory")
}

/// These octets are what the text says.
fn are(rt: &impl Abort, alloc: Global, octets: &[u8], text: &[u8]) {
    let wanted = octets_of(rt, alloc, text);
    assert!(rt; octets == wanted.as_slice());
}

/// What an accepted message carries, its keys, its SPIs and the response to it, is what its row says.
fn carries(rt: &impl Abort, alloc: Global, initial: &Initial, book: &PskBook, row: &Accepted) {
    let keys = keys_of(rt, alloc, &initial.tgks);
    are(rt, alloc, &keys, row.keys);
    let spis = spis_of(rt, alloc, &initial.tgks);
    are(rt, alloc, &spis, row.spis);
    let response = response_to(rt, alloc, initial, book, row.media);
    are(rt, alloc, response.as_slice(), row.response);
}

#[test]
fn accepts_messages_of_another_program(rt: HostRuntime) {
    let book = book_of(&rt, rt.alloc());
    for row in &ACCEPTED {
        let initial = accepted(&rt, rt.alloc(), &book, row);
        carries(&rt, rt.alloc(), &initial, &book, row);
    }
}

/// The message to the peer, and what waits for the answer.
fn sent(rt: &impl Abort, alloc: Global, book: &PskBook) -> (Octets, Waiting) {
    let noise: [u8; 304] = stepped(1, 5);
    let peer = name_of(rt, b"sip:bob@b");
    let sent = initiate(alloc, book, &peer, NOW, &noise, &[0xa0, 0xa1]);
    sent.ok().expect(rt, "sent")
}

/// The SSRC of the peer's first crypto session, as its answer has it.
fn answered(
    alloc: Global,
    octets: &[u8],
    waiting: &Waiting,
    book: &PskBook,
) -> Result<u32, &'static str> {
    if octets.len() > 1_000_000 || usize::from(waiting.pair) >= book.pairs().len() {
        return Err("too long, or no such pair");
    }
    let Ok(message) = read(alloc, octets) else {
        return Err("not read");
    };
    match read_response(alloc, octets, &message, waiting, book) {
        Ok(map) => match map.as_slice() {
            [_, second, ..] => Ok(second.ssrc),
            _ => Err("no second session"),
        },
        Err(_) => Err("refused"),
    }
}

#[test]
fn sends_and_reads_the_answer(rt: HostRuntime) {
    let book = book_of(&rt, rt.alloc());
    let (octets, waiting) = sent(&rt, rt.alloc(), &book);
    are(&rt, rt.alloc(), octets.as_slice(), OWN);
    let octets = octets_of(&rt, rt.alloc(), ANSWER);
    let answer = answered(rt.alloc(), octets.as_slice(), &waiting, &book);
    assert!(rt; answer == Ok(0xb0));
}
