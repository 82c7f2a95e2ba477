//! The messages that were accepted, so that none is accepted twice (RFC 3830, 5.4).

ghost use Rattle.std.specs.Prelude.{◌≡◌, ◌≤◌, ◌<◌, ◌==◌, ◌&&◌, [], IfOk, length};
ghost use Rattle.std.specs.List.{list_any};
ghost use Rattle.sg_psk.specs.Pairs.{is_noted, is_same, note, with_note};

use crate::Initial;
use crate::pairs::{copy_of, is_same};
use sg_base::{Identity, NOTED_MOST, NoMemory};
use std::alloc::Global;
use std::marker::Model;

/// What is kept of a message: its initiator's name, its bundle's number and its stamp.
#[derive(Drop)]
pub struct Noted {
    pub peer: Identity,
    pub csb: u32,
    pub stamp: [u8; 8],
}

/// The messages that were accepted, seen as their list; at most 1,024. Only `make` takes memory.
#[derive(Drop)]
pub struct ReplayBook {
    noted: Vec<Noted>,
}

impl Model for ReplayBook {
    ghost use Rattle.std.specs.Prelude.{List, ◌≤◌, vec_len, vec_capacity};
    ghost use Rattle.sg_psk.specs.declared.replays.Noted.{Noted};

    ghost Value = { List Noted };

    ghost view = { λ b. b.noted.items };

    ghost invariant = { λ b. (1024 ≤ vec_capacity b.noted) × (vec_len b.noted ≤ 1024) };
}

fn is_message(noted: &Noted, peer: &[u8], csb: u32, stamp: &[u8; 8]) -> bool
    ensures { result ≡ is_same (note peer.now csb stamp.now) noted.now }
{
    is_same(peer, noted.peer.as_slice()) && csb == noted.csb && is_same(stamp, &noted.stamp)
}

impl ReplayBook {
    /// An empty book with room for 1,024 messages.
    pub fn make(alloc: Global) -> Result<ReplayBook, NoMemory>
        ensures { IfOk result (λ b. b ≡ []) }
    {
        Ok(ReplayBook {
            noted: Vec::with_capacity(alloc, NOTED_MOST)?,
        })
    }

    /// How many messages are there.
    pub fn count(&self) -> usize
        ensures value { result ≡ length self.now }
        ensures most { result ≤ 1024 }
    {
        self.noted.len()
    }

    /// Whether the message of this name, bundle and stamp is there.
    pub fn has(&self, peer: &[u8], csb: u32, stamp: &[u8; 8]) -> bool
        ensures { result ≡ is_noted self.now (note peer.now csb stamp.now) }
    {
        let noted = self.noted.as_slice();
        noted
            .iter()
            .any(|other| is_message(other, peer, csb, stamp))
    }

    /// Notes an accepted message; one that is there isn't added a second time. No memory is taken.
    pub fn note(&mut self, initial: &Initial)
        requires { length self.old < 1024 }
        ensures { self.new ≡ with_note self.old (note initial.now.peer initial.now.csb initial.now.stamp) }
    {
        if self.has(initial.peer.as_slice(), initial.csb, &initial.stamp) {
            return;
        }
        let _ = self.noted.push(Noted {
            peer: copy_of(&initial.peer),
            csb: initial.csb,
            stamp: initial.stamp,
        });
    }
}
