//! Which calls are joined: by what the table tells of them, and by the lines that join and part them.

ghost use Rattle.std.specs.Prelude.{◌≡◌, length, map, IfSome};
ghost use Rattle.sg_pairs.specs.Onward.{onward};
ghost use Rattle.sg_pairs.specs.Pairs.{IsJoined, IsParted, JoinsAs, Members, emptied, found, joined, joined_found, no_members, after_outcome, now_live, parted_from, in_pair_at};

use crate::faults::JoinFault;
use crate::members::{
    Found, Member, Pair, Party, joined_pair, live, new_member, other_id, other_slot, set_pair,
};
use crate::outcomes::BridgeOutcome;
use sg_base::{CALLS_MOST, CallId, FIRST_PORT, MEDIUM_PORTS, SLOT_PORTS};
use sg_outcome::Outcome;
use std::marker::Model;

/// The port behind the last slot's.
const PORTS_END: u16 = 24_096;

/// What is known of the calls, slot by slot, and which of them are joined.
#[derive(Drop)]
pub struct Bridge {
    calls: [Option<Member>; CALLS_MOST],
}

impl Model for Bridge {
    ghost use Rattle.sg_pairs.specs.Pairs.{Members};

    ghost Value = { Members };

    ghost view = { λ b. b.calls };
}

impl Bridge {
    /// No call is known.
    pub fn make() -> Bridge
        ensures { result ≡ no_members }
    {
        Bridge {
            calls: [None; CALLS_MOST],
        }
    }

    /// Follows what the table tells: a call is made, has sessions, or has ended. Where that one was joined, it is
    /// parted, and that is told. It doesn't allocate.
    pub fn note(&mut self, outcome: &Outcome) -> Option<BridgeOutcome>
        ensures calls { self.new ≡ (after_outcome self.old outcome.now).calls }
        ensures parted { result ≡ (after_outcome self.old outcome.now).parted }
    {
        match outcome {
            Outcome::Made { call, slot, media } => {
                let _ = end(&mut self.calls, *slot);
                self.calls[usize::from(*slot)] = Some(new_member(*call, *media));
                None
            }
            Outcome::Live { call } => {
                live_all(&mut self.calls, *call);
                None
            }
            Outcome::Ended { slot, .. } => end(&mut self.calls, *slot),
            _ => None,
        }
    }

    /// Joins two calls, or tells of one of them the first cause why not. It doesn't allocate.
    pub fn join(&mut self, first: CallId, second: CallId) -> Result<(), (CallId, JoinFault)>
        ensures { IsJoined result self.old self.new (joined first second self.old) }
    {
        let Some(a) = find(&self.calls, first) else {
            return Err((first, JoinFault::CallUnknown));
        };
        let Some(b) = find(&self.calls, second) else {
            return Err((second, JoinFault::CallUnknown));
        };
        let pair = join_found(a, b)?;
        set_both(&mut self.calls, pair, Some(pair));
        Ok(())
    }

    /// Parts a call from the one with which it is joined: the two in the order in which they were joined, or why
    /// not. It doesn't allocate.
    pub fn part(&mut self, call: CallId) -> Result<(CallId, CallId), JoinFault>
        ensures { IsParted result self.old self.new (parted_from call self.old) }
    {
        let Some(found) = find(&self.calls, call) else {
            return Err(JoinFault::CallUnknown);
        };
        let Some(pair) = found.member.pair else {
            return Err(JoinFault::NotJoined);
        };
        set_both(&mut self.calls, pair, None);
        Ok((pair.first.id, pair.second.id))
    }

    /// For a plain port of a joined call the plain port of the same medium and kind of the other call; none for every
    /// other port. It doesn't allocate.
    pub fn onward(&self, port: u16) -> Option<u16>
        ensures { result ≡ onward self.now port }
    {
        if port < FIRST_PORT || port >= PORTS_END {
            return None;
        }
        let offset = port - FIRST_PORT;
        if offset % MEDIUM_PORTS < 2 {
            return None;
        }
        let slot = (offset / SLOT_PORTS) as u8;
        let member = self.calls[usize::from(slot)]?;
        if offset % SLOT_PORTS / MEDIUM_PORTS >= u16::from(member.media) {
            return None;
        }
        let other = other_slot(member.pair?, slot);
        Some(FIRST_PORT + SLOT_PORTS * u16::from(other) + offset % SLOT_PORTS)
    }
}

/// The pair of two calls that can be joined, or the first cause why not.
fn join_found(a: Found, b: Found) -> Result<Pair, (CallId, JoinFault)>
    ensures { (calls : Members) → JoinsAs result calls (joined_found a b calls) }
{
    let first = a.member.id;
    let second = b.member.id;
    if first == second {
        return Err((first, JoinFault::Same));
    }
    if !a.member.is_live {
        return Err((first, JoinFault::Unready));
    }
    if !b.member.is_live {
        return Err((second, JoinFault::Unready));
    }
    if let Some(pair) = a.member.pair {
        let with = other_id(pair, first);
        return Err((first, JoinFault::Joined { with }));
    }
    if let Some(pair) = b.member.pair {
        let with = other_id(pair, second);
        return Err((second, JoinFault::Joined { with }));
    }
    if a.member.media != b.member.media {
        return Err((first, JoinFault::MediaCount));
    }
    Ok(Pair {
        first: Party {
            id: first,
            slot: a.slot,
        },
        second: Party {
            id: second,
            slot: b.slot,
        },
    })
}

/// The call of this id.
fn find(calls: &[Option<Member>], id: CallId) -> Option<Found>
    requires { length calls.now ≡ 256 }
    ensures found { result ≡ found id calls.now }
    ensures id { IfSome result (λ f. f.member.id ≡ id) }
{
    for (slot, member) in calls.iter().enumerate() {
        if let Some(member) = member {
            if member.id == id {
                return Some(Found {
                    slot: slot as u8,
                    member: *member,
                });
            }
        }
    }
    None
}

/// Puts both calls of a pair into this one, or into none.
fn set_both(calls: &mut [Option<Member>], pair: Pair, to: Option<Pair>)
    requires { length calls.old ≡ 256 }
    ensures set { calls.new ≡ in_pair_at to pair.second.slot (in_pair_at to pair.first.slot calls.old) }
    ensures all { length calls.new ≡ 256 }
{
    set_pair_at(calls, pair.first.slot, to);
    set_pair_at(calls, pair.second.slot, to);
}

/// Puts the call in a slot into this pair, or into none.
fn set_pair_at(calls: &mut [Option<Member>], slot: u8, to: Option<Pair>)
    requires { length calls.old ≡ 256 }
    ensures set { calls.new ≡ in_pair_at to slot calls.old }
    ensures all { length calls.new ≡ 256 }
{
    set_pair(&mut calls[usize::from(slot)], to);
}

/// The call of this id has a generation.
fn live_all(calls: &mut [Option<Member>], id: CallId)
    ensures { calls.new ≡ map (now_live id) calls.old }
{
    for member in calls {
        live(member, id);
    }
}

/// No call is in this slot any more; where one was joined, its pair is parted.
fn end(calls: &mut [Option<Member>], slot: u8) -> Option<BridgeOutcome>
    requires { length calls.old ≡ 256 }
    ensures calls { calls.new ≡ (emptied slot calls.old).calls }
    ensures parted { result ≡ (emptied slot calls.old).parted }
    ensures all { length calls.new ≡ 256 }
{
    let pair = joined_pair(&calls[usize::from(slot)]);
    if let Some(pair) = pair {
        set_both(calls, pair, None);
    }
    calls[usize::from(slot)] = None;
    let pair = pair?;
    Some(BridgeOutcome::Parted {
        first: pair.first.id,
        second: pair.second.id,
    })
}
