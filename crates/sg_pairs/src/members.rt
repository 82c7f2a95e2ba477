//! What a bridge knows of a call.

ghost use Rattle.std.specs.Prelude.{◌≡◌, option_map, option_and_then};
ghost use Rattle.sg_pairs.specs.Pairs.{new_member, now_live, other_id, other_slot, joined_pair, in_pair};

use sg_base::CallId;

/// A call of a pair, and its slot.
#[derive(Clone, Copy)]
pub struct Party {
    pub id: CallId,
    pub slot: u8,
}

/// Two calls that are joined, in the order in which they were named.
#[derive(Clone, Copy)]
pub struct Pair {
    pub first: Party,
    pub second: Party,
}

/// A call: its number, how many media it has, whether it has sessions, and the pair in which it is joined.
#[derive(Clone, Copy)]
pub struct Member {
    pub id: CallId,
    pub media: u8,
    pub is_live: bool,
    pub pair: Option<Pair>,
}

/// A call that was found, and its slot.
#[derive(Clone, Copy)]
pub struct Found {
    pub slot: u8,
    pub member: Member,
}

/// A call that was made.
pub(crate) fn new_member(id: CallId, media: u8) -> Member
    ensures { result ≡ new_member id media }
{
    Member {
        id,
        media,
        is_live: false,
        pair: None,
    }
}

/// The call of this number has sessions.
pub(crate) fn live(member: &mut Option<Member>, id: CallId)
    ensures { member.new ≡ now_live id member.old }
{
    if let Some(m) = member {
        if m.id == id {
            m.is_live = true;
        }
    }
}

/// The call is in this pair, or in none.
pub(crate) fn set_pair(member: &mut Option<Member>, pair: Option<Pair>)
    ensures { member.new ≡ in_pair pair member.old }
{
    if let Some(m) = member {
        m.pair = pair;
    }
}

/// The pair of the call in a slot.
pub(crate) fn joined_pair(member: &Option<Member>) -> Option<Pair>
    ensures { result ≡ joined_pair member.now }
{
    match member {
        None => None,
        Some(m) => m.pair,
    }
}

/// The other call of a pair, of which this is the one.
pub(crate) fn other_id(pair: Pair, id: CallId) -> CallId
    ensures { result ≡ other_id pair id }
{
    if pair.first.id == id {
        pair.second.id
    } else {
        pair.first.id
    }
}

/// The slot of the other call of a pair, of which this is the slot of the one.
pub(crate) fn other_slot(pair: Pair, slot: u8) -> u8
    ensures { result ≡ other_slot pair slot }
{
    if pair.first.slot == slot {
        pair.second.slot
    } else {
        pair.first.slot
    }
}
