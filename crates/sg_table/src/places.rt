//! Where the calls are: by slot, by id, and where a new one goes.

ghost use Rattle.std.specs.Prelude.{◌≡◌, ◌<◌, ◌≤◌, ◌+◌, List, length, position, IfSome, IfNone, OnSome, vec_len, vec_capacity, insert};
ghost use Rattle.sg_gateway.specs.World.{same_id};
ghost use Rattle.sg_table.specs.Found.{has_id};
ghost use Rattle.sg_table.specs.Free.{free_shape};
ghost use Rattle.sg_table.specs.Values.{AreIndexed, AreRising, shapes_of};

use crate::calls::Calls;
use sg_base::{CALLS_MOST, CallId};
use sg_call::Call;

/// Whether a call has this id.
fn has_id(call: &Call, id: CallId) -> bool
    ensures { result ≡ has_id id call.now }
{
    call.id() == id
}

/// The position of the call of this id.
pub(crate) fn position_of(calls: &[Call], id: CallId) -> Option<usize>
    ensures value { result ≡ position (has_id id) calls.now }
    ensures within { IfSome result (λ i. i < length calls.now) }
{
    calls.iter().position(|call| has_id(call, id))
}

/// The lowest slot that no call has.
fn lowest(calls: &[Call]) -> usize
    ensures value { result ≡ free_shape 0 (shapes_of calls.now) }
    ensures most { result ≤ length calls.now }
{
    for (i, call) in calls.iter().enumerate() {
        if usize::from(call.slot()) != i {
            return i;
        }
    }
    calls.len()
}

/// The lowest slot that no call has; none where 256 calls are there.
pub(crate) fn free_slot(calls: &[Call]) -> Option<u8>
    ensures full { IfNone result (256 ≤ length calls.now) }
    ensures lowest { IfSome result (λ slot. slot ≡ free_shape 0 (shapes_of calls.now)) }
    ensures room { OnSome result (length calls.now < 256) }
{
    if calls.len() >= CALLS_MOST {
        return None;
    }
    Some(lowest(calls) as u8)
}

/// Puts a call that has the lowest free slot among the others, by rising slot. It doesn't allocate.
pub(crate) fn put_in(calls: &mut Vec<Call>, slot: u8, call: Call)
    requires room { vec_len calls.old < vec_capacity calls.old }
    requires slot { slot ≡ free_shape 0 (shapes_of calls.old.items) }
    ensures items { calls.new.items ≡ insert calls.old.items slot call }
    ensures len { vec_len calls.new ≡ vec_len calls.old + 1 }
    ensures capacity { vec_capacity calls.new ≡ vec_capacity calls.old }
{
    let _ = calls.insert(usize::from(slot), call);
}

impl Calls {
    /// Writes of each slot the position of its call.
    pub(crate) fn index(&self, places: &mut [Option<u8>])
        requires rising { AreRising (shapes_of self.now.calls) }
        requires all { length places.old ≡ 256 }
        ensures { AreIndexed places.new (shapes_of self.now.calls) }
    {
        places.fill(None);
        for (i, call) in self.by_slot.iter().enumerate() {
            places[usize::from(call.slot())] = Some(i as u8);
        }
    }
}
