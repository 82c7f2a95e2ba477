//! Ticks, and the signals that end calls. They don't allocate.

ghost use Rattle.std.specs.Prelude.{◌≡◌, ◌≢◌, ◌+◌, ◌<◌, ◌≤◌, [], map, filter, not, true, false, length, vec_len, vec_capacity};
ghost use Rattle.std.specs.List.{AllByRecursion, list_any};
ghost use Rattle.sg_gateway.specs.Signals.{left, rejected, ticked};
ghost use Rattle.sg_gateway.specs.World.{World, call_of};
ghost use Rattle.sg_leg.specs.Pairs.{EachPair};
ghost use Rattle.sg_outcome.specs.declared.outcomes.Why.TheVariants as whys;
ghost use Rattle.sg_table.specs.Calm.{CallRests, IsCalm};
ghost use Rattle.sg_table.specs.Ends.{ended_as, idles, IsRejectedAt, IsTicked};
ghost use Rattle.sg_table.specs.Standing.{TableStandsFor};
ghost use Rattle.sg_table.specs.Telling.{IsAnswered};

use crate::calls::Calls;
use crate::outcomes::Outcomes;
use crate::places::position_of;
use crate::signals::refused;
use sg_base::{CallId, EARLIER_MILLIS, IDLE_MILLIS, Refusal};
use sg_call::Call;
use sg_gateway::calls_in_order;
use sg_outcome::{Outcome, Why};

impl Calls {
    /// A tick. Idle calls end, in order of slot; the others take this moment, which is not before the last one.
    pub(crate) fn tick(&mut self, now: u64, told: &mut Outcomes)
        requires timely { now ≤ 2085978495999 }
        requires none { told.old.items ≡ [] }
        ensures { (w : World) → TableStandsFor self.old w → IsAnswered told.new.items self.new (ticked w now) }
    {
        if now < self.moment {
            told.push(Outcome::Refused {
                call: None,
                cause: Refusal::TickBack { last: self.moment },
            });
            return;
        }
        tell_idle(&self.by_slot, now, told);
        drop_idle(&mut self.by_slot, now);
        tick_each(&mut self.by_slot, now);
        self.moment = now;
    }

    /// A tick that is not before the last one, where no call is idle: the calls take this moment. Else nothing is
    /// done, and it is false.
    pub(crate) fn tick_quietly(&mut self, now: u64) -> bool
        requires timely { now ≤ 2085978495999 }
        ensures told { result ≡ true → (w : World) → TableStandsFor self.old w → IsAnswered [] self.new (ticked w now) }
        ensures tells { result ≡ false → (w : World) → TableStandsFor self.old w → (ticked w now).outcomes ≢ [] }
        ensures same { result ≡ false → self.new ≡ self.old }
        ensures count { length self.new.calls ≡ length self.old.calls }
    {
        if now < self.moment {
            return false;
        }
        if has_idle(&self.by_slot, now) {
            return false;
        }
        tick_each(&mut self.by_slot, now);
        self.moment = now;
        true
    }

    /// A tick that is not before the last one, and before a moment until which the calls are calm: they are not looked at.
    /// Else nothing is done, and it is false.
    pub(crate) fn pass(&mut self, now: u64, calm: u64) -> bool
        requires timely { now ≤ 2085978495999 }
        requires calm { IsCalm calm self.old }
        ensures told { result ≡ true → (w : World) → TableStandsFor self.old w → IsAnswered [] self.new (ticked w now) }
        ensures same { result ≡ false → self.new ≡ self.old }
        ensures calls { self.new.calls ≡ self.old.calls }
        ensures calm { IsCalm calm self.new }
    {
        if now < self.moment {
            return false;
        }
        if calm <= now {
            return false;
        }
        self.moment = now;
        true
    }

    /// A moment until which the calls are calm, while only datagrams come.
    pub(crate) fn calm(&self) -> u64
        ensures { IsCalm result self.now }
    {
        calm_of(&self.by_slot, self.moment)
    }

    /// The open offer of a call is rejected. A call without a generation ends.
    pub(crate) fn reject(&mut self, id: CallId, told: &mut Outcomes)
        requires none { told.old.items ≡ [] }
        ensures { (w : World) → TableStandsFor self.old w → IsAnswered told.new.items self.new (rejected w id (call_of w id)) }
    {
        calls_in_order();
        let Some(i) = position_of(&self.by_slot, id) else {
            refused(id, Refusal::CallUnknown, told);
            return;
        };
        let (slot, media) = place_of(&self.by_slot[i]);
        match reject_at(&mut self.by_slot, i, self.moment) {
            Ok(true) => {}
            Ok(false) => {
                drop(self.by_slot.remove(i));
                told.push(Outcome::Ended {
                    call: id,
                    slot,
                    media,
                    why: Why::Rejected,
                });
            }
            Err(cause) => refused(id, cause, told),
        }
    }

    /// A call ends.
    pub(crate) fn bye(&mut self, id: CallId, told: &mut Outcomes)
        requires none { told.old.items ≡ [] }
        ensures { (w : World) → TableStandsFor self.old w → IsAnswered told.new.items self.new (left w id (call_of w id)) }
    {
        calls_in_order();
        let Some(i) = position_of(&self.by_slot, id) else {
            refused(id, Refusal::CallUnknown, told);
            return;
        };
        told.push(ended(&self.by_slot[i], Why::Bye));
        drop(self.by_slot.remove(i));
    }
}

/// The slot of a call, and how many media it has.
fn place_of(call: &Call) -> (u8, u8)
    ensures { result ≡ (call.now.slot, call.now.media) }
{
    (call.slot(), call.media())
}

/// The open offer of the call at a position is rejected: whether the call goes on.
fn reject_at(calls: &mut [Call], i: usize, now: u64) -> Result<bool, Refusal>
    requires within { i < length calls.old }
    ensures { IsRejectedAt now i result calls.old calls.new }
{
    calls[i].reject(now)
}

fn ended(call: &Call, why: Why) -> Outcome
    ensures { result ≡ ended_as why call.now }
{
    Outcome::Ended {
        call: call.id(),
        slot: call.slot(),
        media: call.media(),
        why,
    }
}

fn idles(call: &Call, now: u64) -> bool
    ensures { result ≡ idles now call.now }
{
    now >= IDLE_MILLIS && call.moment() <= now - IDLE_MILLIS
}

/// Until when no tick changes a call, if none did at the last moment.
fn calm_at(call: &Call, last: u64) -> u64
    requires { last ≤ 2085978495999 }
    ensures { CallRests result last call.now }
{
    let idle = call.moment().saturating_add(IDLE_MILLIS);
    let past = call.replaced().saturating_add(EARLIER_MILLIS);
    if past <= last {
        return idle;
    }
    idle.min(past)
}

/// Until when no tick changes any of the calls.
fn calm_of(calls: &[Call], last: u64) -> u64
    requires { last ≤ 2085978495999 }
    ensures soon { result ≤ last + 60000 }
    ensures calls { AllByRecursion (CallRests result last) calls.now }
{
    let mut calm = last + IDLE_MILLIS;
    for each in calls.iter() {
        calm = calm.min(calm_at(each, last));
    }
    calm
}

/// Whether a call is idle.
fn has_idle(calls: &[Call], now: u64) -> bool
    ensures { result ≡ list_any (idles now) calls.now }
{
    calls.iter().any(|call| idles(call, now))
}

/// Tells which calls are idle.
fn tell_idle(calls: &[Call], now: u64, told: &mut Outcomes)
    requires few { length calls.now ≤ 256 }
    requires none { told.old.items ≡ [] }
    ensures { told.new.items ≡ map (ended_as whys.Idle) (filter (idles now) calls.now) }
{
    for call in calls.iter() {
        if idles(call, now) {
            told.push(ended(call, Why::Idle));
        }
    }
}

/// Drops the calls that are idle.
fn drop_idle(calls: &mut Vec<Call>, now: u64)
    ensures items { calls.new.items ≡ filter (λ c. not (idles now c)) calls.old.items }
    ensures few { vec_len calls.new ≤ vec_len calls.old }
    ensures capacity { vec_capacity calls.new ≡ vec_capacity calls.old }
{
    calls.retain(|call| !idles(call, now));
}

/// Ticks each call.
fn tick_each(calls: &mut [Call], now: u64)
    ensures { EachPair (IsTicked now) calls.old calls.new }
{
    for call in calls.iter_mut() {
        call.tick(now);
    }
}
