//! Signals that make and key calls. Memory is taken before anything changes.

ghost use Rattle.std.specs.Prelude.{◌≡◌, None, Some, [], ◌∷◌, ◌<◌, ℕ, List, IfOk, OnOk, OnErr, position, insert, length};
ghost use Rattle.sg_table.specs.Found.{has_id};
ghost use Rattle.sg_agreement.specs.Sides.{other_side};
ghost use Rattle.sg_call.specs.Standing.{CallStandsFor};
ghost use Rattle.sg_gateway.specs.CallSignals.{idle_call};
ghost use Rattle.sg_gateway.specs.Early.{early_manual, early_offer, early_answer};
ghost use Rattle.sg_gateway.specs.Signals.{manual_answer, offered_to, answered};
ghost use Rattle.sg_gateway.specs.World.{World, call_of};
ghost use Rattle.sg_outcome.specs.declared.outcomes.Outcome.TheVariants as tells;
ghost use Rattle.sg_psk.specs.declared.pairs.Pair.{Pair};
ghost use Rattle.sg_table.specs.Free.{free_shape};
ghost use Rattle.sg_table.specs.Standing.{Stands, TableStandsFor};
ghost use Rattle.sg_table.specs.Telling.{IsAnswered};
ghost use Rattle.sg_table.specs.Values.{shapes_of};

use crate::calls::Calls;
use crate::outcomes::Outcomes;
use crate::places::{free_slot, position_of, put_in};
use sg_base::{CallId, Fault, NoMemory, Refusal, Side};
use sg_call::Call;
use sg_gateway::calls_in_order;
use sg_leg::{MEDIUM_SIDES, ManualMedium, SideSpec, Way};
use sg_outcome::Outcome;
use std::alloc::Global;

/// A refusal of a call's signal.
pub(crate) fn refused(id: CallId, cause: Refusal, told: &mut Outcomes)
    requires none { told.old.items ≡ [] }
    ensures { told.new.items ≡ tells.Refused (Some id) cause ∷ [] }
{
    told.push(Outcome::Refused {
        call: Some(id),
        cause,
    });
}

/// That a call of this id was made.
fn made(id: CallId, call: &Call) -> Outcome
    ensures { result ≡ tells.Made id call.now.slot call.now.media }
{
    Outcome::Made {
        call: id,
        slot: call.slot(),
        media: call.media(),
    }
}

/// A new call in this slot, made behind room for what the sides of a manual call are made of. That room, some 32 KB, is
/// free again then, and the allocator has it for the next manual call too; behind the call it would be the next inbox's.
fn new_call(alloc: Global, id: CallId, slot: u8) -> Result<Call, NoMemory>
    ensures stands { IfOk result (λ call. (pairs : List Pair) (serial : ℕ) → CallStandsFor pairs call (idle_call serial id slot)) }
    ensures inbox { IfOk result (λ call. (call.waiting ≡ []) × (call.handled ≡ [])) }
{
    let room: Vec<SideSpec> = Vec::with_capacity(alloc, MEDIUM_SIDES)?;
    let call = Call::make(alloc, id, slot)?;
    drop(room);
    Ok(call)
}

fn other_side(side: Side) -> Side
    ensures { result ≡ other_side side }
{
    match side {
        Side::Secure => Side::Plain,
        Side::Plain => Side::Secure,
    }
}

impl Calls {
    /// Puts a new call into its slot. It tells that the call was made, and then this outcome.
    fn seat(&mut self, id: CallId, slot: u8, call: Call, outcome: Outcome, told: &mut Outcomes)
        requires room { length self.old.calls < 256 }
        requires slot { slot ≡ free_shape 0 (shapes_of self.old.calls) }
        requires none { told.old.items ≡ [] }
        ensures told { told.new.items ≡ tells.Made id call.slot call.media ∷ outcome ∷ [] }
        ensures calls { self.new ≡ record self.old { calls = insert self.old.calls slot call } }
    {
        told.push(made(id, &call));
        told.push(outcome);
        put_in(&mut self.by_slot, slot, call);
    }

    /// A call that is keyed manually, under what its peer sends and what it is sent.
    pub(crate) fn manual(
        &mut self,
        alloc: Global,
        id: CallId,
        given: &ManualMedium,
        told: &mut Outcomes,
    ) -> Result<(), NoMemory>
        requires none { told.old.items ≡ [] }
        ensures told { OnOk result ((w : World) → TableStandsFor self.old w → IsAnswered told.new.items self.new
            (manual_answer w (record {
              id = id;
              secure = given.now.secure;
              plain = given.now.plain;
              roc = given.now.roc;
              window = given.now.window;
              from_peer = given.now.from_peer.now;
              to_peer = given.now.to_peer.now;
            }))) }
        ensures same { OnErr result (self.new ≡ self.old) }
        ensures needs { OnErr result ((w : World) → TableStandsFor self.old w → early_manual w (call_of w id) ≡ None) }
    {
        calls_in_order();
        if position_of(&self.by_slot, id).is_some() {
            refused(id, Refusal::CallKnown, told);
            return Ok(());
        }
        let Some(slot) = free_slot(&self.by_slot) else {
            refused(id, Refusal::TableFull, told);
            return Ok(());
        };
        let mut call = new_call(alloc, id, slot)?;
        match call.manual(
            alloc,
            given.secure,
            given.plain,
            given.roc,
            given.window,
            given.from_peer,
            given.to_peer,
            self.moment,
            &mut self.books,
        ) {
            Ok(()) => {
                self.seat(id, slot, call, Outcome::Live { call: id }, told);
                Ok(())
            }
            Err(Fault::Refused(cause)) => {
                drop(call);
                refused(id, cause, told);
                Ok(())
            }
            Err(Fault::NoMemory) => {
                drop(call);
                Err(NoMemory)
            }
        }
    }

    /// An offer, of a new call where none has this id. Its text goes to the other side.
    pub(crate) fn offer(
        &mut self,
        alloc: Global,
        id: CallId,
        way: Way,
        noise: &[u8; 304],
        text: &[u8],
        told: &mut Outcomes,
    ) -> Result<(), NoMemory>
        requires none { told.old.items ≡ [] }
        ensures told { OnOk result ((w : World) → TableStandsFor self.old w
            → IsAnswered told.new.items self.new (offered_to w id way noise.now text.now (call_of w id))) }
        ensures same { OnErr result (self.new ≡ self.old) }
        ensures needs { OnErr result ((w : World) → TableStandsFor self.old w → early_offer w (call_of w id) ≡ None) }
    {
        calls_in_order();
        let Some(i) = position_of(&self.by_slot, id) else {
            return self.offer_new(alloc, id, way, noise, text, told);
        };
        let side = other_side(way.side());
        match self.by_slot[i].offer(alloc, way, text, noise, self.moment, &mut self.books) {
            Ok(text) => {
                told.push(Outcome::Sdp {
                    call: id,
                    side,
                    text,
                });
                Ok(())
            }
            Err(Fault::Refused(cause)) => {
                refused(id, cause, told);
                Ok(())
            }
            Err(Fault::NoMemory) => Err(NoMemory),
        }
    }

    /// An offer of a new call, in the lowest slot that is free.
    fn offer_new(
        &mut self,
        alloc: Global,
        id: CallId,
        way: Way,
        noise: &[u8; 304],
        text: &[u8],
        told: &mut Outcomes,
    ) -> Result<(), NoMemory>
        requires new { position (has_id id) self.old.calls ≡ None }
        requires none { told.old.items ≡ [] }
        ensures told { OnOk result ((w : World) → TableStandsFor self.old w
            → IsAnswered told.new.items self.new (offered_to w id way noise.now text.now (call_of w id))) }
        ensures same { OnErr result (self.new ≡ self.old) }
        ensures needs { OnErr result ((w : World) → TableStandsFor self.old w → early_offer w (call_of w id) ≡ None) }
    {
        calls_in_order();
        let Some(slot) = free_slot(&self.by_slot) else {
            refused(id, Refusal::TableFull, told);
            return Ok(());
        };
        let side = other_side(way.side());
        let mut call = Call::make(alloc, id, slot)?;
        match call.offer(alloc, way, text, noise, self.moment, &mut self.books) {
            Ok(text) => {
                let outcome = Outcome::Sdp {
                    call: id,
                    side,
                    text,
                };
                self.seat(id, slot, call, outcome, told);
                Ok(())
            }
            Err(Fault::Refused(why)) => {
                drop(call);
                refused(id, why, told);
                Ok(())
            }
            Err(Fault::NoMemory) => {
                drop(call);
                Err(NoMemory)
            }
        }
    }

    /// The answer to a call's open offer. Its text goes to the side that offered, and a new generation begins.
    pub(crate) fn answer(
        &mut self,
        alloc: Global,
        id: CallId,
        noise: &[u8; 304],
        text: &[u8],
        told: &mut Outcomes,
    ) -> Result<(), NoMemory>
        requires stands { Stands self.old }
        requires none { told.old.items ≡ [] }
        ensures told { OnOk result ((w : World) → TableStandsFor self.old w
            → IsAnswered told.new.items self.new (answered w id noise.now text.now (call_of w id))) }
        ensures same { OnErr result (self.new ≡ self.old) }
        ensures needs { OnErr result ((w : World) → TableStandsFor self.old w → early_answer (call_of w id) ≡ None) }
    {
        calls_in_order();
        let Some(i) = position_of(&self.by_slot, id) else {
            refused(id, Refusal::CallUnknown, told);
            return Ok(());
        };
        let Some(side) = self.by_slot[i].side() else {
            refused(id, Refusal::State, told);
            return Ok(());
        };
        match self.by_slot[i].answer(alloc, text, noise, self.moment, &mut self.books) {
            Ok(text) => {
                told.push(Outcome::Sdp {
                    call: id,
                    side,
                    text,
                });
                told.push(Outcome::Live { call: id });
                Ok(())
            }
            Err(Fault::Refused(cause)) => {
                refused(id, cause, told);
                Ok(())
            }
            Err(Fault::NoMemory) => Err(NoMemory),
        }
    }
}
