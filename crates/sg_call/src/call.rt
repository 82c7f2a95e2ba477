//! A call: its state, the routes of its generations, and its inbox.

ghost use Rattle.std.specs.Prelude.{◌≡◌, ◌≤◌, ◌<◌, ◌+◌, ◌++◌, [], ◌∷◌, ℕ, List, length, filter, IfOk, OnOk, OnErr, MatchOption, drop, nat_le, Err, false, true, option_map, is_some};
ghost use Rattle.sg_base.specs.declared.faults.Fault.TheVariants as faults;
ghost use Rattle.sg_base.specs.declared.faults.Refusal.TheVariants as refusals;
ghost use Rattle.sg_gateway.specs.Batch as batch;
ghost use Rattle.sg_gateway.specs.Datagrams.{arrived_in};
ghost use Rattle.sg_gateway.specs.World as world;
ghost use Rattle.sg_psk.specs.declared.pairs.Pair as psk;
ghost use Rattle.sg_call.specs.Adding.{renewed_value};
ghost use Rattle.sg_call.specs.Handling.{moment_after};

use crate::handled::{End, Handled};
use crate::inbox::{Inbox, Queued};
use crate::making::add_all;
use crate::route::Route;
use crate::routes::Routes;
use crate::state::State;
use sg_base::{
    Address, CallId, EARLIER_MILLIS, Fault, MEDIA_MOST, MasterKey, NoMemory, Octets, Pad, Refusal,
    Side,
};
use sg_lanes::Lane;
use sg_leg::{Books, Ended, Idle, Live, MEDIUM_SIDES, ManualMedium, Way};
use std::alloc::Global;
use std::marker::Model;
use std::mem;

/// The most routes of a generation, one for each side.
const ROUTES: usize = MEDIA_MOST * MEDIUM_SIDES;

/// A call of up to four media, with the routes of its current generation and those of the one before that still
/// open, and an inbox.
#[derive(Drop)]
pub struct Call {
    id: CallId,
    slot: u8,
    media: u8,
    is_new: bool,
    moment: u64,
    replaced: u64,
    routes: Routes,
    inbox: Inbox,
    state: State,
}

impl Model for Call {
    ghost use Rattle.std.specs.Prelude.{◌≤◌};
    ghost use Rattle.sg_call.specs.Values.{CallValue};

    ghost Value = { CallValue };

    ghost view = { λ c. record {
      id = c.id;
      slot = c.slot;
      media = c.media;
      is_new = c.is_new;
      state = c.state;
      current = c.routes.current;
      earlier = c.routes.earlier;
      replaced = c.replaced;
      moment = c.moment;
      waiting = c.inbox.waiting;
      handled = c.inbox.handled;
    } };

    ghost invariant = { λ c. c.media ≤ 4 };
}

impl Call {
    ghost use Rattle.sg_gateway.specs.CallSignals.{idle_call};
    ghost use Rattle.sg_gateway.specs.Ports.{is_in_slot};
    ghost use Rattle.sg_gateway.specs.PlainOf.{plain_of};
    ghost use Rattle.sg_call.specs.Standing.{CallStandsFor};

    /// A new call in this slot: idle, with an empty inbox for 256 datagrams. `NoMemory` where there is none for it.
    pub fn make(alloc: Global, id: CallId, slot: u8) -> Result<Call, NoMemory>
        ensures stands { IfOk result (λ call. (pairs : List psk.Pair) (serial : ℕ) → CallStandsFor pairs call (idle_call serial id slot)) }
        ensures inbox { IfOk result (λ call. (call.waiting ≡ []) × (call.handled ≡ [])) }
    {
        let inbox = Inbox::make(alloc)?;
        Ok(Call {
            id,
            slot,
            media: 0,
            is_new: true,
            state: State::Idle(Idle::make(slot)),
            routes: Routes::make(alloc),
            replaced: 0,
            moment: 0,
            inbox,
        })
    }

    /// The id.
    pub fn id(&self) -> CallId
        ensures { result ≡ self.now.id }
    {
        self.id
    }

    /// The slot.
    pub fn slot(&self) -> u8
        ensures { result ≡ self.now.slot }
    {
        self.slot
    }

    /// The number of media, 4 at most; 0 while no offer was accepted and the call isn't keyed manually.
    pub fn media(&self) -> u8
        ensures value { result ≡ self.now.media }
        ensures most { result ≤ 4 }
    {
        self.media
    }

    /// The moment of the latest accepted signal or packet put out, 0 before any.
    pub fn moment(&self) -> u64
        ensures { result ≡ self.now.moment }
    {
        self.moment
    }

    /// The moment of the signal that the current generation came of, 0 before any.
    pub fn replaced(&self) -> u64
        ensures { result ≡ self.now.replaced }
    {
        self.replaced
    }

    /// The plain address of the current generation's session on a plain port, for packets of its kind; none where no
    /// such session is there. It doesn't allocate.
    pub fn plain_of(&self, port: u16) -> Option<Address>
        ensures { (pairs : List psk.Pair) (c : world.Call) → CallStandsFor pairs self.now c → result ≡ plain_of c port }
    {
        self.routes.plain_of(port)
    }

    /// The side of the open offer.
    pub fn side(&self) -> Option<Side>
        ensures { (pairs : List psk.Pair) (c : world.Call) → CallStandsFor pairs self.now c → result ≡ option_map (λ o. o.side) c.offer }
    {
        self.state.side()
    }
}

impl Call {
    ghost use Rattle.sg_call.specs.Handling.{OnDrop, handled_of};
    ghost use Rattle.sg_call.specs.Standing.{CallStandsFor};

    /// Handles a datagram that comes to a port at this moment: what the current generation opens or seals, else
    /// what the earlier one opens, else a drop with the current one's cause. A datagram that is dropped comes back as it
    /// was and changes nothing. It doesn't allocate.
    pub fn datagram(&mut self, port: u16, from: Address, pad: Pad, now: u64) -> Handled
        ensures answer { (pairs : List psk.Pair) (c : world.Call) → CallStandsFor pairs self.old c → result ≡ handled_of pad (arrived_in now port from pad c) }
        ensures stands { (pairs : List psk.Pair) (c : world.Call) → CallStandsFor pairs self.old c
            → CallStandsFor pairs self.new (batch.after (arrived_in now port from pad c) c) }
        ensures refused { OnDrop result.end ((result.pad ≡ pad) × (self.new ≡ self.old)) }
        ensures inbox { (self.new.waiting ≡ self.old.waiting) × (self.new.handled ≡ self.old.handled) }
        ensures same { (self.new.slot ≡ self.old.slot) × (self.new.media ≡ self.old.media) × (self.new.id ≡ self.old.id) }
    {
        let handled = self.routes.pass(self.is_new, port, from, pad);
        self.moment = moment_after(handled.end, now, self.moment);
        handled
    }

    /// Puts a datagram into the inbox, under a number. It doesn't allocate.
    pub fn push(&mut self, number: u32, port: u16, from: Address, pad: Pad, now: u64)
        requires room { length self.old.waiting + length self.old.handled < 256 }
        ensures { self.new ≡ record self.old { waiting = self.old.waiting ++ record { number = number; port = port; from = from; octets = pad; now = now } ∷ [] } }
    {
        self.inbox.add(Queued {
            number,
            port,
            from,
            pad,
            now,
        });
    }

    /// Takes out the first datagram that is handled; none where none is. It doesn't allocate.
    pub fn pop(&mut self) -> Option<(u32, Handled)>
        ensures first { MatchOption result (self.old.handled ≡ []) (λ h. self.old.handled ≡ h ∷ self.new.handled) }
        ensures rest { self.new ≡ record self.old { handled = drop 1 self.old.handled } }
    {
        self.inbox.take()
    }
}

impl Call {
    ghost use Rattle.sg_agreement.specs.Manual.{medium_under};
    ghost use Rattle.sg_gateway.specs.CallSignals.{offered_in, answered_in, keyed_manually, rejected_in, call_at_tick, has_begun, takes_offer};
    ghost use Rattle.sg_call.specs.Settling.{BooksStandFor, IsSettled, IsKeyed, IsRejected};
    ghost use Rattle.sg_call.specs.Standing.{CallStandsFor};
    ghost use Rattle.sg_call.specs.States.{HasPairs};

    // Offers, answers and manual keys aren't inlined, so that the stack that they take is no part of what other signals
    // and datagrams take.

    /// Takes an offer and tells the text for the other side; what `answer` asks of the books then holds. Refused or out
    /// of memory, the call is what it was, and so are the books; while an offer is open and of a call that is keyed
    /// manually it is `State`.
    #[inline(never)]
    pub fn offer(
        &mut self,
        alloc: Global,
        way: Way,
        text: &[u8],
        noise: &[u8; 304],
        now: u64,
        books: &mut Books,
    ) -> Result<Octets, Fault>
        requires moment { now ≤ 2085978495999 }
        ensures answer { (c : world.Call) (b : world.Books) → CallStandsFor b.pairs self.old c → BooksStandFor books.old b
            → IsSettled result self.new books.new (offered_in now b c way noise.now text.now) }
        ensures back { OnErr result ((self.new ≡ self.old) × (books.new ≡ books.old)) }
        ensures inbox { (self.new.waiting ≡ self.old.waiting) × (self.new.handled ≡ self.old.handled) }
        ensures psks { books.new.psks ≡ books.old.psks }
        ensures pairs { OnOk result (HasPairs books.new.psks self.new.state) }
        ensures state { (pairs : List psk.Pair) (c : world.Call) → CallStandsFor pairs self.old c → takes_offer c ≡ false
            → result ≡ Err (faults.Refused refusals.State) }
    {
        let state = mem::replace(&mut self.state, State::Idle(Idle::make(self.slot)));
        match state.offer(alloc, way, text, noise, now, books) {
            Ok((open, out)) => {
                self.media = open.media();
                self.moment = now;
                self.go_on(State::Offered(open));
                Ok(out)
            }
            Err((state, fault)) => {
                self.go_on(state);
                Err(fault)
            }
        }
    }

    /// Takes the answer to the open offer and tells the text for the side that offered; a new generation begins.
    /// Refused or out of memory, the call is what it was, and so are the books; without an open offer it is `State`.
    #[inline(never)]
    pub fn answer(
        &mut self,
        alloc: Global,
        text: &[u8],
        noise: &[u8; 304],
        now: u64,
        books: &mut Books,
    ) -> Result<Octets, Fault>
        requires pairs { HasPairs books.old.psks self.old.state }
        ensures answer { (c : world.Call) (b : world.Books) → CallStandsFor b.pairs self.old c → BooksStandFor books.old b
            → IsSettled result self.new books.new (answered_in now b c noise.now text.now) }
        ensures back { OnErr result ((self.new ≡ self.old) × (books.new ≡ books.old)) }
        ensures inbox { (self.new.waiting ≡ self.old.waiting) × (self.new.handled ≡ self.old.handled) }
        ensures psks { books.new.psks ≡ books.old.psks }
        ensures state { (pairs : List psk.Pair) (c : world.Call) → CallStandsFor pairs self.old c → is_some c.offer ≡ false
            → result ≡ Err (faults.Refused refusals.State) }
    {
        match mem::replace(&mut self.state, State::Idle(Idle::make(self.slot))) {
            State::Offered(open) => {
                let Ok(mut routes) = Vec::with_capacity(alloc, ROUTES) else {
                    self.go_on(State::Offered(open));
                    return Err(Fault::NoMemory);
                };
                match open.settle(alloc, text, noise, books) {
                    Ok((live, out, sides)) => {
                        add_all(self.slot, sides, &mut routes);
                        self.renew(live, routes, now);
                        Ok(out)
                    }
                    Err((open, fault)) => {
                        self.go_on(State::Offered(open));
                        Err(fault)
                    }
                }
            }
            state => {
                self.go_on(state);
                Err(Fault::Refused(Refusal::State))
            }
        }
    }

    /// Keys an idle call manually, under what the peer sends and what the gateway sends to it. Refused or out of
    /// memory, the call is what it was, and so are the books; once an offer was accepted it is `State`.
    #[inline(never)]
    pub fn manual(
        &mut self,
        alloc: Global,
        secure: Address,
        plain: Address,
        roc: u32,
        window: u16,
        from_peer: &MasterKey,
        to_peer: &MasterKey,
        now: u64,
        books: &mut Books,
    ) -> Result<(), Fault>
        ensures answer { (c : world.Call) (b : world.Books) → CallStandsFor b.pairs self.old c → BooksStandFor books.old b
            → IsKeyed result self.new books.new (keyed_manually now b c (medium_under secure plain roc window from_peer.now to_peer.now)) }
        ensures back { OnErr result ((self.new ≡ self.old) × (books.new ≡ books.old)) }
        ensures inbox { (self.new.waiting ≡ self.old.waiting) × (self.new.handled ≡ self.old.handled) }
        ensures psks { books.new.psks ≡ books.old.psks }
        ensures state { (pairs : List psk.Pair) (c : world.Call) → CallStandsFor pairs self.old c → has_begun c ≡ true
            → result ≡ Err (faults.Refused refusals.State) }
    {
        let given = ManualMedium {
            secure,
            plain,
            roc,
            window,
            from_peer,
            to_peer,
        };
        match mem::replace(&mut self.state, State::Idle(Idle::make(self.slot))) {
            State::Idle(idle) => {
                let Ok(mut routes) = Vec::with_capacity(alloc, MEDIUM_SIDES) else {
                    self.go_on(State::Idle(idle));
                    return Err(Fault::NoMemory);
                };
                match idle.settle(alloc, &given, books) {
                    Ok((live, sides)) => {
                        add_all(self.slot, sides, &mut routes);
                        self.media = 1;
                        self.renew(live, routes, now);
                        Ok(())
                    }
                    Err((idle, fault)) => {
                        self.go_on(State::Idle(idle));
                        Err(fault)
                    }
                }
            }
            state => {
                self.go_on(state);
                Err(Fault::Refused(Refusal::State))
            }
        }
    }

    /// Puts the call into this state, in the place of the one that was taken out.
    fn go_on(&mut self, state: State)
        ensures { self.new ≡ record self.old { state = state } }
    {
        self.state = state;
    }

    /// A new generation begins. Of the one before, what opens is kept.
    fn renew(&mut self, live: Live, routes: Vec<Route>, now: u64)
        ensures { self.new ≡ renewed_value self.old now live routes.items }
    {
        self.routes.renew(routes);
        self.is_new = false;
        self.replaced = now;
        self.moment = now;
        self.state = State::Live(live);
    }

    /// The open offer is rejected: whether the call goes on, under the generation before; where it has none, the
    /// call has ended. Without an open offer it is `State`, and the call is what it was. It doesn't allocate.
    pub fn reject(&mut self, now: u64) -> Result<bool, Refusal>
        ensures answer { (pairs : List psk.Pair) (c : world.Call) → CallStandsFor pairs self.old c → IsRejected pairs result self.new (rejected_in now c) }
        ensures back { OnErr result (self.new ≡ self.old) }
        ensures inbox { (self.new.waiting ≡ self.old.waiting) × (self.new.handled ≡ self.old.handled) }
    {
        match mem::replace(&mut self.state, State::Idle(Idle::make(self.slot))) {
            State::Offered(open) => match open.reject() {
                Ok(live) => {
                    self.moment = now;
                    self.go_on(State::Live(live));
                    Ok(true)
                }
                Err(Ended) => Ok(false),
            },
            state => {
                self.go_on(state);
                Err(Refusal::State)
            }
        }
    }

    /// A tick: 2,000 ms after a generation was replaced, what it still opened is dropped. It doesn't allocate.
    pub fn tick(&mut self, now: u64)
        ensures stands { (pairs : List psk.Pair) (c : world.Call) → CallStandsFor pairs self.old c → CallStandsFor pairs self.new (call_at_tick now c) }
        ensures inbox { (self.new.waiting ≡ self.old.waiting) × (self.new.handled ≡ self.old.handled) }
        ensures same { (self.new.slot ≡ self.old.slot) × (self.new.media ≡ self.old.media) × (self.new.id ≡ self.old.id) }
    {
        if is_past(self.replaced, now) {
            self.routes.drop_earlier();
        }
    }
}

/// Whether a generation that was replaced at this moment opens no longer.
fn is_past(replaced: u64, now: u64) -> bool
    ensures { result ≡ nat_le (replaced + 2000) now }
{
    now >= EARLIER_MILLIS && replaced <= now - EARLIER_MILLIS
}

impl Lane for Call {
    ghost use Rattle.sg_call.specs.Drained.{IsDrained};

    ghost drained = { λ old new. IsDrained old new };

    /// Handles each datagram that waits, in order, at its own moment.
    fn drain(&mut self) {
        while let Some(queued) = self.inbox.next() {
            self.handle(queued);
        }
    }
}

impl Call {
    ghost use Rattle.sg_call.specs.Drained.{IsNextHandled};
    ghost use Rattle.sg_call.specs.Standing.{CallStandsFor};

    /// Handles a datagram that has waited.
    fn handle(&mut self, queued: Queued)
        requires room { length self.old.waiting + length self.old.handled < 256 }
        ensures next { (pairs : List psk.Pair) (c : world.Call) → CallStandsFor pairs self.old c → IsNextHandled queued pairs c self.old self.new }
        ensures waiting { self.new.waiting ≡ self.old.waiting }
        ensures same { (self.new.slot ≡ self.old.slot) × (self.new.media ≡ self.old.media) × (self.new.id ≡ self.old.id) }
        ensures more { length self.new.handled ≡ length self.old.handled + 1 }
    {
        let Queued {
            number,
            port,
            from,
            pad,
            now,
        } = queued;
        let handled = self.datagram(port, from, pad, now);
        self.inbox.keep(number, handled);
    }
}

/// The moment of a call after a datagram that ends so.
fn moment_after(end: End, now: u64, moment: u64) -> u64
    ensures { result ≡ moment_after end now moment }
{
    match end {
        End::Out { .. } => now,
        End::Dropped(_) => moment,
    }
}

fn is_send<T: Send>() {}

/// A call can be handed to a worker.
pub fn call_is_send() {
    is_send::<Call>()
}
