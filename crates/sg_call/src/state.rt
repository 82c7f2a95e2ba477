//! What a call has agreed on so far: a state that moves.

ghost use Rattle.std.specs.Prelude.{◌≡◌, ◌≤◌, List, Err, IfOk, IfErr, false, option_map};
ghost use Rattle.sg_base.specs.declared.faults.Fault.TheVariants as faults;
ghost use Rattle.sg_base.specs.declared.faults.Refusal.TheVariants as refusals;
ghost use Rattle.sg_gateway.specs.CallSignals.{offered_in, takes_offer};
ghost use Rattle.sg_gateway.specs.World as world;
ghost use Rattle.sg_psk.specs.declared.pairs.Pair as psk;
ghost use Rattle.sg_call.specs.Settling.{BooksStandFor, IsTaken};
ghost use Rattle.sg_call.specs.States.{HasPairs, StateStandsFor};
ghost use Rattle.sg_call.specs.declared.state.State.TheVariants as states;

use sg_agreement::offers_fit_their_calls;
use sg_base::{Fault, Octets, Refusal, Side};
use sg_leg::{Books, Idle, Live, Offered, Way};
use std::alloc::Global;

/// Whether a call has a generation, and whether an offer is open.
#[derive(Drop)]
pub enum State {
    /// Neither.
    Idle(Idle),
    /// An open offer, and the generation before it, where there is one.
    Offered(Offered),
    /// A generation, and no offer.
    Live(Live),
}

impl State {
    /// Takes an offer, or gives the state back: with `State` while an offer is open and of a call that is keyed
    /// manually.
    pub(crate) fn offer(
        self,
        alloc: Global,
        way: Way,
        text: &[u8],
        noise: &[u8; 304],
        now: u64,
        books: &mut Books,
    ) -> Result<(Offered, Octets), (State, Fault)>
        requires moment { now ≤ 2085978495999 }
        ensures answer { (c : world.Call) (b : world.Books) → StateStandsFor b.pairs self c → BooksStandFor books.old b
            → IsTaken result books.new (offered_in now b c way noise.now text.now) }
        ensures back { IfErr result (λ e. (e.0 ≡ self) × (books.new ≡ books.old)) }
        ensures psks { books.new.psks ≡ books.old.psks }
        ensures pairs { IfOk result (λ opened. HasPairs books.new.psks (states.Offered opened.0)) }
        ensures state { (pairs : List psk.Pair) (c : world.Call) → StateStandsFor pairs self c → takes_offer c ≡ false
            → result ≡ Err (self, faults.Refused refusals.State) }
    {
        offers_fit_their_calls();
        match self {
            State::Idle(idle) => match idle.offer(alloc, way, text, noise, now, books) {
                Ok(opened) => Ok(opened),
                Err((idle, fault)) => Err((State::Idle(idle), fault)),
            },
            State::Live(live) => match live.offer(alloc, way, text, noise, now, books) {
                Ok(opened) => Ok(opened),
                Err((live, fault)) => Err((State::Live(live), fault)),
            },
            state => Err((state, Fault::Refused(Refusal::State))),
        }
    }

    /// The side of the open offer.
    pub(crate) fn side(&self) -> Option<Side>
        ensures { (pairs : List psk.Pair) (c : world.Call) → StateStandsFor pairs self.now c → result ≡ option_map (λ o. o.side) c.offer }
    {
        match self {
            State::Offered(open) => Some(open.side()),
            State::Idle(_) => None,
            State::Live(_) => None,
        }
    }
}
