//! One round: each call has a turn.

ghost use Rattle.std.specs.Prelude.{◌≡◌, ◌≤◌, ◌<◌, ◌+◌, ◌*◌, ℕ, List, [], ◌∷◌, ◌++◌, length, map, option_to_list, IfOk, OnOk};
ghost use Rattle.sg_demo.specs.Callers as model;
ghost use Rattle.sg_demo.specs.Callers.{next_datagram, after_sealing};
ghost use Rattle.sg_demo.specs.Turns.{Arriving, from_peer, turn_of, turns_of};
ghost use Rattle.sg_demo.specs.Standing.{CallerStandsFor};
ghost use Rattle.sg_demo.specs.Rounds.{HasGathered, IsSmall};
ghost use Rattle.sg_demo.specs.declared.action.Action.TheVariants.{Swap};
ghost use Rattle.std.specs.List.{AllZip};

use crate::action::{Action, action_of};
use crate::caller::Caller;
use crate::origin::Origin;
use crate::packets::{changed, filled};
use crate::words::draw;
use rand_pcg::Pcg32;
use sg_base::{Address, NoMemory, Pad};
use sg_table::Arrival;
use std::alloc::Global;

/// The addresses of each call: where its protected side and its plain side are.
pub const SECURE: Address = Address {
    ip: [127, 0, 0, 1],
    port: 40_000,
};

pub const PLAIN: Address = Address {
    ip: [127, 0, 0, 1],
    port: 41_000,
};

/// What arrives in a round, in order, where each datagram comes from, and how many packets the peers have sealed.
#[derive(Drop)]
pub struct Round {
    pub arrivals: Vec<Arrival>,
    pub origins: Vec<Origin>,
    pub sealed: u64,
}

impl Round {
    /// Nothing has arrived.
    fn new(alloc: Global) -> Round
        ensures gathered { HasGathered result 0 [] }
        ensures small { IsSmall 0 0 result }
    {
        Round {
            arrivals: Vec::new(alloc),
            origins: Vec::new(alloc),
            sealed: 0,
        }
    }

    /// A datagram arrives.
    fn push(&mut self, origin: Origin, port: u16, pad: Pad) -> Result<(), NoMemory>
        ensures small { (s a : ℕ) → IsSmall s a self.old → IsSmall s (a + 1) self.new }
        ensures gathered { OnOk result ((n : ℕ) (arrivals : List Arriving) → HasGathered self.old n arrivals
            → HasGathered self.new n (arrivals ++ record { origin = origin; port = port; octets = pad } ∷ [])) }
    {
        let from = match origin {
            Origin::Peer => SECURE,
            Origin::Plain(_) => PLAIN,
        };
        self.arrivals.push(Arrival {
            port,
            from,
            pad: Some(pad),
            end: None,
        })?;
        self.origins.push(origin)?;
        Ok(())
    }

    /// What the peer of a call has sealed arrives, if there is something.
    fn send(&mut self, caller: &Caller, pad: Option<Pad>) -> Result<(), NoMemory>
        ensures small { (s a : ℕ) → IsSmall s a self.old → IsSmall s (a + 1) self.new }
        ensures gathered { OnOk result ((c : model.Caller) (n : ℕ) (arrivals : List Arriving) → CallerStandsFor caller.now c → HasGathered self.old n arrivals
            → HasGathered self.new n (arrivals ++ from_peer c (option_to_list pad))) }
    {
        match pad {
            None => Ok(()),
            Some(pad) => self.push(Origin::Peer, caller.secure_port(), pad),
        }
    }

    /// The peer of a call seals its next packet, which is counted.
    fn seal(&mut self, alloc: Global, caller: &mut Caller) -> Result<Option<Pad>, NoMemory>
        requires { IsSmall 1000 1000 self.old }
        ensures small { (s a : ℕ) → IsSmall s a self.old → IsSmall (s + 1) a self.new }
        ensures sealed { IfOk result (λ pad. (c : model.Caller) (n : ℕ) (arrivals : List Arriving) → CallerStandsFor caller.old c → HasGathered self.old n arrivals
            → (option_to_list pad ≡ next_datagram c) × CallerStandsFor caller.new (after_sealing c) × HasGathered self.new (n + length (next_datagram c)) arrivals) }
    {
        let pad = caller.seal_next(alloc)?;
        if pad.is_some() {
            self.sealed += 1;
        }
        Ok(pad)
    }

    /// The turn of the call at this position.
    #[tactic(auto, unfolding(crate::specs::Turns::turn_of))]
    fn turn(
        &mut self,
        alloc: Global,
        action: Action,
        position: usize,
        caller: &mut Caller,
    ) -> Result<(), NoMemory>
        requires { IsSmall 600 600 self.old }
        ensures turn { OnOk result ((c : model.Caller) (n : ℕ) (arrivals : List Arriving) → CallerStandsFor caller.old c → HasGathered self.old n arrivals
            → CallerStandsFor caller.new (turn_of action position c).caller
            × HasGathered self.new (n + (turn_of action position c).sealed) (arrivals ++ (turn_of action position c).arrivals)) }
        ensures small { (s a : ℕ) → IsSmall s a self.old → IsSmall (s + 2) (a + 2) self.new }
    {
        match action {
            Action::Lose => {
                self.seal(alloc, caller)?;
                Ok(())
            }
            Action::Repeat => self.repeat(alloc, caller),
            Action::Swap => self.swap(alloc, caller),
            Action::Answer => {
                let port = caller.plain_port();
                let pad = caller.next_plain(alloc)?;
                self.push(Origin::Plain(position), port, pad)
            }
            Action::Change => {
                let pad = self.seal(alloc, caller)?;
                self.send(caller, changed(pad))
            }
            Action::Send => {
                let pad = self.seal(alloc, caller)?;
                self.send(caller, pad)
            }
        }
    }

    /// What the peer sealed last arrives again.
    fn repeat(&mut self, alloc: Global, caller: &Caller) -> Result<(), NoMemory>
        ensures small { (s a : ℕ) → IsSmall s a self.old → IsSmall s (a + 1) self.new }
        ensures gathered { OnOk result ((c : model.Caller) (n : ℕ) (arrivals : List Arriving) → CallerStandsFor caller.now c → HasGathered self.old n arrivals
            → HasGathered self.new n (arrivals ++ from_peer c (option_to_list c.last))) }
    {
        match &caller.last {
            None => Ok(()),
            Some(last) => {
                let pad = filled(alloc, last.octets())?;
                self.push(Origin::Peer, caller.secure_port(), pad)
            }
        }
    }

    /// The peer seals two packets, of which the second arrives before the first.
    #[tactic(auto, unfolding(crate::specs::Turns::turn_of))]
    fn swap(&mut self, alloc: Global, caller: &mut Caller) -> Result<(), NoMemory>
        requires { IsSmall 600 600 self.old }
        ensures turn { OnOk result ((c : model.Caller) (n : ℕ) (arrivals : List Arriving) → CallerStandsFor caller.old c → HasGathered self.old n arrivals
            → CallerStandsFor caller.new (turn_of Swap 0 c).caller
            × HasGathered self.new (n + (turn_of Swap 0 c).sealed) (arrivals ++ (turn_of Swap 0 c).arrivals)) }
        ensures small { (s a : ℕ) → IsSmall s a self.old → IsSmall (s + 2) (a + 2) self.new }
    {
        let first = self.seal(alloc, caller)?;
        let second = self.seal(alloc, caller)?;
        self.send(caller, second)?;
        self.send(caller, first)
    }
}

/// Each call draws a word and has its turn, in order.
pub fn take_turns(
    alloc: Global,
    words: &mut Pcg32,
    callers: &mut [Caller],
) -> Result<Round, NoMemory>
    requires { length callers.old ≤ 256 }
    ensures turns { IfOk result (λ round. (cs : List model.Caller) → AllZip CallerStandsFor callers.old cs
        → (words.new ≡ (turns_of words.old cs).words) × AllZip CallerStandsFor callers.new (turns_of words.old cs).callers
        × HasGathered round (turns_of words.old cs).sealed (turns_of words.old cs).arrivals) }
    ensures small { IfOk result (λ round. IsSmall 512 512 round) }
    ensures size { length callers.new ≡ length callers.old }
{
    let mut round = Round::new(alloc);
    for position in 0..callers.len() {
        let action = action_of(draw(words));
        round.turn(alloc, action, position, &mut callers[position])?;
    }
    Ok(round)
}
