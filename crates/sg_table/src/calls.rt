//! The calls that are there, and what they share.

ghost use Rattle.std.specs.Prelude.{◌≡◌, [], OnOk, OnErr, IsSome, length, false};
ghost use Rattle.sg_gateway.specs.Early.{MayWant};
ghost use Rattle.sg_gateway.specs.Events.{noise_octets, signal_lacks_noise, signal_of};
ghost use Rattle.sg_gateway.specs.Signals.{answer_to};
ghost use Rattle.sg_gateway.specs.World.{World};
ghost use Rattle.sg_table.specs.Standing.{Stands, TableStandsFor};
ghost use Rattle.sg_table.specs.Telling.{IsAnswered, IsTimely};

use crate::outcomes::Outcomes;
use sg_base::{Identity, NoMemory, Noise304};
use sg_call::Call;
use sg_leg::{Books, ManualMedium, Way};
use sg_lines::Signal;
use std::alloc::Global;
use std::marker::Model;

/// Up to 256 calls by rising slot, their books, and the last moment.
#[derive(Drop)]
pub(crate) struct Calls {
    pub(crate) by_slot: Vec<Call>,
    pub(crate) books: Books,
    pub(crate) moment: u64,
}

impl Model for Calls {
    ghost use Rattle.std.specs.Prelude.{◌≤◌, vec_len, vec_capacity};
    ghost use Rattle.sg_table.specs.Values.{TableValue};

    ghost Value = { TableValue };

    ghost view = { λ t. record { calls = t.by_slot.items; books = t.books; moment = t.moment } };

    ghost invariant = { λ t. (vec_len t.by_slot ≤ 256) × (256 ≤ vec_capacity t.by_slot) × (t.moment ≤ 2085978495999) };
}

/// The noise of a signal that has it.
fn given(noise: &Option<Noise304>) -> &[u8; 304]
    requires { IsSome noise.now }
    ensures { result.now ≡ noise_octets noise.now }
{
    match noise {
        Some(noise) => &noise.0,
        None => unreachable!(),
    }
}

/// A copy of a name. It doesn't allocate.
fn copy_of(name: &Identity) -> Identity
    ensures { result ≡ name.now }
{
    match Identity::new(name.as_slice()) {
        Some(copy) => copy,
        None => unreachable!(),
    }
}

impl Calls {
    /// The number of calls.
    pub(crate) fn count(&self) -> usize
        ensures { result ≡ length self.now.calls }
    {
        self.by_slot.len()
    }

    /// Takes a signal and tells its outcomes. Out of memory, nothing has changed.
    pub(crate) fn take(
        &mut self,
        alloc: Global,
        signal: &Signal,
        told: &mut Outcomes,
    ) -> Result<(), NoMemory>
        requires noise { signal_lacks_noise signal.now ≡ false }
        requires timely { IsTimely signal.now }
        requires stands { Stands self.old }
        requires none { told.old.items ≡ [] }
        ensures told { OnOk result ((w : World) → TableStandsFor self.old w → IsAnswered told.new.items self.new (answer_to w (signal_of signal.now))) }
        ensures same { OnErr result (self.new ≡ self.old) }
        ensures needs { OnErr result ((w : World) → TableStandsFor self.old w → MayWant w (signal_of signal.now)) }
    {
        match signal {
            Signal::Tick { now } => {
                self.tick(*now, told);
                Ok(())
            }
            Signal::Psk { own, peer, key } => self.psk(alloc, own, peer, key.as_slice(), told),
            Signal::Manual {
                call,
                secure,
                plain,
                roc,
                window,
                from_peer,
                to_peer,
            } => {
                let medium = ManualMedium {
                    secure: *secure,
                    plain: *plain,
                    roc: *roc,
                    window: *window,
                    from_peer,
                    to_peer,
                };
                self.manual(alloc, *call, &medium, told)
            }
            Signal::OfferSecure { call, noise, text } => self.offer(
                alloc,
                *call,
                Way::FromSecure,
                given(noise),
                text.as_slice(),
                told,
            ),
            Signal::OfferSdes { call, noise, text } => self.offer(
                alloc,
                *call,
                Way::SdesFromPlain,
                given(noise),
                text.as_slice(),
                told,
            ),
            Signal::OfferMikey {
                call,
                peer,
                noise,
                text,
            } => {
                let way = Way::MikeyFromPlain(copy_of(peer));
                self.offer(alloc, *call, way, given(noise), text.as_slice(), told)
            }
            Signal::Answer { call, noise, text } => {
                self.answer(alloc, *call, given(noise), text.as_slice(), told)
            }
            Signal::Reject { call } => {
                self.reject(*call, told);
                Ok(())
            }
            Signal::Bye { call } => {
                self.bye(*call, told);
                Ok(())
            }
        }
    }
}
