//! A call under its generation.

ghost use Rattle.std.specs.Prelude.{◌≡◌, ◌≤◌, true, false, Some, Err, IfErr};
ghost use Rattle.sg_agreement.specs.Offers.{agreed_offer};
ghost use Rattle.sg_base.specs.declared.faults.Fault.TheVariants as faults;
ghost use Rattle.sg_base.specs.declared.faults.Refusal.TheVariants as refusals;
ghost use Rattle.sg_leg.specs.Open.{IsOffered, at_hand};

use crate::offered::{Before, open};
use crate::{Books, Offered, Way};
use sg_base::{Fault, Octets, Refusal};
use std::alloc::Global;
use std::marker::Model;

/// A call that has ended.
#[derive(Clone, Copy)]
pub struct Ended;

/// A call with sessions and without an open offer.
#[derive(Drop)]
pub struct Live {
    slot: u8,
    media: u8,
    manual: bool,
}

impl Model for Live {
    ghost use Rattle.std.specs.Prelude.{◌≤◌};
    ghost use Rattle.sg_leg.specs.Values.{LiveValue};

    ghost Value = { LiveValue };

    ghost view = { λ l. record { slot = l.slot; media = l.media; manual = l.manual } };

    ghost invariant = { λ l. l.media ≤ 4 };
}

impl Live {
    /// A call in this slot with so many media.
    pub(crate) fn new(slot: u8, media: u8, manual: bool) -> Live
        requires { media ≤ 4 }
        ensures { result ≡ record { slot = slot; media = media; manual = manual } }
    {
        Live {
            slot,
            media,
            manual,
        }
    }

    /// The number of its media.
    pub fn media(&self) -> u8
        ensures value { result ≡ self.now.media }
        ensures most { result ≤ 4 }
    {
        self.media
    }

    /// The same; it doesn't allocate.
    fn clone(&self) -> Live
        ensures { result ≡ self.now }
    {
        Live {
            slot: self.slot,
            media: self.media,
            manual: self.manual,
        }
    }

    /// Takes an offer, as an idle call does. One that is keyed manually takes none (`State`), and then memory isn't
    /// wanting.
    pub fn offer(
        self,
        alloc: Global,
        way: Way,
        text: &[u8],
        noise: &[u8; 304],
        now: u64,
        books: &mut Books,
    ) -> Result<(Offered, Octets), (Live, Fault)>
        requires moment { now ≤ 2085978495999 }
        ensures answer { self.manual ≡ false → IsOffered self.slot (Some self) (agreed_offer (at_hand self.slot (Some self.media) noise.now now books.old) way text.now) result books.old books.new }
        ensures manual { self.manual ≡ true → result ≡ Err (self, faults.Refused refusals.State) }
        ensures back { IfErr result (λ e. (e.0 ≡ self) × (books.new ≡ books.old)) }
    {
        if self.manual {
            return Err((self, Fault::Refused(Refusal::State)));
        }
        let before = Before {
            slot: self.slot,
            former: Some(self.clone()),
        };
        match open(alloc, before, &way, text, noise, now, books) {
            Ok(offered) => Ok(offered),
            Err(fault) => Err((self, fault)),
        }
    }

    /// The call ends.
    pub fn bye(self) -> Ended {
        Ended
    }
}
