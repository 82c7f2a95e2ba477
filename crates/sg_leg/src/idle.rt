//! A call without a generation.

ghost use Rattle.std.specs.Prelude.{◌≡◌, ◌≤◌, ℕ, List, [], ◌∷◌, Some, None, IfOk, IfErr, length};
ghost use Rattle.sg_agreement.specs.Offers.{agreed_offer};
ghost use Rattle.sg_leg.specs.Open.{IsOffered, at_hand};
ghost use Rattle.sg_agreement.specs.Generations.{generation_of};
ghost use Rattle.sg_agreement.specs.Manual.{medium_under, manual_stream};
ghost use Rattle.sg_keys.specs.Installing.{keys_of};
ghost use Rattle.sg_session.specs.Ring.{Installed};
ghost use Rattle.sg_leg.specs.Served.{IsServedMedium};
ghost use Rattle.sg_leg.specs.Planned.{planned_in, planned_sides};
ghost use Rattle.sg_leg.specs.Standing.{IsManual};

use crate::media::{AgreedMedium, SideKeys};
use crate::offered::{Before, open};
use crate::settling::settle_one;
use crate::{Books, Live, MediaSpec, Offered, SideSpec, Way};
use sg_base::{Address, Fault, MasterKey, Octets, RTP_LIFE, WINDOW_LEAST, WINDOW_MOST};
use sg_keys::Admit;
use sg_sdes::{InlineKey, InlineKeys};
use std::alloc::Global;
use std::marker::Model;

/// A call in its slot, without a generation and without an offer.
#[derive(Drop)]
pub struct Idle {
    slot: u8,
}

impl Model for Idle {
    ghost use Rattle.std.specs.Prelude.{ℕ};

    ghost Value = { ℕ };

    ghost view = { λ i. i.slot };
}

/// What one side sends under one key.
fn manual_stream(roc: u32, key: &MasterKey) -> SideKeys
    ensures { result ≡ manual_stream roc key.now }
{
    SideKeys {
        suite: key.suite(),
        keys: InlineKeys::one(InlineKey {
            key: key.clone(),
            lifetime: RTP_LIFE,
            mki: None,
        }),
        roc,
        admit: Admit::Any,
        encrypts_rtp: !key.suite().is_raw(),
        encrypts_rtcp: true,
    }
}

/// What a call that is keyed manually is given of its one medium: the addresses of its sides, the starting rollover, the
/// window in which the gateway opens, and the keys under which the peer sends and is sent to.
#[derive(Drop)]
pub struct ManualMedium<'a> {
    pub secure: Address,
    pub plain: Address,
    pub roc: u32,
    pub window: u16,
    pub from_peer: &'a MasterKey,
    pub to_peer: &'a MasterKey,
}

/// The one medium of a call that is keyed manually.
fn manual_medium(given: &ManualMedium) -> AgreedMedium
    ensures medium { result ≡ medium_under given.now.secure given.now.plain given.now.roc given.now.window given.now.from_peer.now given.now.to_peer.now }
    ensures served { IsServedMedium result }
{
    let secret = !given.from_peer.suite().is_raw() && !given.to_peer.suite().is_raw();
    AgreedMedium {
        from_peer: manual_stream(given.roc, given.from_peer),
        to_peer: manual_stream(given.roc, given.to_peer),
        window: given.window.clamp(WINDOW_LEAST, WINDOW_MOST),
        has_rtcp: secret && (given.secure.port < 65535 && given.plain.port < 65535),
        secure: given.secure,
        plain: given.plain,
    }
}

impl Idle {
    /// A call in this slot.
    pub fn make(slot: u8) -> Idle
        ensures { result ≡ slot }
    {
        Idle { slot }
    }

    /// Takes an offer and tells the text for the other side; or gives the state back with the first cause why not, or
    /// out of memory, and then the books are as they were.
    pub fn offer(
        self,
        alloc: Global,
        way: Way,
        text: &[u8],
        noise: &[u8; 304],
        now: u64,
        books: &mut Books,
    ) -> Result<(Offered, Octets), (Idle, Fault)>
        requires moment { now ≤ 2085978495999 }
        ensures answer { IsOffered self None (agreed_offer (at_hand self None noise.now now books.old) way text.now) result books.old books.new }
        ensures back { IfErr result (λ e. (e.0 ≡ self) × (books.new ≡ books.old)) }
    {
        let before = Before {
            slot: self.slot,
            former: None,
        };
        match open(alloc, before, &way, text, noise, now, books) {
            Ok(offered) => Ok(offered),
            Err(fault) => Err((self, fault)),
        }
    }

    /// Keys the call manually and tells what the sides of its one medium are made of: what the peer sends under
    /// `from_peer`, and what the gateway sends to it under `to_peer`, both from its rollover on. Refused as the
    /// ring refuses keys, or out of memory, the call is what it was, and so are the books.
    pub fn settle(
        self,
        alloc: Global,
        given: &ManualMedium,
        books: &mut Books,
    ) -> Result<(Live, Vec<SideSpec>), (Idle, Fault)>
        ensures answer { (call generation : ℕ) (ring : List Installed) → keys_of ring ≡ books.old.ring → IsManual (λ sides. planned_sides sides.items) self result books.new.ring
            (generation_of call generation ring (Some (medium_under given.now.secure given.now.plain given.now.roc given.now.window given.now.from_peer.now given.now.to_peer.now) ∷ [])) }
        ensures few { IfOk result (λ r. length r.1.items ≤ 4) }
        ensures back { IfErr result (λ e. (e.0 ≡ self) × (books.new ≡ books.old)) }
        ensures others { (books.new.psks ≡ books.old.psks) × (books.new.seen ≡ books.old.seen) }
    {
        let medium = manual_medium(given);
        match settle_one(alloc, &medium, &mut books.ring) {
            Ok(sides) => Ok((Live::new(self.slot, 1, true), sides)),
            Err(fault) => Err((self, fault)),
        }
    }

    /// The same, with what all sides are made of in one value on the stack: some 32 KB.
    pub fn manual(
        self,
        alloc: Global,
        secure: Address,
        plain: Address,
        roc: u32,
        window: u16,
        from_peer: &MasterKey,
        to_peer: &MasterKey,
        books: &mut Books,
    ) -> Result<(Live, MediaSpec), (Idle, Fault)>
        ensures answer { (call generation : ℕ) (ring : List Installed) → keys_of ring ≡ books.old.ring → IsManual planned_in self result books.new.ring
            (generation_of call generation ring (Some (medium_under secure plain roc window from_peer.now to_peer.now) ∷ [])) }
        ensures back { IfErr result (λ e. (e.0 ≡ self) × (books.new ≡ books.old)) }
        ensures others { (books.new.psks ≡ books.old.psks) × (books.new.seen ≡ books.old.seen) }
    {
        let medium = manual_medium(&ManualMedium {
            secure,
            plain,
            roc,
            window,
            from_peer,
            to_peer,
        });
        let first = books.ring.count();
        match settle_one(alloc, &medium, &mut books.ring) {
            Ok(sides) => {
                drop(sides);
                Ok((Live::new(self.slot, 1, true), medium.spec(0, first)))
            }
            Err(fault) => Err((self, fault)),
        }
    }
}
