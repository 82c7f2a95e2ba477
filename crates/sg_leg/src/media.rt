//! What is agreed of a medium, and the specs of its sessions.

ghost use Rattle.std.specs.Prelude.{◌≡◌, ◌≤◌, ◌<◌, ◌+◌, ◌^◌, ℕ, true, false, [], ◌∷◌, Some, length, map};
ghost use Rattle.sg_agreement.specs.Generations.{numbered, sessions_from, stream_session};
ghost use Rattle.sg_agreement.specs.Media as agreed;
ghost use Rattle.sg_agreement.specs.Streams.{line_key};
ghost use Rattle.sg_keys.specs.PreparedKey.{live_of};
ghost use Rattle.sg_media.specs.Accepting.{IsMadeOf};
ghost use Rattle.sg_media.specs.Sides.{CanBeMade};
ghost use Rattle.sg_session.specs.Halves.{half_of};
ghost use Rattle.sg_session.specs.Reach.{AreMkis};
ghost use Rattle.sg_session.specs.declared.names.Owner.{Owner};
ghost use Rattle.sg_leg.specs.FreshKeys.{encrypts_for, fresh_key, fresh_keys, life_for, tag_for};
ghost use Rattle.sg_leg.specs.Planned.{AreOfMedium};
ghost use Rattle.sg_leg.specs.Served.{IsServed, IsServedMedium};

use crate::MediaSpec;
use arrayvec::ArrayVec;
use sg_base::{Address, HalfKeys, Kind, RTCP_LIFE, RTCP_TAG, SessionKeys, Suite, WINDOW_MOST};
use sg_keys::{Admit, KeySet, LiveKey, SessionSpec};
use sg_sdes::{InlineKey, InlineKeys};
use std::marker::Model;

/// What one side sends: the suite, its keys, the starting rollover, the sources that are admitted, and what is
/// encrypted.
#[derive(Drop)]
pub(crate) struct SideKeys {
    pub suite: Suite,
    pub keys: InlineKeys,
    pub roc: u32,
    pub admit: Admit,
    pub encrypts_rtp: bool,
    pub encrypts_rtcp: bool,
}

impl Model for SideKeys {
    ghost use Rattle.std.specs.Prelude.{map};
    ghost use Rattle.sg_agreement.specs.Media as agreed;
    ghost use Rattle.sg_agreement.specs.Streams.{line_key};
    ghost use Rattle.sg_base.specs.Suites.{tag_len_of};

    ghost Value = { agreed.Stream };

    ghost view = { λ s. record {
      keys = map line_key s.keys;
      roc = s.roc;
      admit = s.admit;
      encrypts_rtp = s.encrypts_rtp;
      encrypts_rtcp = s.encrypts_rtcp;
      tag_len = tag_len_of s.suite;
    } };
}

/// What both sides of a medium send, the window in which the gateway opens, whether there is RTCP, and the
/// addresses of the two sides.
#[derive(Drop)]
pub(crate) struct AgreedMedium {
    pub from_peer: SideKeys,
    pub to_peer: SideKeys,
    pub window: u16,
    pub has_rtcp: bool,
    pub secure: Address,
    pub plain: Address,
}

impl Model for AgreedMedium {
    ghost use Rattle.sg_agreement.specs.Media as agreed;

    ghost Value = { agreed.Medium };

    ghost view = { λ x. record {
      from_peer = x.from_peer;
      to_peer = x.to_peer;
      window = x.window;
      has_rtcp = x.has_rtcp;
      secure = x.secure;
      plain = x.plain;
    } };
}

fn half_of(kind: Kind, keys: SessionKeys) -> HalfKeys
    ensures { result ≡ half_of kind keys }
{
    let SessionKeys { rtp, rtcp } = keys;
    match kind {
        Kind::Rtp => rtp,
        Kind::Rtcp => rtcp,
    }
}

/// How many packets of a kind a key serves.
fn life_for(kind: Kind, life: u64) -> u64
    ensures { result ≡ life_for kind life }
{
    match kind {
        Kind::Rtp => life,
        Kind::Rtcp => life.min(RTCP_LIFE),
    }
}

/// A key of which nothing is served.
#[tactic(auto, using(crate::proofs::Fresh::octets_same))]
fn live_key(kind: Kind, number: u32, key: &InlineKey) -> LiveKey
    ensures { live_of result ≡ fresh_key kind number (line_key key.now) }
{
    LiveKey {
        number,
        mki: key.mki,
        half: half_of(kind, sg_kdf::derive(&key.key)),
        life: life_for(kind, key.lifetime),
        count: 0,
    }
}

/// The keys of one kind, whose numbers begin at `first`.
fn live_keys(kind: Kind, first: u32, keys: &[InlineKey]) -> ArrayVec<LiveKey, 8>
    requires few { length keys.now ≤ 8 }
    requires numbers { first ≤ 65600 }
    ensures { map live_of result.items ≡ fresh_keys kind first (map line_key keys.now) }
{
    let mut list = ArrayVec::new();
    let mut number = first;
    for key in keys {
        list.push(live_key(kind, number, key));
        number += 1;
    }
    list
}

fn key_set(kind: Kind, first: u32, keys: &[InlineKey]) -> KeySet
    requires some { 1 ≤ length keys.now }
    requires few { length keys.now ≤ 8 }
    requires numbers { first ≤ 65600 }
    requires mkis { AreMkis (map (λ (k : agreed.AgreedKey). k.mki) (map line_key keys.now)) }
    ensures { result ≡ fresh_keys kind first (map line_key keys.now) }
{
    sg_kdf::laws::keys_have_their_lengths();
    KeySet::make(live_keys(kind, first, keys))
}

impl SideKeys {
    /// What a side of one kind is made of, whose keys' numbers begin at `first`.
    pub(crate) fn spec(&self, kind: Kind, first: u32, window: u16) -> SessionSpec
        requires served { IsServed kind self.now }
        requires numbers { first ≤ 65600 }
        requires least { 64 ≤ window }
        requires most { window ≤ 1024 }
        ensures can { CanBeMade result }
        ensures kind { result.kind ≡ kind }
        ensures made { (owner : Owner) (x : agreed.Medium) → IsMadeOf
            (stream_session owner (numbered first self.now.keys) self.now window x kind (encrypts_for kind self.now) (tag_for kind self.now)) result }
    {
        sg_kdf::laws::encryption_keys_are_not_empty();
        let keys = key_set(kind, first, self.keys.as_slice());
        SessionSpec {
            kind,
            keys,
            roc: self.roc,
            window,
            admit: self.admit,
            encrypt: self.encrypts(kind),
            tag_len: self.tag_len(kind),
        }
    }

    /// The same; it doesn't allocate.
    pub(crate) fn clone(&self) -> SideKeys
        ensures { result ≡ self.now }
    {
        SideKeys {
            suite: self.suite,
            keys: self.keys.clone(),
            roc: self.roc,
            admit: self.admit,
            encrypts_rtp: self.encrypts_rtp,
            encrypts_rtcp: self.encrypts_rtcp,
        }
    }

    /// How many keys it has.
    pub(crate) fn count(&self) -> u32
        requires { length self.now.keys ≤ 8 }
        ensures { result ≡ length self.now.keys }
    {
        self.keys.as_slice().len() as u32
    }

    fn encrypts(&self, kind: Kind) -> bool
        ensures { result ≡ encrypts_for kind self.now }
    {
        match kind {
            Kind::Rtp => self.encrypts_rtp,
            Kind::Rtcp => self.encrypts_rtcp,
        }
    }

    fn tag_len(&self, kind: Kind) -> u8
        ensures { result ≡ tag_for kind self.now }
    {
        match kind {
            Kind::Rtp => self.suite.tag_len() as u8,
            Kind::Rtcp => RTCP_TAG as u8,
        }
    }
}

impl AgreedMedium {
    /// How many keys it has, both ways.
    pub(crate) fn count(&self) -> u32
        requires from_peer { length self.now.from_peer.keys ≤ 8 }
        requires to_peer { length self.now.to_peer.keys ≤ 8 }
        ensures { result ≡ length self.now.from_peer.keys + length self.now.to_peer.keys }
    {
        self.from_peer.count() + self.to_peer.count()
    }

    /// What the sides of this medium are made of, whose keys' numbers begin at `first`.
    pub(crate) fn spec(&self, medium: u8, first: u32) -> MediaSpec
        requires served { IsServedMedium self.now }
        requires numbers { first + length self.now.from_peer.keys ≤ 65600 }
        ensures { (call generation : ℕ) → AreOfMedium result (sessions_from call generation medium first (Some self.now ∷ [])) }
    {
        if self.has_rtcp {
            self.with_rtcp(medium, first)
        } else {
            self.rtp_alone(medium, first)
        }
    }

    fn with_rtcp(&self, medium: u8, first: u32) -> MediaSpec
        requires served { IsServedMedium self.now }
        requires numbers { first + length self.now.from_peer.keys ≤ 65600 }
        requires rtcp { self.now.has_rtcp ≡ true }
        ensures { (call generation : ℕ) → AreOfMedium result (sessions_from call generation medium first (Some self.now ∷ [])) }
    {
        let second = first + self.from_peer.count();
        let open_rtp = self.from_peer.spec(Kind::Rtp, first, self.window);
        let open_rtcp = self.from_peer.spec(Kind::Rtcp, first, self.window);
        let seal_rtp = self.to_peer.spec(Kind::Rtp, second, WINDOW_MOST);
        let seal_rtcp = self.to_peer.spec(Kind::Rtcp, second, WINDOW_MOST);
        MediaSpec {
            medium,
            open_rtp,
            open_rtcp: Some(open_rtcp),
            seal_rtp,
            seal_rtcp: Some(seal_rtcp),
            secure: self.secure,
            plain: self.plain,
        }
    }

    fn rtp_alone(&self, medium: u8, first: u32) -> MediaSpec
        requires served { IsServedMedium self.now }
        requires numbers { first + length self.now.from_peer.keys ≤ 65600 }
        requires no_rtcp { self.now.has_rtcp ≡ false }
        ensures { (call generation : ℕ) → AreOfMedium result (sessions_from call generation medium first (Some self.now ∷ [])) }
    {
        let second = first + self.from_peer.count();
        let open_rtp = self.from_peer.spec(Kind::Rtp, first, self.window);
        let seal_rtp = self.to_peer.spec(Kind::Rtp, second, WINDOW_MOST);
        MediaSpec {
            medium,
            open_rtp,
            open_rtcp: None,
            seal_rtp,
            seal_rtcp: None,
            secure: self.secure,
            plain: self.plain,
        }
    }
}
