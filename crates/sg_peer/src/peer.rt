//! One source's packets under one key, both ways.

ghost use Rattle.std.specs.Prelude.{◌≡◌, ◌≤◌, ◌<◌, ◌^◌, true, [], ◌∷◌, length, IfErr};
ghost use Rattle.sg_base.specs.Suites.{tag_len_of};
ghost use Rattle.sg_keys.specs.Live.{is_cipher_len};
ghost use Rattle.sg_media.specs.Accepting.{IsMadeOf};
ghost use Rattle.sg_media.specs.Sides.{CanBeMade, StandsFor};
ghost use Rattle.sg_peer.specs.Peers.{IsPeers};
ghost use Rattle.sg_session.specs.Session.{Session};

use arrayvec::ArrayVec;
use sg_base::{DropCause, HalfKeys, Kind, MasterKey, Pad, RTP_LIFE, WINDOW_LEAST, WINDOW_MOST};
use sg_keys::{Admit, KeySet, LiveKey, SessionSpec};
use sg_media::{OpenSide, Opened, SealSide, Sealed};
use std::marker::Model;

/// Who sends and receives the packets of one source under one key. It takes no memory.
#[derive(Drop)]
pub struct Peer {
    sealing: SealSide,
    opening: OpenSide,
}

impl Model for Peer {
    ghost use Rattle.sg_peer.specs.Peers.{PeerValue};

    ghost Value = { PeerValue };

    ghost view = { λ p. record { sealing = p.sealing; opening = p.opening } };
}

impl Peer {
    ghost use Rattle.sg_media.specs.Answers.{opened_of, sealed_of};
    ghost use Rattle.sg_session.specs.OneSession.{after};
    ghost use Rattle.sg_session.specs.Opening.{opens};
    ghost use Rattle.sg_session.specs.Sealing.{seals};

    /// The peer with this key, source and first index, below 2^48: a session that seals, with a replay window
    /// of 1,024 packets, and one that opens, with a window of 64. Nothing is done in them.
    pub fn make(key: &MasterKey, ssrc: u32, first: u64) -> Peer
        requires { first < 2 ^ 48 }
        ensures sealing { (s : Session) → IsPeers s key.now ssrc first 1024 → StandsFor result.sealing s }
        ensures opening { (s : Session) → IsPeers s key.now ssrc first 64 → StandsFor result.opening s }
    {
        Peer {
            sealing: sealing_side(key, ssrc, first),
            opening: opening_side(key, ssrc, first),
        }
    }

    /// Seals a packet of at most 4,096 octets, or hands it back with the first cause that holds: of Short,
    /// Version, CsrcCut, ExtensionCut, SsrcUnknown, KeySpent, BeforeFirst, IndexSpent, TooOld and Repeat.
    /// A packet that is handed back changes nothing.
    pub fn seal_next(&mut self, pad: Pad) -> Result<Sealed, (Pad, DropCause)>
        requires { length pad ≤ 4096 }
        ensures answer { (s : Session) → StandsFor self.old.sealing s → result ≡ sealed_of s pad (seals s pad) }
        ensures refused { IfErr result (λ e. (e.0 ≡ pad) × (self.new ≡ self.old)) }
        ensures after { (s : Session) → StandsFor self.old.sealing s → StandsFor self.new.sealing (after s (seals s pad)) }
        ensures opening { self.new.opening ≡ self.old.opening }
    {
        self.sealing.send(pad)
    }

    /// Opens a datagram that was sealed for this peer, or hands it back with the first cause that holds: of
    /// Short, Version, CsrcCut, ExtensionCut, SsrcUnknown, KeySpent, BeforeFirst, IndexSpent, TooOld, Repeat
    /// and BadTag. A datagram that is handed back changes nothing.
    pub fn check(&mut self, pad: Pad) -> Result<Opened, (Pad, DropCause)>
        ensures answer { (s : Session) → StandsFor self.old.opening s → result ≡ opened_of s.name.kind pad (opens s pad) }
        ensures refused { IfErr result (λ e. (e.0 ≡ pad) × (self.new ≡ self.old)) }
        ensures after { (s : Session) → StandsFor self.old.opening s → StandsFor self.new.opening (after s (opens s pad)) }
        ensures sealing { self.new.sealing ≡ self.old.sealing }
    {
        self.opening.receive(pad)
    }
}

/// The side of a peer that seals, of this key, source and first index, below 2^48: a session with a replay window of 1,024
/// packets. Nothing is done in it. What it is made of is large, so it isn't inlined.
#[inline(never)]
pub fn sealing_side(key: &MasterKey, ssrc: u32, first: u64) -> SealSide
    requires { first < 2 ^ 48 }
    ensures { (s : Session) → IsPeers s key.now ssrc first 1024 → StandsFor result s }
{
    SealSide::make(spec(key, ssrc, first, WINDOW_MOST))
}

/// The side of a peer that opens: a session with a window of 64 packets, and else as the one that seals.
#[inline(never)]
pub fn opening_side(key: &MasterKey, ssrc: u32, first: u64) -> OpenSide
    requires { first < 2 ^ 48 }
    ensures { (s : Session) → IsPeers s key.now ssrc first 64 → StandsFor result s }
{
    OpenSide::make(spec(key, ssrc, first, WINDOW_LEAST))
}

/// What a side of a peer is made of.
#[tactic(auto, using(sg_media::proofs::TagLengths::suite_tag))]
fn spec(key: &MasterKey, ssrc: u32, first: u64, window: u16) -> SessionSpec
    requires first { first < 2 ^ 48 }
    requires at_least { 64 ≤ window }
    requires at_most { window ≤ 1024 }
    ensures can { CanBeMade result }
    ensures made { (s : Session) → IsPeers s key.now ssrc first window → IsMadeOf s result }
{
    sg_kdf::laws::keys_have_their_lengths();
    sg_kdf::laws::encryption_keys_are_not_empty();
    let suite = key.suite();
    SessionSpec {
        kind: Kind::Rtp,
        keys: one_key(sg_kdf::derive(key).rtp),
        roc: (first >> 16) as u32,
        window,
        admit: Admit::One(ssrc),
        encrypt: !suite.is_raw(),
        tag_len: suite.tag_len() as u8,
    }
}

/// The set of one key without an MKI, with number 0 and the longest life, of which nothing is served.
fn one_key(half: HalfKeys) -> KeySet
    requires { is_cipher_len (length half.encrypt) ≡ true }
    ensures { result ≡ record { number = 0; mki = []; half = half; life = 2 ^ 48; count = 0 } ∷ [] }
{
    let mut keys = ArrayVec::new();
    keys.push(LiveKey {
        number: 0,
        mki: None,
        half,
        life: RTP_LIFE,
        count: 0,
    });
    KeySet::make(keys)
}
