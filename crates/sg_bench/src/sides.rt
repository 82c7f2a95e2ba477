//! The two sides of a session with one key.

ghost use Rattle.std.specs.Prelude.{◌≡◌, ◌<◌, length, true, IsTrue, IfSome};
ghost use Rattle.sg_base.specs.declared.addresses.Kind.TheVariants as kind;
ghost use Rattle.sg_keys.specs.Live.{is_cipher_len};
ghost use Rattle.sg_media.specs.Sides.{CanBeMade, is_tag_len};

use arrayvec::ArrayVec;
use sg_base::{HalfKeys, Kind, MasterKey, SessionKeys, Suite};
use sg_kdf::derive;
use sg_keys::{Admit, KeySet, LiveKey, SessionSpec};
use sg_media::{OpenSide, SealSide};

/// How many packets a key serves (RFC 3711, 9.2).
const LIFE: u64 = 281474976710656;

/// The replay window in indices.
const WINDOW: u16 = 1024;

/// The two sides of a session.
#[derive(Drop)]
pub struct Sides {
    pub seal: SealSide,
    pub open: OpenSide,
}

// Octets that count up from one.
fn counted(first: u8) -> [u8; 46] {
    let mut octets = [0; 46];
    for (place, octet) in octets.iter_mut().enumerate() {
        *octet = first.wrapping_add((place % 256) as u8);
    }
    octets
}

// A master key and salt whose octets count up from an octet.
fn master(suite: Suite, first: u8) -> Option<MasterKey> {
    let octets = counted(first);
    MasterKey::new(suite, &octets[..suite.key_len() + suite.salt_len()])
}

fn is_cipher(half: &HalfKeys) -> bool
    ensures cipher { IsTrue result → is_cipher_len (length half.now.encrypt) ≡ true }
    ensures some { IsTrue result → 0 < length half.now.encrypt }
{
    matches!(half.encrypt.as_slice().len(), 16 | 24 | 32)
}

// The session of RTP with this key alone, which has not served.
fn session(half: HalfKeys, tag_len: u8) -> SessionSpec
    requires cipher { is_cipher_len (length half.encrypt) ≡ true }
    requires some { 0 < length half.encrypt }
    requires tag { is_tag_len kind.Rtp tag_len ≡ true }
    ensures { CanBeMade result }
{
    let mut keys = ArrayVec::new();
    keys.push(LiveKey {
        number: 0,
        mki: None,
        half,
        life: LIFE,
        count: 0,
    });
    SessionSpec {
        kind: Kind::Rtp,
        keys: KeySet::make(keys),
        roc: 0,
        window: WINDOW,
        admit: Admit::Any,
        encrypt: true,
        tag_len,
    }
}

#[tactic(auto, using(sg_media::proofs::TagLengths::suite_tag))]
fn rtp_session(suite: Suite, first: u8) -> Option<SessionSpec>
    ensures { IfSome result CanBeMade }
{
    let SessionKeys { rtp, rtcp: _ } = derive(&master(suite, first)?);
    if is_cipher(&rtp) {
        Some(session(rtp, suite.tag_len() as u8))
    } else {
        None
    }
}

/// The two sides of an RTP session under a key whose octets count up from an octet; none where the suite
/// has no cipher.
pub fn make_sides(suite: Suite, first: u8) -> Option<Sides> {
    Some(Sides {
        seal: SealSide::make(rtp_session(suite, first)?),
        open: OpenSide::make(rtp_session(suite, first)?),
    })
}
