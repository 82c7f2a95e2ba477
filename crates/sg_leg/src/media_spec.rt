//! What the sides of a medium are made of.

ghost use Rattle.std.specs.Prelude.{◌≡◌};
ghost use Rattle.sg_media.specs.Sides.{CanBeMade};
ghost use Rattle.sg_leg.specs.Sound.{AreSound, IsSound};

use arrayvec::ArrayVec;
use sg_base::{Address, CipherKey, HalfKeys, Kind, RTCP_TAG, WINDOW_LEAST};
use sg_keys::{Admit, KeySet, LiveKey, SessionSpec};
use sg_session::Direction;

/// The most sides of a medium: RTP and RTCP, opened and sealed.
pub const MEDIUM_SIDES: usize = 4;

/// What the sides of an active medium are made of, and where its packets go.
#[derive(Drop)]
pub struct MediaSpec {
    pub medium: u8,
    pub open_rtp: SessionSpec,
    pub open_rtcp: Option<SessionSpec>,
    pub seal_rtp: SessionSpec,
    pub seal_rtcp: Option<SessionSpec>,
    pub secure: Address,
    pub plain: Address,
    ghost sound: { AreSound open_rtp open_rtcp seal_rtp seal_rtcp secure plain },
}

/// What one side of an active medium is made of, and where its packets go.
#[derive(Drop)]
pub struct SideSpec {
    pub medium: u8,
    pub direction: Direction,
    pub spec: SessionSpec,
    pub secure: Address,
    pub plain: Address,
    ghost sound: { IsSound spec secure plain },
}

/// The blank of a bounded list: a medium under a key that serves no packet.
impl Default for MediaSpec {
    fn default() -> MediaSpec {
        let nowhere = Address {
            ip: [0, 0, 0, 0],
            port: 0,
        };
        MediaSpec {
            medium: 0,
            open_rtp: blank(),
            open_rtcp: None,
            seal_rtp: blank(),
            seal_rtcp: None,
            secure: nowhere,
            plain: nowhere,
        }
    }
}

fn blank() -> SessionSpec
    ensures can { CanBeMade result }
    ensures kind { result.kind ≡ Kind.Rtp }
{
    let mut keys = ArrayVec::new();
    keys.push(LiveKey {
        number: 0,
        mki: None,
        half: HalfKeys {
            encrypt: CipherKey::new(&[]),
            auth: [0; 20],
            salt: [0; 14],
        },
        life: 0,
        count: 0,
    });
    SessionSpec {
        kind: Kind::Rtp,
        keys: KeySet::make(keys),
        roc: 0,
        window: WINDOW_LEAST,
        admit: Admit::Any,
        encrypt: false,
        tag_len: RTCP_TAG as u8,
    }
}
