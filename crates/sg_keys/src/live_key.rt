//! A key that serves a session.

ghost use Rattle.std.specs.Prelude.{◌≡◌, [], None, replicate};

use sg_base::{CipherKey, HalfKeys, Mki};

/// A key of a session: its number in the ring, its MKI where it has one, the session keys of the
/// session's kind, how many packets it may serve, and how many it has served (RFC 3711, 3.2.1 and 9.2).
#[derive(Drop)]
pub struct LiveKey {
    pub number: u32,
    pub mki: Option<Mki>,
    pub half: HalfKeys,
    pub life: u64,
    pub count: u64,
}

/// The blank of a bounded list: a key that serves no packet.
pub(crate) fn blank() -> LiveKey
    ensures encrypt { result.half.encrypt ≡ [] }
    ensures auth { result.half.auth ≡ replicate 20 0 }
    ensures mki { result.mki ≡ None }
{
    LiveKey {
        number: 0,
        mki: None,
        half: HalfKeys {
            encrypt: CipherKey::new(&[]),
            auth: [0; 20],
            salt: [0; 14],
        },
        life: 0,
        count: 0,
    }
}

impl Default for LiveKey {
    fn default() -> LiveKey {
        blank()
    }
}
