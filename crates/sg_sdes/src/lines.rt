//! What a crypto line says.

use crate::InlineKeys;
use sg_base::{MasterKey, Mki, Suite};

/// A master key with the number of packets that it lives for, at most 2^48, and its identifier where it
/// has one. It has no `Debug`, so that no text shows a key.
#[derive(Default, Drop)]
pub struct InlineKey {
    pub key: MasterKey,
    pub lifetime: u64,
    pub mki: Option<Mki>,
}

/// A crypto line: its tag, its suite, one to eight keys of the suite, the window that its sender asks
/// for as it was said, and whether RTP and RTCP are sent unencrypted.
#[derive(Drop)]
pub struct CryptoLine {
    pub tag: u32,
    pub suite: Suite,
    pub keys: InlineKeys,
    pub window: Option<u32>,
    pub plain_rtp: bool,
    pub plain_rtcp: bool,
}

impl InlineKey {
    ghost use Rattle.std.specs.Prelude.{◌≡◌};

    /// The same key; it doesn't allocate.
    pub fn clone(&self) -> InlineKey
        ensures { result ≡ self.now }
    {
        InlineKey {
            key: self.key.clone(),
            lifetime: self.lifetime,
            mki: self.mki,
        }
    }
}

impl CryptoLine {
    ghost use Rattle.std.specs.Prelude.{◌≡◌};

    /// The same line; it doesn't allocate.
    pub fn clone(&self) -> CryptoLine
        ensures { result ≡ self.now }
    {
        CryptoLine {
            tag: self.tag,
            suite: self.suite,
            keys: self.keys.clone(),
            window: self.window,
            plain_rtp: self.plain_rtp,
            plain_rtcp: self.plain_rtcp,
        }
    }
}
