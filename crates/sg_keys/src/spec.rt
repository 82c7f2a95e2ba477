//! What a session is made of.

use crate::KeySet;
use sg_base::{Admit, Kind};

/// A session in which nothing is done: its kind, its keys, the starting rollover, the replay window in
/// indices, the sources that it admits, whether RTP is encrypted, and the octets of a tag.
#[derive(Drop)]
pub struct SessionSpec {
    pub kind: Kind,
    pub keys: KeySet,
    pub roc: u32,
    pub window: u16,
    pub admit: Admit,
    pub encrypt: bool,
    pub tag_len: u8,
}
