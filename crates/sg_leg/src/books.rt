//! What all calls share.

use sg_keys::Ring;
use sg_psk::{PskBook, ReplayBook};

/// The pre-shared keys, the MIKEY messages that were accepted, and every key that came into use.
#[derive(Drop)]
pub struct Books {
    pub psks: PskBook,
    pub seen: ReplayBook,
    pub ring: Ring,
}
