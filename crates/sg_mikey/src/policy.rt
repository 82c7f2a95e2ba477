//! Security policies.

use crate::Items;
use sg_base::Octets;

/// A security policy of SRTP (RFC 3830, 6.10): its number, and the type and value of each item.
#[derive(Drop)]
pub struct Policy {
    pub number: u8,
    pub items: Items<(u8, Octets)>,
}
