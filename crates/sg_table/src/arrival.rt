//! A datagram of a batch.

use sg_base::{Address, Pad};
use sg_call::End;

/// A datagram that comes to a port. Before a batch it has its pad, and after it also its end.
#[derive(Drop)]
pub struct Arrival {
    pub port: u16,
    pub from: Address,
    pub pad: Option<Pad>,
    pub end: Option<End>,
}
