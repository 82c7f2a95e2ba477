//! AES, encryption alone, with keys of 16, 24 and 32 octets (FIPS 197).
#![tactic(auto)]

mod keys;
pub mod laws;
mod planes;
mod schedule;
mod sixteen;
mod vectors;

pub use schedule::Schedule;
pub use sixteen::KeyPlanes;
